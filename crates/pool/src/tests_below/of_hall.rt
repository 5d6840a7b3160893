//! Faults, lists, the laws, jobs, whole runs of events, one of 1,001 too, a linked role, public reading, and halls compared with
//! the plain program.
mod acts;
mod deeds;
mod explained;
mod jobs;
mod letters;
mod linked_roles;
mod long_runs;
mod public_reading;
mod runs;
mod worlds;

use super::is_text;
use deeds::{Part, all_play};
use hall::{Fault, Hall, Names};
use names::Entity;
use quotas::{Limits, QuotaFault};
use std::alloc::{AllocError, Global};
use vaults::VaultFault;

/// The entity of this name; where it is no name, nobody is let in under it.
fn entity(name: &str) -> Result<Entity, Fault> {
    Entity::read(name.as_bytes()).or(Err(Fault::NoTenant))
}

/// The four tenants.
fn four() -> Result<[Entity; 4], Fault> {
    Ok([entity("A")?, entity("B")?, entity("C")?, entity("D")?])
}

/// The hall of tenants A, with these limits, B, C and D, who have done nothing.
fn four_tenants(alloc: Global, limits: Limits) -> Result<Hall, Fault> {
    let [a, b, c, d] = four()?;
    if b == a || c == a || d == a || c == b || d == b || d == c {
        return Err(Fault::NoTenant);
    }
    let usual = Limits::usual();
    let roster = Vec::from_slice(alloc, &[(a, limits), (b, usual), (c, usual), (d, usual)])?;
    Hall::make(alloc, roster)
}

static FAULTS: [(Fault, u64, &str); 16] = [
    (Fault::NotIssuer, 31, "not issuer"),
    (Fault::AlreadyHeld, 32, "already held"),
    (Fault::NotHeld, 33, "not held"),
    (Fault::AlreadyGranted, 34, "already granted"),
    (Fault::NotGranted, 35, "not granted"),
    (Fault::GrantSelf, 36, "grant self"),
    (Fault::Creds, 41, "creds limit"),
    (Fault::Grants, 42, "grants limit"),
    (Fault::Searches, 43, "searches limit"),
    (Fault::Changes, 44, "changes limit"),
    (Fault::Opens, 45, "opens limit"),
    (Fault::NoSuchSearch, 51, "no such search"),
    (Fault::NotDone, 52, "not done"),
    (Fault::NoProof, 53, "no proof"),
    (Fault::NoTenant, 62, "bad hello"),
    (Fault::Memory, 90, "memory"),
];

static VAULT_FAULTS: [(VaultFault, u64); 7] = [
    (VaultFault::NotIssuer, 31),
    (VaultFault::AlreadyHeld, 32),
    (VaultFault::NotHeld, 33),
    (VaultFault::AlreadyGranted, 34),
    (VaultFault::NotGranted, 35),
    (VaultFault::GrantSelf, 36),
    (VaultFault::Memory, 90),
];

static QUOTA_FAULTS: [(QuotaFault, u64); 5] = [
    (QuotaFault::Creds, 41),
    (QuotaFault::Grants, 42),
    (QuotaFault::Searches, 43),
    (QuotaFault::Changes, 44),
    (QuotaFault::Opens, 45),
];

/// Whether a list of these names has them in this order.
fn lists_as_given(alloc: Global, given: &[Entity]) -> Result<bool, AllocError> {
    let names = Names::new(Vec::from_slice(alloc, given)?);
    Ok(names.as_slice() == given)
}

/// Numbers and texts, the numbers of the lower layers' faults as the hall's, and a list.
#[test]
fn faults_and_lists(rt: HostRuntime) -> Result<(), Fault> {
    for (fault, number, text) in &FAULTS {
        assert!(rt; fault.number() == *number && is_text(rt.alloc(), fault, text)?);
    }
    for (fault, number) in &VAULT_FAULTS {
        assert!(rt; Fault::from(*fault).number() == *number);
    }
    for (fault, number) in &QUOTA_FAULTS {
        assert!(rt; Fault::from(*fault).number() == *number);
    }
    let [a, b, c, d] = four()?;
    assert!(rt; lists_as_given(rt.alloc(), &[b, a, d, c])?);
    Ok(())
}

/// Each play of events is answered as it is written. Wrong bodies that are refused here: memory lacks for each `vault`, `sees`
/// or `proof`; a pick answers as if each turn were the first.
#[test]
fn plays_go_as_they_are_written(rt: HostRuntime) -> Result<(), Fault> {
    let all: [&[&[Part]]; 5] = [
        &explained::PLAYS,
        &jobs::PLAYS,
        &letters::PLAYS,
        &public_reading::PLAYS,
        &runs::PLAYS,
    ];
    for plays in all {
        assert!(rt; all_play(rt.alloc(), Limits::usual(), plays)?);
    }
    let few = Limits::make(1, 1, 1, 3, 1, 1000).expect(&rt, "limits");
    assert!(rt; all_play(rt.alloc(), few, &public_reading::WITH_FEW)?);
    Ok(())
}
