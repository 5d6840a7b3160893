use super::of_search::credentials;
use credential_text::{CredFault, Credential};
use names::{Entity, Role};
use rt0_rules::{members_plain, work_plain};
use std::alloc::Global;

/// What is asked of credentials, and what it is to come to.
enum Told {
    /// The members of a role, in order.
    Members(&'static [u8], &'static [&'static [u8]]),
    /// The work of a search for the members of `A.r`: within this limit and above it, and not within the one below.
    Work(u64),
}

use Told::{Members, Work};

/// Whether the entities have these names, in this order.
fn are_named(entities: &[Entity], names: &[&[u8]]) -> bool {
    let mut rest = names;
    for entity in entities {
        let [name, behind @ ..] = rest else {
            return false;
        };
        if entity.bytes() != *name {
            return false;
        }
        rest = behind;
    }
    rest.is_empty()
}

fn has_members(
    alloc: Global,
    all: &[Credential],
    asked: &[u8],
    names: &[&[u8]],
) -> Result<bool, CredFault> {
    let members = members_plain(alloc, all, &Role::read(asked)?)?;
    Ok(are_named(&members, names))
}

fn has_work(alloc: Global, all: &[Credential], work: u64) -> Result<bool, CredFault> {
    let asked = Role::read(b"A.r")?;
    let below = work_plain(alloc, all, &asked, work.saturating_sub(1))?;
    let within = work_plain(alloc, all, &asked, work)?;
    let above = work_plain(alloc, all, &asked, u64::MAX)?;
    Ok(below.is_none() && within == Some(work) && above == Some(work))
}

/// Credentials, and what is told of them.
type Line = (&'static [&'static [u8]], Told);

/// Whether it comes to this over these credentials.
fn is_so(alloc: Global, texts: &[&[u8]], told: &Told) -> Result<bool, CredFault> {
    let all = credentials(alloc, texts)?;
    match told {
        Members(asked, names) => has_members(alloc, &all, asked, names),
        Work(work) => has_work(alloc, &all, *work),
    }
}

const CHAIN: &[&[u8]] = &[
    b"A.r <- B.s",
    b"B.s <- C.t",
    b"C.t <- D.u",
    b"D.u <- E",
    b"B.s <- F",
];

const ROLES: &[&[u8]] = &[
    b"B.s <- D",
    b"B.s <- E",
    b"C.t <- E",
    b"A.two <- B.s & C.t",
    b"A.same <- B.s & B.s",
];

const WITH_AN_ENTITY: &[&[u8]] = &[
    b"B.s <- D",
    b"B.s <- E",
    b"A.one <- D & B.s",
    b"A.none <- B.s & F",
];

const WITH_A_LINKED_ROLE: &[&[u8]] = &[b"A.r <- A.s.t & D", b"A.s <- B", b"B.t <- D", b"B.t <- E"];

static LINES: [Line; 25] = [
    // Nobody is a member without credentials.
    (&[], Members(b"A.r", &[])),
    (&[b"A.s <- D", b"B.r <- E"], Members(b"A.r", &[])),
    // Entities are listed in order, and once.
    (&[b"A.r <- D", b"A.r <- A"], Members(b"A.r", &[b"A", b"D"])),
    (
        &[
            b"A.r <- D",
            b"A.r <- A",
            b"A.r <- D",
            b"A.r <- Da",
            b"A.r <- B",
        ],
        Members(b"A.r", &[b"A", b"B", b"D", b"Da"]),
    ),
    // Inclusions are followed along a chain.
    (CHAIN, Members(b"A.r", &[b"E", b"F"])),
    (CHAIN, Members(b"C.t", &[b"E"])),
    // Inclusions in a circle give nobody.
    (&[b"A.r <- B.s", b"B.s <- A.r"], Members(b"A.r", &[])),
    (&[b"A.r <- A.r"], Members(b"A.r", &[])),
    (
        &[b"A.r <- B.s", b"B.s <- A.r", b"B.s <- D"],
        Members(b"A.r", &[b"D"]),
    ),
    // A linked role asks the members of its base: over a base of another name; over its own head; and passed on.
    (
        &[
            b"A.r <- A.s.t",
            b"A.s <- B",
            b"B.t <- D",
            b"C.t <- E",
            b"A.t <- F",
        ],
        Members(b"A.r", &[b"D"]),
    ),
    (
        &[b"A.r <- A", b"A.r <- D", b"A.r <- A.r.r"],
        Members(b"A.r", &[b"A", b"D"]),
    ),
    (
        &[b"A.r <- A", b"A.r <- A.r.s", b"A.s <- E"],
        Members(b"A.r", &[b"A", b"E"]),
    ),
    // An intersection wants every part.
    (ROLES, Members(b"A.two", &[b"E"])),
    (ROLES, Members(b"A.same", &[b"D", b"E"])),
    (WITH_AN_ENTITY, Members(b"A.one", &[b"D"])),
    (WITH_AN_ENTITY, Members(b"A.none", &[])),
    (WITH_A_LINKED_ROLE, Members(b"A.r", &[b"D"])),
    // Work is one, and each ask and each member told: with no credentials; with one, once and twice; in a circle; with a role
    // in itself; with a repeated part; with a linked role, and with one over its own head.
    (&[], Work(1)),
    (&[b"A.r <- D"], Work(3)),
    (&[b"A.r <- D", b"A.r <- D"], Work(3)),
    (&[b"A.r <- B.s", b"B.s <- A.r"], Work(3)),
    (&[b"A.r <- A.r", b"A.r <- D"], Work(5)),
    (&[b"A.r <- B.s & B.s", b"B.s <- D"], Work(9)),
    (&[b"A.s <- B", b"A.r <- A.s.t", b"B.t <- D"], Work(11)),
    (&[b"A.r <- A", b"A.r <- D", b"A.r <- A.r.r"], Work(15)),
];

#[test]
fn members_and_works_over_credentials(rt: HostRuntime) -> Result<(), CredFault> {
    for (texts, told) in &LINES {
        assert!(rt; is_so(rt.alloc(), texts, told)?);
    }
    Ok(())
}
