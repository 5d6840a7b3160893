//! Halls of four tenants, with credentials and grants that rows of numbers pick: what each tenant sees and is answered,
//! compared with the plain program over the vaults that it may read.
ghost use Rattle.std.specs.Prelude.{◌<◌};

use super::acts::Told;
use super::deeds::drives_to;
use super::{four, four_tenants};
use credential_text::{CredFault, Credential, read_credential};
use hall::{Answer, Fault, Hall, Query};
use names::{Entity, NameFault, Role};
use proof_trees::check_proof;
use quotas::Limits;
use rt0_rules::members_plain;
use std::alloc::{AllocError, Global};
use vaults::{Change, Seen};

/// The next number of the row, below so many.
fn below(state: &mut u64, bound: u64) -> u64
    requires { 0 < bound }
    ensures { result < bound }
{
    let low = *state % 2147483648;
    *state = low * 1103515245 + 12345;
    *state / 65536 % bound
}

/// Credentials of every form, for circles and for roles that stand on each other's in many ways.
static CREDENTIALS: [&[u8]; 53] = [
    b"A.r <- B",
    b"A.r <- D",
    b"A.r <- A",
    b"A.r <- B.r",
    b"A.r <- B.s",
    b"A.r <- C.r",
    b"A.r <- D.r",
    b"A.r <- A.r",
    b"A.r <- A.s",
    b"A.r <- A.s.r",
    b"A.r <- A.r.r",
    b"A.r <- A.r.s",
    b"A.r <- B.r & C.r",
    b"A.r <- A.s.r & B.r",
    b"A.r <- B.r & B.r",
    b"A.r <- C & B.s & A.s.r",
    b"A.s <- B",
    b"A.s <- C",
    b"A.s <- D.s",
    b"A.s <- A.r.s",
    b"A.s <- C.r & A.r",
    b"B.r <- A",
    b"B.r <- C",
    b"B.r <- D",
    b"B.r <- B",
    b"B.r <- A.r",
    b"B.r <- B.s",
    b"B.r <- C.s",
    b"B.r <- B.s.r",
    b"B.r <- B.r.s",
    b"B.r <- A.r & C.r",
    b"B.r <- D & C.r",
    b"B.s <- A",
    b"B.s <- C",
    b"B.s <- A.s",
    b"B.s <- B.r.r",
    b"B.s <- D.r & A",
    b"C.r <- A",
    b"C.r <- D",
    b"C.r <- A.r",
    b"C.r <- C.s.r",
    b"C.r <- B.r & A.s",
    b"C.s <- A",
    b"C.s <- B",
    b"C.s <- C.r.s",
    b"D.r <- B",
    b"D.r <- C",
    b"D.r <- B.r",
    b"D.r <- D.r.r",
    b"D.r <- A.r & B.s",
    b"D.s <- A",
    b"D.s <- B.s",
    b"D.s <- D.r.s",
];

/// One in five of the credentials.
fn some_credentials(alloc: Global, numbers: &mut u64) -> Result<Vec<Credential>, CredFault> {
    let mut some = Vec::new(alloc);
    for text in &CREDENTIALS {
        if below(numbers, 5) == 0 {
            some.push(read_credential(alloc, text)?)
                .map_err(AllocError::from)?;
        }
    }
    Ok(some)
}

static ASKED: [&[u8]; 6] = [b"A.r", b"A.s", b"B.r", b"B.s", b"C.r", b"D.r"];

fn asked_role(numbers: &mut u64) -> Result<Role, NameFault> {
    Role::read(ASKED[below(numbers, 6) as usize])
}

/// A grant that a tenant may make, to one reader or to every tenant where none is named, and whether it stands.
#[derive(Drop)]
struct Grant {
    owner: Entity,
    reader: Option<Entity>,
    stands: bool,
}

/// Each tenant's grants, none of which stands.
fn add_grants(tenants: &[Entity], grants: &mut Vec<Grant>) -> Result<(), Fault> {
    for owner in tenants {
        grants.push(Grant {
            owner: *owner,
            reader: None,
            stands: false,
        })?;
        for reader in tenants {
            if owner != reader {
                grants.push(Grant {
                    owner: *owner,
                    reader: Some(*reader),
                    stands: false,
                })?;
            }
        }
    }
    Ok(())
}

/// Whether the owner's grant stands.
fn stands(grants: &[Grant], owner: Entity, reader: Option<Entity>) -> bool {
    for grant in grants {
        if grant.stands && grant.owner == owner && grant.reader == reader {
            return true;
        }
    }
    false
}

/// Whether the owner's vault may be read by the reader.
fn allow(grants: &[Grant], owner: Entity, reader: Entity) -> bool {
    owner == reader || stands(grants, owner, None) || stands(grants, owner, Some(reader))
}

/// The change that makes the grant, or where it stands revokes it.
fn change_of(grant: &Grant) -> Change {
    match (grant.reader, grant.stands) {
        (Some(reader), false) => Change::Grant(reader),
        (Some(reader), true) => Change::Revoke(reader),
        (None, false) => Change::GrantAll,
        (None, true) => Change::RevokeAll,
    }
}

/// Grants and revocations between any two of the tenants, and some for all.
fn turn_some(hall: &mut Hall, grants: &mut [Grant], numbers: &mut u64) -> Result<(), Fault> {
    for grant in grants {
        let turns = match grant.reader {
            None => below(numbers, 5) == 0,
            Some(_) => below(numbers, 3) > 0,
        };
        if turns {
            hall.change(grant.owner, change_of(grant))?;
            grant.stands = !grant.stands;
        }
    }
    Ok(())
}

/// Adds what the tenant sees by these grants.
fn add_seen(
    credentials: &[Credential],
    grants: &[Grant],
    reader: Entity,
    seen: &mut Vec<Credential>,
) -> Result<(), Fault> {
    for credential in credentials {
        if allow(grants, credential.head.owner, reader) {
            seen.push(credential.try_clone()?)?;
        }
    }
    Ok(())
}

/// Adds the names of those whose vaults the tenant reads by these grants, each with its mark.
fn add_sights(
    tenants: &[Entity],
    grants: &[Grant],
    reader: Entity,
    sights: &mut Vec<Seen>,
) -> Result<(), Fault> {
    for owner in tenants {
        if allow(grants, *owner, reader) {
            sights.push(Seen {
                name: *owner,
                to_all: stands(grants, *owner, None),
            })?;
        }
    }
    Ok(())
}

/// Whether the tenant is told by these grants whose vaults it sees, each with its mark.
fn tells_sights(
    alloc: Global,
    hall: &Hall,
    tenants: &[Entity],
    grants: &[Grant],
    reader: Entity,
) -> Result<bool, Fault> {
    let mut sights = Vec::new(alloc);
    add_sights(tenants, grants, reader, &mut sights)?;
    Ok(hall.sees(reader)?.as_slice() == sights.as_slice())
}

/// A question about a role: what the asker sees, and the members by that.
#[derive(Clone, Copy)]
struct Question<'a> {
    asker: Entity,
    role: Role,
    seen: &'a [Credential],
    members: &'a [Entity],
}

/// Whether the search of the number tells the members.
fn tells_members(hall: &mut Hall, question: &Question<'_>, number: u64) -> Result<bool, Fault> {
    match hall.drive(question.asker, number)? {
        Answer::Members(names) => Ok(names.as_slice() == question.members),
        Answer::Broken => Err(Fault::Memory),
        _ => Ok(false),
    }
}

/// Whether the search of the number gives a proof that the entity is a member, or none as it isn't.
fn proves(
    hall: &Hall,
    question: &Question<'_>,
    number: u64,
    who: Entity,
    is_member: bool,
) -> Result<bool, Fault> {
    match hall.proof(question.asker, number, who) {
        Ok(proof) => Ok(is_member && check_proof(question.seen, &question.role, &who, &proof)),
        Err(Fault::NoProof) => Ok(!is_member),
        Err(fault) => Err(fault),
    }
}

/// Opens a search for the members, whose number it answers, and one for each tenant.
fn open(hall: &mut Hall, tenants: &[Entity], question: &Question<'_>) -> Result<u64, Fault> {
    let first = hall.open(question.asker, Query::Who(question.role))?;
    for who in tenants {
        let _number = hall.open(question.asker, Query::Ask(question.role, *who))?;
    }
    Ok(first)
}

/// Whether all that the question opened is answered as it is to be. The searches are ended then.
fn is_answered(
    hall: &mut Hall,
    tenants: &[Entity],
    question: &Question<'_>,
    first: u64,
) -> Result<bool, Fault> {
    let mut is_right = tells_members(hall, question, first)?;
    let mut number = first;
    for who in tenants {
        let is_member = question.members.contains(who);
        let end = if is_member { &Told::Yes } else { &Told::No };
        number = number.saturating_add(1);
        is_right &= drives_to(hall, question.asker, number, end)?;
        is_right &= proves(hall, question, first, *who, is_member)?;
        hall.end(question.asker, number)?;
    }
    hall.end(question.asker, first)?;
    Ok(is_right)
}

/// Whether the question is answered rightly, with grants that the numbers make after it is asked.
fn answers(
    hall: &mut Hall,
    tenants: &[Entity],
    grants: &mut [Grant],
    numbers: &mut u64,
    question: &Question<'_>,
) -> Result<bool, Fault> {
    let first = open(hall, tenants, question)?;
    turn_some(hall, grants, numbers)?;
    is_answered(hall, tenants, question, first)
}

/// The four tenants, the credentials that are in their issuers' vaults, and the role that is asked about.
#[derive(Clone, Copy)]
struct World<'a> {
    tenants: &'a [Entity],
    credentials: &'a [Credential],
    role: Role,
}

/// Whether the asker is answered rightly by what it sees, with grants that the numbers make after it asks.
fn answers_one(
    alloc: Global,
    hall: &mut Hall,
    world: &World<'_>,
    grants: &mut [Grant],
    numbers: &mut u64,
    asker: Entity,
) -> Result<bool, Fault> {
    let mut seen = Vec::new(alloc);
    add_seen(world.credentials, grants, asker, &mut seen)?;
    let members = members_plain(alloc, &seen, &world.role)?;
    let question = Question {
        asker,
        role: world.role,
        seen: &seen,
        members: &members,
    };
    answers(hall, world.tenants, grants, numbers, &question)
}

/// Whether each tenant is answered rightly, with grants that the numbers make before it asks and after.
fn answers_each(
    alloc: Global,
    hall: &mut Hall,
    world: &World<'_>,
    grants: &mut [Grant],
    numbers: &mut u64,
) -> Result<bool, Fault> {
    let mut is_right = true;
    for asker in world.tenants {
        turn_some(hall, grants, numbers)?;
        is_right &= tells_sights(alloc, hall, world.tenants, grants, *asker)?;
        is_right &= answers_one(alloc, hall, world, grants, numbers, *asker)?;
    }
    Ok(is_right)
}

/// The credentials are put into their issuers' vaults.
fn upload(hall: &mut Hall, credentials: &[Credential]) -> Result<(), Fault> {
    for credential in credentials {
        let upload = Change::Upload(credential.try_clone()?);
        hall.change(credential.head.owner, upload)?;
    }
    Ok(())
}

/// Whether a hall of the world answers rightly, with grants that the numbers make.
fn is_right(alloc: Global, world: &World<'_>, numbers: &mut u64) -> Result<bool, Fault> {
    let mut hall = four_tenants(alloc, Limits::usual())?;
    upload(&mut hall, world.credentials)?;
    let mut grants = Vec::new(alloc);
    add_grants(world.tenants, &mut grants)?;
    answers_each(alloc, &mut hall, world, &mut grants, numbers)
}

/// Whether a hall of a world that these numbers pick answers rightly, with grants that the turns make.
fn makes_right(alloc: Global, numbers: &mut u64, turns: &mut u64) -> Result<bool, Fault> {
    let tenants = four()?;
    let credentials = some_credentials(alloc, numbers).or(Err(Fault::Memory))?;
    match asked_role(numbers) {
        Ok(role) => is_right(
            alloc,
            &World {
                tenants: &tenants,
                credentials: &credentials,
                role,
            },
            turns,
        ),
        Err(_) => Ok(false),
    }
}

#[test]
fn as_the_plain_program(rt: HostRuntime) -> Result<(), Fault> {
    let (mut numbers, mut turns) = (1, 2);
    for _ in 0..240 {
        assert!(rt; makes_right(rt.alloc(), &mut numbers, &mut turns)?);
    }
    Ok(())
}
