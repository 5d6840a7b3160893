//! Searches over small vaults that a row of numbers makes, compared with the plain programs.
use super::numbers::{credentials, role};
use super::{Order, WAYS, come_to, has_members, opened_over, snapshot_over};
use credential_text::{CredFault, Credential};
use names::{Entity, Role};
use rt0_rules::{members_plain, work_plain};
use search::{Query, Status};
use snapshots::Snapshot;
use std::alloc::{AllocError, Global};
use std::sync::Arc;
use std::test::Fail;

// Whether a search with this work limit comes to this, carried on this way, and has these members, where it finds them.
fn comes_to(
    alloc: Global,
    snapshot: &Arc<Snapshot>,
    query: Query,
    work: u64,
    way: Option<(Order, bool)>,
    status: Status,
    members: &[Entity],
) -> Result<bool, AllocError> {
    let mut search = opened_over(alloc, snapshot, query, work)?;
    Ok(come_to(&mut search, way)? == status && has_members(&search, members)?)
}

// Whether the search comes to this whichever way it is carried on.
fn comes_to_each_way(
    alloc: Global,
    snapshot: &Arc<Snapshot>,
    query: Query,
    work: u64,
    status: Status,
    members: &[Entity],
) -> Result<bool, AllocError> {
    for way in &WAYS {
        if !comes_to(alloc, snapshot, query, work, *way, status, members)? {
            return Ok(false);
        }
    }
    Ok(true)
}

// Whether the search finds these members by this work, whichever way it is carried on, and by less is spent.
fn finds(
    alloc: Global,
    snapshot: &Arc<Snapshot>,
    query: Query,
    work: u64,
    members: &[Entity],
) -> Result<bool, AllocError> {
    if work > 1 && !comes_to_each_way(alloc, snapshot, query, work - 1, Status::Spent, members)? {
        return Ok(false);
    }
    comes_to_each_way(alloc, snapshot, query, work, Status::Members, members)
}

static ASKED: [&[u8]; 4] = [b"A", b"B", b"C", b"D"];

// What a search for the entity is to come to, where these are the members.
fn status_of(members: &[Entity], who: &Entity) -> Status {
    if members.contains(who) {
        Status::Yes
    } else {
        Status::No
    }
}

// Whether the search, driven, answers for this one whether it is a member.
fn answers_for(
    alloc: Global,
    snapshot: &Arc<Snapshot>,
    role: Role,
    who: Entity,
    work: u64,
    members: &[Entity],
) -> Result<bool, AllocError> {
    let status = status_of(members, &who);
    comes_to(
        alloc,
        snapshot,
        Query::Ask(role, who),
        work,
        None,
        status,
        members,
    )
}

// Whether it does for each of the four.
fn answers(
    alloc: Global,
    snapshot: &Arc<Snapshot>,
    role: Role,
    work: u64,
    members: &[Entity],
) -> Result<bool, CredFault> {
    for name in &ASKED {
        let who = Entity::read(name)?;
        if !answers_for(alloc, snapshot, role, who, work, members)? {
            return Ok(false);
        }
    }
    Ok(true)
}

// Whether the searches find these members by this work, and that nobody else is one.
fn find_all(
    alloc: Global,
    snapshot: &Arc<Snapshot>,
    role: Role,
    work: u64,
    members: &[Entity],
) -> Result<bool, CredFault> {
    Ok(
        finds(alloc, snapshot, Query::Who(role), work, members)?
            && answers(alloc, snapshot, role, work, members)?,
    )
}

// Whether the searches for these find what the plain programs find.
fn agree(alloc: Global, credentials: &[Credential], role: Role) -> Result<bool, Fail> {
    let work = work_plain(alloc, credentials, &role, 1000000)?.ok_or("too much work")?;
    let members = members_plain(alloc, credentials, &role)?;
    let snapshot = snapshot_over(alloc, credentials)?;
    Ok(find_all(alloc, &snapshot, role, work, &members)?)
}

// Whether they do for the next of these.
fn next_agrees(alloc: Global, state: &mut u64) -> Result<bool, Fail> {
    let all = credentials(alloc, state)?;
    let role = role(state)?;
    agree(alloc, &all, role)
}

#[test]
fn as_the_plain_programs(rt: HostRuntime) -> Result<(), Fail> {
    let mut state = 1;
    for _ in 0..240 {
        assert!(rt; next_agrees(rt.alloc(), &mut state)?);
    }
    Ok(())
}
