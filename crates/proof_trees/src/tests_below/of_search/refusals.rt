use super::{has_members, opened_over, snapshot_of};
use names::{Entity, Role};
use search::{Query, Search, Status};
use snapshots::Snapshot;
use std::alloc::Global;
use std::sync::Arc;
use std::test::Fail;

// Whether the search has come to this, or else is broken, with nothing left to do.
fn is_right_or_broken(search: &Search, status: Status) -> bool {
    search.is_quiet() && (search.status() == status || search.status() == Status::Broken)
}

// Whether each search has its answer; where memory is refused to one of the three, each other still has it.
fn have_answers(first: &Search, second: &Search, third: &Search) -> bool {
    let whole = first.status() != Status::Broken && second.status() != Status::Broken;
    is_right_or_broken(first, Status::Yes)
        && is_right_or_broken(second, Status::No)
        && is_right_or_broken(third, Status::Members)
        && (whole || third.status() == Status::Members)
}

// Drives the three, and whether they have their answers.
fn drive(first: &mut Search, second: &mut Search, third: &mut Search) -> Result<bool, Fail> {
    first.drive();
    second.drive();
    third.drive();
    let members = [Entity::read(b"A")?, Entity::read(b"D")?];
    Ok(have_answers(first, second, third) && has_members(third, &members)?)
}

// Opens and drives three searches over one snapshot.
fn share(alloc: Global, snapshot: &Arc<Snapshot>) -> Result<bool, Fail> {
    let role = Role::read(b"A.r")?;
    let (d, e) = (Entity::read(b"D")?, Entity::read(b"E")?);
    let mut first = opened_over(alloc, snapshot, Query::Ask(role, d), 18)?;
    let mut second = opened_over(alloc, snapshot, Query::Ask(role, e), 18)?;
    let mut third = opened_over(alloc, snapshot, Query::Who(role), 18)?;
    drive(&mut first, &mut second, &mut third)
}

static TEXTS: [&[u8]; 4] = [
    b"A.r <- A",
    b"A.r <- D",
    b"A.r <- A.r.r",
    b"A.r <- B.s & B.t",
];

#[test]
fn three_searches(rt: HostRuntime) -> Result<(), Fail> {
    let snapshot = snapshot_of(rt.alloc(), &TEXTS)?;
    assert!(rt; share(rt.alloc(), &snapshot)?);
    Ok(())
}
