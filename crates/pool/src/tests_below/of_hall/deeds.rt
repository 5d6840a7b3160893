//! What is done with a hall and found of it, as a table writes it: events, and calls that no event stands for.
use super::acts::{Row, Told, came_to, run, went};
use super::{entity, four_tenants};
use hall::{Answer, Batch, Ends, Fault, Hall, Next, Order, Step, Stepped, told_of};
use names::Entity;
use quotas::Limits;
use search::{Hint, Search};
use snapshots::Span;
use std::alloc::Global;

/// What is done, or found. Where no search is named, it is A's first one.
pub(super) enum Deed {
    /// The tenant's search of the number is carried on to its end, which is to be this.
    Drive(&'static str, u64, Told),
    /// The turn picks the letter of this search that waits first.
    Pick(u64, &'static str, u64),
    /// The turn picks nothing.
    Rest(u64),
    /// The letter that waits first is taken and given back. Then it is taken and finished.
    Jobs,
    /// The search can't be seen any more.
    Unseen,
    /// The first letter is finished with no hint of numbers below 3 but the right one, nor without any.
    OneHint,
    /// A visit of one step takes the letter of this number, which is then given back.
    Visit(u64),
    /// The tenant's first search isn't shared.
    Unshared(&'static str),
    /// The search is shared. No step moves anything of it then, and no letter is taken; it stays shared for who has it
    /// when it is ended.
    Shared,
    /// So many changes were accepted in all.
    Journal(u64),
}

/// A part of a play: acts, with what each is to be answered, or deeds.
pub(super) enum Part<'a> {
    Acts(&'a [Row]),
    Deeds(&'a [Deed]),
}

/// Whether the job goes back, and whether another of the same letter, A's first, is finished by what is looked up for it.
fn moves_jobs(hall: &mut Hall, a: Entity) -> Result<bool, Fault> {
    let Some(job) = hall.take(a, 1, 0)? else {
        return Ok(false);
    };
    let is_back = matches!(hall.give_back(job), Stepped::Back);
    let Some(job) = hall.take(a, 1, 0)? else {
        return Ok(false);
    };
    let hint = job.look_up();
    let is_first = matches!(hall.step(Step::GiveBack(a, 1, 1)), Stepped::Back)
        && matches!(hall.step(Step::Take(a, 1, 0)), Stepped::Took(1, _));
    let is_done = went(&hall.finish(job, hint), &Told::Done)?;
    Ok(is_done && is_back && is_first)
}

/// Whether no step of A's search moves anything, and no letter of it is taken.
fn stays(hall: &mut Hall, a: Entity) -> Result<bool, Fault> {
    let still = matches!(hall.step(Step::Take(a, 1, 0)), Stepped::Nothing)
        && matches!(hall.step(Step::Signal(a, 1, 0)), Stepped::Nothing)
        && matches!(hall.step(Step::GiveBack(a, 1, 1)), Stepped::NotHeld)
        && matches!(
            hall.step(Step::Finish(a, 1, 1, Hint::Nothing)),
            Stepped::NotHeld
        );
    let Some(job) = hall.take(a, 1, 0)? else {
        return Ok(still);
    };
    let _back = hall.give_back(job);
    Ok(false)
}

/// Whether A's first letter can't be finished with the hint, and is there to be taken again.
fn is_wrong(hall: &mut Hall, a: Entity, hint: Hint) -> bool {
    matches!(hall.step(Step::Finish(a, 1, 1, hint)), Stepped::BadHint)
        && matches!(hall.step(Step::Take(a, 1, 0)), Stepped::Took(1, _))
}

/// Whether so is each hint of numbers below 3 but the right one, and none.
fn others_are_wrong(hall: &mut Hall, a: Entity) -> bool {
    let mut are = is_wrong(hall, a, Hint::Nothing);
    for number in 0..27u64 {
        let (vault, lo, hi) = (number / 9, number / 3 % 3, number % 3);
        let is_right = vault == 0 && lo == 0 && hi == 1;
        are &= is_right || is_wrong(hall, a, Hint::Rows(Span { vault, lo, hi }));
    }
    are
}

/// Gives back what the batch holds, if it is looked up, and tells whether no step was made then, and no letter finished.
fn gives_back(hall: &mut Hall, batch: &mut Batch) -> bool {
    if batch.next().is_some() {
        return false;
    }
    let mut ends = Ends::none();
    let given = hall.work(0, Order::GiveBack, 0, batch, &mut ends);
    let none_ends = ends.is_empty();
    tell(ends);
    matches!(given.next, Next::Unasked) && given.finished == 0 && none_ends
}

/// Tells nobody of these searches.
fn tell(mut ends: Ends) {
    while let Some((_who, _number)) = ends.take() {}
    ends.destroy_empty();
}

/// Whether a visit of one step takes the letter of this number of A's first search, which another one gives back.
fn visits(alloc: Global, hall: &mut Hall, letter: u64) -> Result<bool, Fault> {
    let mut batch = Batch::make(alloc, 1)?;
    let mut ends = Ends::none();
    let taken = hall.work(0, Order::TakeTurn, 1, &mut batch, &mut ends);
    let none_ends = ends.is_empty();
    tell(ends);
    let number = batch.next();
    if number.is_some() {
        batch.look_up();
    }
    let is_back = gives_back(hall, &mut batch);
    batch.let_go();
    batch.destroy_empty();
    match taken.next {
        Next::NoMemory => Err(Fault::Memory),
        Next::Worked { left } => Ok(is_back && !left && none_ends && number == Some(letter)),
        Next::Idle | Next::Unasked => Ok(false),
    }
}

/// Whether the turn picks the letter of this search that waits first.
fn picks(hall: &Hall, turn: u64, who: Entity, number: u64) -> bool {
    let Some(step) = hall.pick(turn) else {
        return false;
    };
    let (whose, of) = step.search();
    matches!(step, Step::Take(_, _, 0)) && whose == who && of == number
}

/// Whether the search comes to this end.
pub(super) fn drives_to(
    hall: &mut Hall,
    who: Entity,
    number: u64,
    end: &Told,
) -> Result<bool, Fault> {
    let answer = hall.drive(who, number)?;
    came_to(&answer, end)
}

/// Whether the tenant's first search isn't shared.
fn is_unshared(hall: &mut Hall, who: &str) -> Result<bool, Fault> {
    Ok(hall.completed(entity(who)?, 1)?.is_none())
}

/// Whether what A shares stands still, and is told of after A ended it.
fn outlives(hall: &mut Hall, a: Entity, shared: &Search) -> Result<bool, Fault> {
    let stands = stays(hall, a)? && drives_to(hall, a, 1, &Told::Yes)? && hall.pick(7).is_none();
    hall.end(a, 1)?;
    let is_apart = is_unshared(hall, "A")?;
    Ok(matches!(told_of(shared)?, Answer::Yes) && stands && is_apart)
}

fn is_shared(hall: &mut Hall, a: Entity) -> Result<bool, Fault> {
    match hall.completed(a, 1)? {
        Some(shared) => outlives(hall, a, &shared),
        None => Ok(false),
    }
}

/// Whether the deed goes so.
fn goes(alloc: Global, hall: &mut Hall, a: Entity, deed: &Deed) -> Result<bool, Fault> {
    match deed {
        Deed::Drive(who, number, end) => drives_to(hall, entity(who)?, *number, end),
        Deed::Pick(turn, who, number) => Ok(picks(hall, *turn, entity(who)?, *number)),
        Deed::Rest(turn) => Ok(hall.pick(*turn).is_none()),
        Deed::Jobs => moves_jobs(hall, a),
        Deed::Unseen => Ok(hall.search(a, 1).is_none()),
        Deed::OneHint => Ok(others_are_wrong(hall, a)),
        Deed::Visit(letter) => visits(alloc, hall, *letter),
        Deed::Unshared(who) => is_unshared(hall, who),
        Deed::Shared => is_shared(hall, a),
        Deed::Journal(length) => Ok(hall.journal_len() == *length),
    }
}

/// Whether each deed goes so.
fn all_go(alloc: Global, hall: &mut Hall, deeds: &[Deed]) -> Result<bool, Fault> {
    let a = entity("A")?;
    for deed in deeds {
        if !goes(alloc, hall, a, deed)? {
            return Ok(false);
        }
    }
    Ok(true)
}

/// Whether each part goes so.
fn all_parts_go(alloc: Global, hall: &mut Hall, parts: &[Part<'_>]) -> Result<bool, Fault> {
    for part in parts {
        let goes = match part {
            Part::Acts(rows) => run(alloc, hall, rows)?,
            Part::Deeds(deeds) => all_go(alloc, hall, deeds)?,
        };
        if !goes {
            return Ok(false);
        }
    }
    Ok(true)
}

/// Whether each part goes so in a hall of the four tenants, where A has these limits.
fn plays(alloc: Global, limits: Limits, parts: &[Part<'_>]) -> Result<bool, Fault> {
    let mut hall = four_tenants(alloc, limits)?;
    all_parts_go(alloc, &mut hall, parts)
}

/// Whether so does each play, in a hall of its own.
pub(super) fn all_play(alloc: Global, limits: Limits, all: &[&[Part<'_>]]) -> Result<bool, Fault> {
    for parts in all {
        if !plays(alloc, limits, parts)? {
            return Ok(false);
        }
    }
    Ok(true)
}
