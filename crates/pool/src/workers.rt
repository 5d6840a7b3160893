//! Workers: threads that take letters, look up outside the lock, and hand in.
ghost use Rattle.std.specs.Prelude.{ℕ, List, ◌≡◌, ◌≤◌, ◌+◌, [], All, IfOk, IfErr, MatchOption, vec_len, vec_capacity};
ghost use Rattle.std.specs.Option.{option_map_or};
ghost use Rattle.search.specs.declared.queries.Need.{Need};
ghost use Rattle.pool.specs.Histories.{HasStop};
ghost use Rattle.pool.specs.Refusals.{IsWorkRefusal};
ghost use Rattle.hall.specs.Batches.{IsEmpty, IsLookedUp};
ghost use Rattle.pool.specs.Workers.{IsLeftBy};

use crate::desks::Desk;
use crate::faults::{DeskFault, DeskResult};
use crate::keepers::{Beginning, Naming};
use crate::rights::Authority;
use crate::tallies::Tally;
use crate::visits::BATCH;
use hall::{Batch, Ends, Fault};
use names::Entity;
use std::alloc::AllocError;
use std::marker::Model;
use std::sync::{MutexGuard, Wait};
use std::thread::{self, JoinHandle, Threads};

/// Where a worker passes with each letter, after it took it and before it looks up what the letter needs, without the lock.
pub trait Gate: Sync {
    /// Whether a pass may wait, so that others have to go on meanwhile. Where none does, one worker at a time finishes a letter in
    /// each visit: its visits are under the lock for most of the time, which costs more the more threads want it.
    const MAY_WAIT: bool;

    /// That the gate let the letter of this number pass, of the tenant's search of that number.
    ghost LetThrough: { List ℕ → ℕ → ℕ → Type 0 };

    /// Passes with the letter of this number, of the tenant's search of that number.
    fn pass(&self, who: &Entity, search: u64, letter: u64)
        ensures { LetThrough who.now search letter };
}

/// A gate that lets every letter pass at once.
#[derive(Clone, Copy, Drop)]
pub struct NoGate;

impl Gate for NoGate {
    const MAY_WAIT: bool = false;

    ghost LetThrough = { λ who search letter. Unit {0} };

    fn pass(&self, _who: &Entity, _search: u64, _letter: u64) {}
}

/// Passes the gate with each letter, and looks up what it needs.
fn look_up_all<G: Gate>(gate: &G, batch: &mut Batch)
    requires { batch.old.looked ≡ 0 }
    ensures looked_up { IsLookedUp batch.new }
    ensures let_through { MatchOption batch.new.of (Unit {0})
        (λ of. All (λ (letter : ℕ × Need). G.LetThrough of.who of.number letter.0) batch.new.letters) }
    ensures same { batch.new ≡ record batch.old { looked = batch.new.looked } }
{
    let Some((who, number)) = batch.search() else {
        return;
    };
    while let Some(letter) = batch.next() {
        gate.pass(&who, number, letter);
        batch.look_up();
    }
}

/// What workers finished that have seen a stop of their desk, and ended. Contracts see the tally.
#[derive(Drop)]
pub(crate) struct Worked<L: Naming> {
    tally: Tally<L>,
    seen: Beginning<L>,
}

impl<L: Naming> Model for Worked<L> {
    ghost use Rattle.pool.specs.Histories.{HasStop};
    ghost use Rattle.pool.specs.Workers.{TallyState};

    ghost Value = { TallyState };

    ghost view = { λ w. w.tally };

    ghost invariant = { λ w. HasStop w.seen.seen };
}

/// The same of one worker.
#[derive(Drop)]
struct One<L: Naming> {
    worked: Worked<L>,
    ghost one: { worked.workers ≡ 1 },
}

/// How many visits in a row a worker begins at one search, whose letters its processor has at hand then. Who finishes as many
/// letters in a row goes on alone, where no gate may wait.
const IN_A_ROW: u64 = 8;

/// Works until the desk is stopped, or memory is refused; then another goes on. The searches take turns, for each from another.
fn work<L: Naming, G: Gate, R: Wait>(
    rt: &R,
    desk: &Desk<L>,
    gate: &G,
    turn: u64,
    tally: Tally<L>,
) -> Result<One<L>, AllocError>
    requires { tally.workers ≡ 1 }
{
    let batch = Batch::make(desk.alloc, BATCH)?;
    work_with(batch, rt, desk, gate, turn, tally)
}

/// What `work` does, once there is room for the letters.
fn work_with<L: Naming, G: Gate, R: Wait>(
    mut batch: Batch,
    rt: &R,
    desk: &Desk<L>,
    gate: &G,
    turn: u64,
    mut tally: Tally<L>,
) -> Result<One<L>, AllocError>
    requires empty { IsEmpty batch }
    requires room { BATCH ≤ batch.room }
    requires one { tally.workers ≡ 1 }
{
    let mut ends = Ends::none();
    let end = go_on(rt, desk, gate, turn, &mut batch, &mut ends, &mut tally);
    desk.work.notify_one();
    batch.destroy_empty();
    ends.destroy_empty();
    let seen = end?;
    Ok(One {
        worked: Worked { tally, seen },
    })
}

/// Goes on until the desk is stopped, which it has seen then, or memory is refused. No letter is left.
fn go_on<L: Naming, G: Gate, R: Wait>(
    rt: &R,
    desk: &Desk<L>,
    gate: &G,
    mut turn: u64,
    batch: &mut Batch,
    ends: &mut Ends,
    tally: &mut Tally<L>,
) -> Result<Beginning<L>, AllocError>
    requires fresh { batch.old.looked ≡ 0 }
    requires room { BATCH ≤ batch.old.room }
    requires told { ends.old ≡ [] }
    requires one { tally.old.workers ≡ 1 }
    ensures stop { IfOk result (λ front. HasStop front.seen) }
    ensures empty { IsEmpty batch.new }
    ensures told { ends.new ≡ [] }
    ensures one { tally.new.workers ≡ 1 }
{
    let mut line = None;
    let mut before = 0u64;
    'work: for _ in rt.forever() {
        if let Some(seen) = visit_in_a_row(rt, desk, gate, turn, batch, ends, &mut line, tally)? {
            return Ok(seen);
        }
        turn = turn.wrapping_add(1);
        let of_row = tally.letters().saturating_sub(before);
        before = tally.letters();
        if of_row < IN_A_ROW {
            line = None;
        } else if line.is_none() && !G::MAY_WAIT {
            look_up_all(gate, batch);
            line = Some(desk.stand_in_line(rt, batch, ends, tally));
        }
    }
    unreachable!()
}

/// Makes visits in a row, unless the worker is to end.
fn visit_in_a_row<L: Naming, G: Gate, R: Wait>(
    rt: &R,
    desk: &Desk<L>,
    gate: &G,
    turn: u64,
    batch: &mut Batch,
    ends: &mut Ends,
    line: &mut Option<MutexGuard<'_, ()>>,
    tally: &mut Tally<L>,
) -> Result<Option<Beginning<L>>, AllocError>
    requires fresh { batch.old.looked ≡ 0 }
    requires room { BATCH ≤ batch.old.room }
    requires told { ends.old ≡ [] }
    requires one { tally.old.workers ≡ 1 }
    ensures left { IsLeftBy result batch.new }
    ensures room { BATCH ≤ batch.new.room }
    ensures told { ends.new ≡ [] }
    ensures one { tally.new.workers ≡ 1 }
{
    for visit in 0..IN_A_ROW {
        look_up_all(gate, batch);
        if line.is_some() {
            desk.let_in(rt);
        }
        let end = desk.visit(rt, turn, visit > 0, batch, ends, line, tally);
        let Ok(None) = end else {
            return end;
        };
    }
    Ok(None)
}

/// What workers finished, with one more.
fn with_one<L: Naming>(all: Option<Worked<L>>, one: One<L>) -> Worked<L>
    ensures { result.workers ≡ option_map_or (λ tally. tally.workers) all 0 + 1 }
{
    let One { worked } = one;
    match all {
        Some(Worked { mut tally, seen }) => {
            tally.take_in(worked.tally);
            Worked { tally, seen }
        }
        None => worked,
    }
}

/// Waits for all workers, and adds up what they finished. Refused where one of them lacked memory.
fn join_all<L: Naming, R: Threads>(
    rt: &R,
    handles: Vec<JoinHandle<Result<One<L>, AllocError>>>,
) -> Result<Option<Worked<L>>, AllocError>
    ensures { IfOk result (λ all. option_map_or (λ tally. tally.workers) all 0 ≡ vec_len handles) }
{
    let mut all = None;
    let mut each = Ok(());
    for handle in handles {
        match handle.join(rt) {
            Ok(one) => all = Some(with_one(all, one)),
            Err(lacked) => each = Err(lacked),
        }
    }
    each?;
    Ok(all)
}

/// Runs `n` workers until the desk is stopped, and answers how many letters they finished. The gate is passed once with each. A
/// worker to which memory is refused hands in what it holds and ends; the answer is then 90, once all have ended, and a `wait`
/// returns when the caller stops the desk. 93 where a worker couldn't be started: the desk is stopped, by the authority over it, and
/// the others end first.
pub fn run_workers<L: Naming + Send + Sync, G: Gate, R: Threads + Wait + Sync>(
    rt: &R,
    desk: &Desk<L>,
    authority: &Authority<L>,
    n: u64,
    gate: &G,
) -> DeskResult<u64>
    requires { (1 ≤ n) × (n ≤ 64) }
    ensures { IfErr result IsWorkRefusal }
{
    Ok(run_all(rt, desk, authority, n, gate)?.tally.letters())
}

/// The same, with the tally of all workers.
fn run_all<L: Naming + Send + Sync, G: Gate, R: Threads + Wait + Sync>(
    rt: &R,
    desk: &Desk<L>,
    authority: &Authority<L>,
    n: u64,
    gate: &G,
) -> DeskResult<Worked<L>>
    requires { (1 ≤ n) × (n ≤ 64) }
    ensures done { IfOk result (λ all. all.workers ≡ n) }
    ensures refused { IfErr result IsWorkRefusal }
{
    let Ok(mut handles) = Vec::with_capacity(desk.alloc, n as usize) else {
        return Err(DeskFault::Hall(Fault::Memory));
    };
    let Some(tally) = desk.hire(rt, n) else {
        return Err(DeskFault::Hall(Fault::Memory));
    };
    thread::scope(
        thread::scope_env(),
        rt,
        |scope| -> DeskResult<Worked<L>>
            requires handles { (vec_len handles ≡ 0) × (n ≤ vec_capacity handles) }
            requires tally { (1 ≤ n) × (tally ≡ record { workers = n; letters = 0 }) }
            ensures done { IfOk result (λ all. all.workers ≡ n) }
            ensures refused { IfErr result IsWorkRefusal }
        {
            let mut tally = tally;
            for worker in 0..n {
                let mine = tally.one();
                let Ok(handle) = scope.spawn(
                    move || -> Result<One<L>, AllocError>
                        requires { mine.workers ≡ 1 }
                    { work(rt, desk, gate, worker, mine) },
                ) else {
                    desk.stop(rt, authority);
                    let _worked = join_all(rt, handles);
                    return Err(DeskFault::NoThread);
                };
                handles.push_reserved(handle);
            }
            match join_all(rt, handles) {
                Ok(Some(all)) => Ok(all),
                Ok(None) => unreachable!(),
                Err(AllocError) => Err(DeskFault::Hall(Fault::Memory)),
            }
        },
    )
}
