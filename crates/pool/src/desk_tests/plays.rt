//! Scenes: lines that are played on a desk, before workers run and beside them.
ghost use Rattle.std.specs.Prelude.{◌≡◌, map, IfOk};
ghost use Rattle.std.specs.List.{IsDistinct};
ghost use Rattle.names.specs.Name.{is_same};

use super::acts::{Act, Told, answer_to};
use super::gates::{Doorway, Passage, Way};
use crate::tests_below::limits_of;
use crate::{Authority, Desk, DeskFault, Naming, Pass, Unnamed, run_workers};
use names::Entity;
use quotas::Limits;
use std::alloc::Global;
use std::marker::Brand;
use std::rt::Clock;
use std::sync::Wait;
use std::thread;
use std::thread::Threads;

/// A call by the pass at this place, and what it is to be told.
#[derive(Clone, Copy)]
pub(super) struct Line(pub(super) usize, pub(super) Act, pub(super) Told);

/// Lines by the passes of these tenants: some before the workers start, and some while they run. `A`, with these limits,
/// and `B` are tenants.
#[derive(Clone, Copy)]
pub(super) struct Scene<'a> {
    pub(super) limits: [u64; 6],
    pub(super) passes: &'a [&'a str],
    pub(super) before: &'a [Line],
    pub(super) beside: &'a [Line],
    pub(super) workers: u64,
    /// Of how many changes the passes that leave were told.
    pub(super) left: u64,
    /// How many letters the workers finish, where that is the same each time.
    pub(super) letters: Option<u64>,
}

/// The limits of a tenant of which nothing else is said.
pub(super) const USUAL: [u64; 6] = [1000, 100, 16, 10000, 10000, 1000000];

/// Why a scene doesn't come to its end.
#[derive(Clone, Copy, Debug)]
pub(super) enum Break {
    WrongAnswer,
    NoMemory,
}

/// Whether this is what is wanted. Where a search is at work though its end is wanted, its workers had no memory.
fn hold_against(told: &Told, wanted: &Told) -> Result<(), Break> {
    if *told == *wanted {
        Ok(())
    } else if *told == Told::NoMemory || *told == Told::Working {
        Err(Break::NoMemory)
    } else {
        Err(Break::WrongAnswer)
    }
}

/// Plays the lines, up to one that is told something else than it wants.
pub(super) fn tell_each<L: Naming, R: Wait>(
    rt: &R,
    alloc: Global,
    desk: &Desk<L>,
    authority: &Authority<L>,
    passes: &mut Vec<Pass<L>>,
    lines: &[Line],
) -> Result<(), Break> {
    for Line(place, act, wanted) in lines {
        let Some(pass) = passes.get_mut(*place) else {
            return Err(Break::WrongAnswer);
        };
        hold_against(&answer_to(rt, alloc, desk, authority, pass, *act), wanted)?;
    }
    Ok(())
}

/// How many changes the passes were told.
fn told_to<L: Naming>(passes: &[Pass<L>]) -> u64 {
    let mut told = 0u64;
    for pass in passes {
        told = told.saturating_add(pass.share());
    }
    told
}

/// The passes, which come back since another is out.
pub(super) fn come_back<L: Naming, R: Wait>(
    rt: &R,
    desk: &Desk<L>,
    passes: Vec<Pass<L>>,
) -> Result<Vec<Pass<L>>, Break> {
    let count = passes.len();
    match desk.gather(rt, passes) {
        Err((DeskFault::PassesOut, passes)) if passes.len() == count => Ok(passes),
        _ => Err(Break::WrongAnswer),
    }
}

/// Takes back all passes. They were told of so many changes, and those that left of so many others.
fn gather_all<L: Naming, R: Wait>(
    rt: &R,
    desk: &Desk<L>,
    passes: Vec<Pass<L>>,
    told: u64,
    left: u64,
) -> Result<(), Break> {
    match desk.gather(rt, passes) {
        Ok(gathered) if gathered.left == left && gathered.length == told.saturating_add(left) => {
            Ok(())
        }
        _ => Err(Break::WrongAnswer),
    }
}

/// Takes the passes back, which is refused until all are there, and were told of each change once.
fn take_back<L: Naming, R: Wait>(
    rt: &R,
    desk: &Desk<L>,
    mut passes: Vec<Pass<L>>,
    left: u64,
) -> Result<(), Break> {
    let told = told_to(&passes);
    let Some(last) = passes.pop() else {
        return Err(Break::WrongAnswer);
    };
    let mut passes = come_back(rt, desk, passes)?;
    if passes.push(last).is_err() {
        return Err(Break::NoMemory);
    }
    gather_all(rt, desk, passes, told, left)
}

/// A pass of the tenant of this name.
pub(super) fn admitted<L: Naming, R: Wait>(
    rt: &R,
    desk: &Desk<L>,
    authority: &Authority<L>,
    name: &str,
) -> Result<Pass<L>, Break> {
    match Entity::read(name.as_bytes()) {
        Ok(who) => match desk.pass(rt, authority.admission(), who) {
            Ok(pass) => Ok(pass),
            Err(_) => Err(Break::WrongAnswer),
        },
        Err(_) => Err(Break::WrongAnswer),
    }
}

/// Runs the workers until the desk is stopped. Where memory was refused to all of them it stops the desk, so that no wait
/// is left.
pub(super) fn work<L: Naming + Send + Sync, R: Threads + Wait + Clock + Sync>(
    rt: &R,
    desk: &Desk<L>,
    authority: &Authority<L>,
    workers: u64,
    way: Way<'_>,
) -> Result<u64, DeskFault> {
    let gate = Doorway {
        rt,
        desk,
        authority,
        way,
    };
    let worked = match way {
        Way::MeetFirst(_) | Way::CountAlone(_) | Way::TakeTurns(_) => {
            run_workers(rt, desk, authority, workers.clamp(1, 64), &Passage(gate))
        }
        _ => run_workers(rt, desk, authority, workers.clamp(1, 64), &gate),
    };
    desk.stop(rt, authority);
    worked
}

/// How many letters the workers finished, where all was right. A wrong answer counts before want of memory, and a thread
/// that couldn't be started is such a want.
pub(super) fn finished(
    worked: Result<u64, DeskFault>,
    right: Result<(), Break>,
) -> Result<u64, Break> {
    right?;
    match worked {
        Ok(letters) => Ok(letters),
        Err(_) => Err(Break::NoMemory),
    }
}

/// Fills the passes of the scene, plays the lines before the workers and those beside them, and answers how many letters
/// they finished.
fn acted<L: Naming + Send + Sync, R: Threads + Wait + Clock + Sync>(
    rt: &R,
    alloc: Global,
    desk: &Desk<L>,
    authority: &Authority<L>,
    passes: &mut Vec<Pass<L>>,
    scene: &Scene<'_>,
    way: Way<'_>,
) -> Result<u64, Break> {
    for name in scene.passes {
        let pass = admitted(rt, desk, authority, name)?;
        if passes.push(pass).is_err() {
            return Err(Break::NoMemory);
        }
    }
    tell_each(rt, alloc, desk, authority, passes, scene.before)?;
    thread::scope(thread::scope_env(), rt, |scope| -> Result<u64, Break> {
        let workers = scene.workers;
        let Ok(all) = scope.spawn(move || work(rt, desk, authority, workers, way)) else {
            return Err(Break::NoMemory);
        };
        let right = tell_each(rt, alloc, desk, authority, passes, scene.beside);
        desk.stop(rt, authority);
        finished(all.join(rt), right)
    })
}

/// Plays the scene on the desk, takes the passes back, and answers how many letters the workers finished.
fn staged<L: Naming + Send + Sync, R: Threads + Wait + Clock + Sync>(
    rt: &R,
    alloc: Global,
    desk: &Desk<L>,
    authority: &Authority<L>,
    scene: &Scene<'_>,
    way: Way<'_>,
) -> Result<u64, Break> {
    let mut passes = Vec::new(alloc);
    let letters = acted(rt, alloc, desk, authority, &mut passes, scene, way)?;
    take_back(rt, desk, passes, scene.left)?;
    Ok(letters)
}

/// Plays the scene on a desk of the roster.
fn on_desk<L: Naming + Send + Sync, R: Threads + Wait + Clock + Sync>(
    rt: &R,
    alloc: Global,
    roster: Vec<(Entity, Limits)>,
    unnamed: Unnamed,
    scene: &Scene<'_>,
    way: Way<'_>,
) -> Result<u64, Break>
    requires roster { roster.items ≡ L.roster }
    requires distinct { IsDistinct is_same (map (λ row. row.0) roster.items) }
    requires named { unnamed ≡ record { ledger = L.name; parts = L.parts; table = L.table; letters = L.letters; rights = L.rights } }
{
    match Desk::<L>::make(alloc, roster, unnamed) {
        Ok((desk, authority)) => staged(rt, alloc, &desk, &authority, scene, way),
        Err(_) => Err(Break::NoMemory),
    }
}

/// The roster of A, with these limits, and B.
pub(super) fn roster_of_two(
    alloc: Global,
    numbers: [u64; 6],
) -> Result<Vec<(Entity, Limits)>, Break>
    ensures { IfOk result (λ roster. IsDistinct is_same (map (λ row. row.0) roster.items)) }
{
    let (Ok(a), Ok(b), Some(limits)) = (Entity::read(b"A"), Entity::read(b"B"), limits_of(&numbers))
    else {
        return Err(Break::WrongAnswer);
    };
    if a == b {
        return Err(Break::WrongAnswer);
    }
    match vec![in alloc; (a, limits), (b, Limits::usual())] {
        Ok(roster) => Ok(roster),
        Err(_) => Err(Break::NoMemory),
    }
}

/// Plays the scene, with this at the gate.
pub(super) fn played<R: Threads + Wait + Clock + Sync>(
    rt: &R,
    alloc: Global,
    scene: &Scene<'_>,
    way: Way<'_>,
) -> Result<(), Break> {
    let roster = roster_of_two(alloc, scene.limits)?;
    let Ok(unnamed) = Unnamed::make(alloc) else {
        return Err(Break::NoMemory);
    };
    let letters = on_desk::<Brand, _>(rt, alloc, roster, unnamed, scene, way)?;
    match scene.letters {
        Some(wanted) if wanted != letters => Err(Break::WrongAnswer),
        _ => Ok(()),
    }
}
