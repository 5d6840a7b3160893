//! A desk goes on where its passes are asked back too soon.
ghost use Rattle.std.specs.Prelude.{◌≡◌, map};
ghost use Rattle.std.specs.List.{IsDistinct};
ghost use Rattle.names.specs.Name.{is_same};

use super::acts::{Act, Told};
use super::gates::Way;
use super::plays::{
    Break, Line, USUAL, admitted, come_back, finished, roster_of_two, tell_each, work,
};
use crate::{Authority, Desk, Naming, Pass, Unnamed};
use names::Entity;
use quotas::Limits;
use std::alloc::Global;
use std::marker::Brand;
use std::rt::Clock;
use std::sync::Wait;
use std::thread;
use std::thread::Threads;

/// A search is opened, of a credential that was put.
const OPENED: &[Line] = &[
    Line(0, Act::Put("A.r <- D"), Told::Counted(1)),
    Line(0, Act::Ask("A.r", "D"), Told::Opened(1, 1)),
];

const ENDED: &[Line] = &[Line(0, Act::Wait(1), Told::Yes)];

/// The search that is open is carried to its end, beside one worker.
fn carry_on<L: Naming + Send + Sync, R: Threads + Wait + Clock + Sync>(
    rt: &R,
    alloc: Global,
    desk: &Desk<L>,
    authority: &Authority<L>,
    passes: &mut Vec<Pass<L>>,
) -> Result<(), Break> {
    thread::scope(thread::scope_env(), rt, |scope| -> Result<(), Break> {
        let Ok(all) = scope.spawn(move || work(rt, desk, authority, 1, Way::Open)) else {
            return Err(Break::NoMemory);
        };
        let right = tell_each(rt, alloc, desk, authority, passes, ENDED);
        desk.stop(rt, authority);
        finished(all.join(rt), right)?;
        Ok(())
    })
}

/// A pass that is gathered while another is out comes back, and the search of that one goes on.
fn go_on<L: Naming + Send + Sync, R: Threads + Wait + Clock + Sync>(
    rt: &R,
    alloc: Global,
    desk: &Desk<L>,
    authority: &Authority<L>,
) -> Result<(), Break> {
    let Ok(mut passes) = vec![in alloc; admitted(rt, desk, authority, "A")?] else {
        return Err(Break::NoMemory);
    };
    tell_each(rt, alloc, desk, authority, &mut passes, OPENED)?;
    let Ok(gathered) = vec![in alloc; admitted(rt, desk, authority, "A")?] else {
        return Err(Break::NoMemory);
    };
    come_back(rt, desk, gathered)?;
    carry_on(rt, alloc, desk, authority, &mut passes)
}

/// So goes a desk of this roster.
fn at_a_desk<L: Naming + Send + Sync, R: Threads + Wait + Clock + Sync>(
    rt: &R,
    alloc: Global,
    roster: Vec<(Entity, Limits)>,
    unnamed: Unnamed,
) -> Result<(), Break>
    requires roster { roster.items ≡ L.roster }
    requires distinct { IsDistinct is_same (map (λ row. row.0) roster.items) }
    requires named { unnamed ≡ record { ledger = L.name; parts = L.parts; table = L.table; letters = L.letters; rights = L.rights } }
{
    match Desk::<L>::make(alloc, roster, unnamed) {
        Ok((desk, authority)) => go_on(rt, alloc, &desk, &authority),
        Err(_) => Err(Break::NoMemory),
    }
}

/// A gather that is refused, since passes are out, leaves the desk as it is.
#[test]
fn a_desk_goes_on_where_passes_are_out(rt: HostRuntime) -> Result<(), Break> {
    let roster = roster_of_two(rt.alloc(), USUAL)?;
    let Ok(unnamed) = Unnamed::make(rt.alloc()) else {
        return Err(Break::NoMemory);
    };
    at_a_desk::<Brand, _>(&rt, rt.alloc(), roster, unnamed)
}
