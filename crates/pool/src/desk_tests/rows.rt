//! The limit of work: the same end by any number of workers.
use super::acts::{Act, Told};
use super::gates::Way;
use super::plays::{Break, Line, Scene, played};
use std::alloc::Global;
use std::rt::Clock;
use std::sync::Wait;
use std::thread::Threads;

/// How much work a search takes that these lines open.
static WORKS: [(u64, &[Line]); 5] = [
    (
        3,
        &[
            Line(0, Act::Put("A.r <- D"), Told::Counted(1)),
            Line(0, Act::Ask("A.r", "D"), Told::Opened(1, 1)),
        ],
    ),
    (
        5,
        &[
            Line(0, Act::Put("A.r <- A.r"), Told::Counted(1)),
            Line(0, Act::Put("A.r <- D"), Told::Counted(2)),
            Line(0, Act::Ask("A.r", "D"), Told::Opened(1, 2)),
        ],
    ),
    (
        15,
        &[
            Line(0, Act::Put("A.r <- A"), Told::Counted(1)),
            Line(0, Act::Put("A.r <- D"), Told::Counted(2)),
            Line(0, Act::Put("A.r <- A.r.r"), Told::Counted(3)),
            Line(0, Act::Ask("A.r", "D"), Told::Opened(1, 3)),
        ],
    ),
    (
        9,
        &[
            Line(0, Act::Put("A.r <- B.s & B.s"), Told::Counted(1)),
            Line(1, Act::Put("B.s <- D"), Told::Counted(1)),
            Line(1, Act::Grant("A"), Told::Counted(2)),
            Line(0, Act::Ask("A.r", "D"), Told::Opened(1, 3)),
        ],
    ),
    (
        11,
        &[
            Line(0, Act::Put("A.s <- B"), Told::Counted(1)),
            Line(0, Act::Put("A.r <- A.s.t"), Told::Counted(2)),
            Line(1, Act::Put("B.t <- D"), Told::Counted(1)),
            Line(1, Act::Grant("A"), Told::Counted(2)),
            Line(0, Act::Ask("A.r", "D"), Told::Opened(1, 4)),
        ],
    ),
];

/// The search that the lines open ends by so many workers: with this limit of work by its answer, and all the letters that the
/// limit says are finished, and with one less it is spent.
fn ends_so<R: Threads + Wait + Clock + Sync>(
    rt: &R,
    alloc: Global,
    before: &[Line],
    work: u64,
    workers: u64,
) -> Result<(), Break> {
    let answered = Scene {
        limits: [10, 10, 1, 100, 100, work],
        passes: &["A", "B"],
        before,
        beside: &[Line(0, Act::Wait(1), Told::Yes)],
        workers,
        left: 0,
        letters: Some(work),
    };
    let spent = Scene {
        limits: [10, 10, 1, 100, 100, work.saturating_sub(1)],
        beside: &[Line(0, Act::Wait(1), Told::Spent)],
        letters: None,
        ..answered
    };
    played(rt, alloc, &answered, Way::Open)?;
    played(rt, alloc, &spent, Way::Open)
}

#[test]
fn the_same_end_by_any_number_of_workers(rt: HostRuntime) -> Result<(), Break> {
    for (work, before) in &WORKS {
        ends_so(&rt, rt.alloc(), before, *work, 1)?;
        ends_so(&rt, rt.alloc(), before, *work, 4)?;
    }
    Ok(())
}
