//! Searches from their opening to their end, beside workers.
use super::acts::{Act, Told};
use super::gates::{Meeting, Way};
use super::plays::{Break, Line, Scene, USUAL, played};
use snapshots::Span;
use std::alloc::Global;
use std::array;
use std::rt::Clock;
use std::sync::Wait;
use std::sync::atomic::{AtomicBool, AtomicU64, Ordering};
use std::thread::Threads;

/// A credential, and a search of its one member.
const OPENED: &[Line] = &[
    Line(0, Act::Put("A.r <- D"), Told::Counted(1)),
    Line(0, Act::Ask("A.r", "D"), Told::Opened(1, 1)),
];

/// The second pass waits for the search, and asks all that there is to ask. The credential is the only row that is read.
static WHOLE_LIFE: Scene = Scene {
    limits: USUAL,
    passes: &["A", "A"],
    before: OPENED,
    beside: &[
        Line(1, Act::Wait(1), Told::Yes),
        Line(
            1,
            Act::Find(1, "A.r <- D"),
            Told::Found(
                Span {
                    vault: 0,
                    lo: 0,
                    hi: 1,
                },
                true,
                true,
            ),
        ),
        Line(
            1,
            Act::Find(1, "A.z <- D"),
            Told::Found(
                Span {
                    vault: 0,
                    lo: 1,
                    hi: 1,
                },
                false,
                false,
            ),
        ),
        Line(1, Act::Vault("A.r <- D"), Told::Rows(1, true)),
        Line(1, Act::Sees, Told::Seen(1, 0)),
        Line(1, Act::Proof(1, "D"), Told::Steps(2)),
        Line(1, Act::Share, Told::Share(1, 0)),
    ],
    workers: 2,
    left: 0,
    letters: Some(3),
};

#[test]
fn a_whole_life_of_a_search(rt: HostRuntime) -> Result<(), Break> {
    played(&rt, rt.alloc(), &WHOLE_LIFE, Way::Open)
}

/// A credential, and four searches of its one member, which are all waited for.
static FOUR_SEARCHES: Scene = Scene {
    limits: USUAL,
    passes: &["A"],
    before: &[
        Line(0, Act::Put("A.r <- D"), Told::Counted(1)),
        Line(0, Act::Ask("A.r", "D"), Told::Opened(1, 1)),
        Line(0, Act::Ask("A.r", "D"), Told::Opened(2, 1)),
        Line(0, Act::Ask("A.r", "D"), Told::Opened(3, 1)),
        Line(0, Act::Ask("A.r", "D"), Told::Opened(4, 1)),
    ],
    beside: &[
        Line(0, Act::Wait(1), Told::Yes),
        Line(0, Act::Wait(2), Told::Yes),
        Line(0, Act::Wait(3), Told::Yes),
        Line(0, Act::Wait(4), Told::Yes),
    ],
    workers: 4,
    left: 0,
    letters: Some(12),
};

/// The first search is ended while its first letter is held. It is gone, and the second one's letters are finished.
static ENDED: Scene = Scene {
    limits: USUAL,
    passes: &["A", "A"],
    before: OPENED,
    beside: &[
        Line(1, Act::Wait(1), Told::Refused(51)),
        Line(0, Act::Ask("A.r", "D"), Told::Opened(2, 1)),
        Line(1, Act::Wait(2), Told::Yes),
    ],
    workers: 2,
    left: 0,
    letters: Some(3),
};

/// 40 members of a role, and who is in it.
static FORTY_MEMBERS: Scene = Scene {
    limits: USUAL,
    passes: &["A"],
    before: &[],
    beside: &[
        Line(0, Act::Put("A.r <- E1"), Told::Counted(1)),
        Line(0, Act::Put("A.r <- E2"), Told::Counted(2)),
        Line(0, Act::Put("A.r <- E3"), Told::Counted(3)),
        Line(0, Act::Put("A.r <- E4"), Told::Counted(4)),
        Line(0, Act::Put("A.r <- E5"), Told::Counted(5)),
        Line(0, Act::Put("A.r <- E6"), Told::Counted(6)),
        Line(0, Act::Put("A.r <- E7"), Told::Counted(7)),
        Line(0, Act::Put("A.r <- E8"), Told::Counted(8)),
        Line(0, Act::Put("A.r <- E9"), Told::Counted(9)),
        Line(0, Act::Put("A.r <- E10"), Told::Counted(10)),
        Line(0, Act::Put("A.r <- E11"), Told::Counted(11)),
        Line(0, Act::Put("A.r <- E12"), Told::Counted(12)),
        Line(0, Act::Put("A.r <- E13"), Told::Counted(13)),
        Line(0, Act::Put("A.r <- E14"), Told::Counted(14)),
        Line(0, Act::Put("A.r <- E15"), Told::Counted(15)),
        Line(0, Act::Put("A.r <- E16"), Told::Counted(16)),
        Line(0, Act::Put("A.r <- E17"), Told::Counted(17)),
        Line(0, Act::Put("A.r <- E18"), Told::Counted(18)),
        Line(0, Act::Put("A.r <- E19"), Told::Counted(19)),
        Line(0, Act::Put("A.r <- E20"), Told::Counted(20)),
        Line(0, Act::Put("A.r <- E21"), Told::Counted(21)),
        Line(0, Act::Put("A.r <- E22"), Told::Counted(22)),
        Line(0, Act::Put("A.r <- E23"), Told::Counted(23)),
        Line(0, Act::Put("A.r <- E24"), Told::Counted(24)),
        Line(0, Act::Put("A.r <- E25"), Told::Counted(25)),
        Line(0, Act::Put("A.r <- E26"), Told::Counted(26)),
        Line(0, Act::Put("A.r <- E27"), Told::Counted(27)),
        Line(0, Act::Put("A.r <- E28"), Told::Counted(28)),
        Line(0, Act::Put("A.r <- E29"), Told::Counted(29)),
        Line(0, Act::Put("A.r <- E30"), Told::Counted(30)),
        Line(0, Act::Put("A.r <- E31"), Told::Counted(31)),
        Line(0, Act::Put("A.r <- E32"), Told::Counted(32)),
        Line(0, Act::Put("A.r <- E33"), Told::Counted(33)),
        Line(0, Act::Put("A.r <- E34"), Told::Counted(34)),
        Line(0, Act::Put("A.r <- E35"), Told::Counted(35)),
        Line(0, Act::Put("A.r <- E36"), Told::Counted(36)),
        Line(0, Act::Put("A.r <- E37"), Told::Counted(37)),
        Line(0, Act::Put("A.r <- E38"), Told::Counted(38)),
        Line(0, Act::Put("A.r <- E39"), Told::Counted(39)),
        Line(0, Act::Put("A.r <- E40"), Told::Counted(40)),
        Line(0, Act::Who("A.r"), Told::Opened(1, 40)),
        Line(0, Act::Wait(1), Told::Forty),
    ],
    workers: 2,
    left: 0,
    letters: Some(81),
};

/// Whether each letter has passed once, and none of no number, for which the first count is.
fn passed_once(counts: &[AtomicU64]) -> bool {
    let mut wanted = 0;
    for count in counts {
        if count.load(Ordering::SeqCst) != wanted {
            return false;
        }
        wanted = 1;
    }
    true
}

/// Four first letters meet at the gate, a gate ends the search of a letter that it holds, and of 40 members each of the 81
/// letters passes once.
fn held_and_counted<R: Threads + Wait + Clock + Sync>(
    rt: &R,
    alloc: Global,
    meeting: &Meeting,
    over: &AtomicBool,
    counts: &[AtomicU64],
) -> Result<(), Break> {
    played(rt, alloc, &FOUR_SEARCHES, Way::Meet(meeting))?;
    played(rt, alloc, &ENDED, Way::End(over))?;
    played(rt, alloc, &FORTY_MEMBERS, Way::Count(counts))?;
    if meeting.left.load(Ordering::SeqCst) || !over.load(Ordering::SeqCst) || !passed_once(counts) {
        return Err(Break::WrongAnswer);
    }
    Ok(())
}

/// Wrong bodies that are refused here: a letter passes the gate twice; the first of a batch alone passes; at most two workers
/// run, whatever their number.
#[test]
fn letters_that_a_gate_holds_and_counts(rt: HostRuntime) -> Result<(), Break> {
    let meeting = Meeting {
        searches: 4,
        came: AtomicU64::new(0),
        left: AtomicBool::new(false),
    };
    let over = AtomicBool::new(false);
    let counts: [AtomicU64; 82] = array::from_fn(|_| AtomicU64::new(0));
    held_and_counted(&rt, rt.alloc(), &meeting, &over, &counts)
}

/// Workers whose gate may not wait share searches that are small: the first letters of four searches meet, so that no worker does
/// all, and of 40 members each of the 81 letters passes once.
#[test]
fn small_searches_of_workers_whose_gate_may_not_wait(rt: HostRuntime) -> Result<(), Break> {
    let meeting = Meeting {
        searches: 4,
        came: AtomicU64::new(0),
        left: AtomicBool::new(false),
    };
    let counts: [AtomicU64; 82] = array::from_fn(|_| AtomicU64::new(0));
    played(&rt, rt.alloc(), &FOUR_SEARCHES, Way::MeetFirst(&meeting))?;
    played(&rt, rt.alloc(), &FORTY_MEMBERS, Way::CountAlone(&counts))?;
    if meeting.left.load(Ordering::SeqCst) || !passed_once(&counts) {
        return Err(Break::WrongAnswer);
    }
    Ok(())
}
