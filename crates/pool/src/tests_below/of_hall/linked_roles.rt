//! A search through a linked role, letter by letter, and the proof of what it found.
use super::acts::{Act, Row, Told};
use super::deeds::{Part, all_play};
use hall::Fault;
use quotas::Limits;
use search::Hint;
use snapshots::Span;

/// Who A.s has, says who is in A.r: the members of the role t of each of them.
const HELD: &[Row] = &[
    ("A", Act::Put("A.r <- A.s.t"), Told::Counted(1)),
    ("A", Act::Put("A.s <- A"), Told::Counted(2)),
    ("A", Act::Put("A.t <- D"), Told::Counted(3)),
    ("A", Act::Ask("A.r", "D"), Told::Opened(1)),
];

/// The first row of A's vault, the second, and the third.
const FIRST: Hint = Hint::Rows(Span {
    vault: 0,
    lo: 0,
    hi: 1,
});

const SECOND: Hint = Hint::Rows(Span {
    vault: 0,
    lo: 1,
    hi: 2,
});

const THIRD: Hint = Hint::Rows(Span {
    vault: 0,
    lo: 2,
    hi: 3,
});

/// Down to A.s, whose member is A.
const BASE_ASKED: &[Row] = &[
    ("A", Act::Take(1, 0), Told::TookFor(1, "A.r")),
    ("A", Act::Finish(1, 1, FIRST), Told::Done),
    ("A", Act::Take(1, 0), Told::Took(2)),
    ("A", Act::Finish(1, 2, Hint::Nothing), Told::Done),
    ("A", Act::Take(1, 0), Told::TookFor(3, "A.s")),
    ("A", Act::Finish(1, 3, SECOND), Told::Done),
    ("A", Act::Take(1, 0), Told::Took(4)),
    ("A", Act::Finish(1, 4, Hint::Nothing), Told::Done),
];

/// The linked role is told of A, and asks A.t, whose member is D.
const LINK_ASKED: &[Row] = &[
    ("A", Act::Take(1, 0), Told::Took(5)),
    ("A", Act::Finish(1, 5, Hint::Nothing), Told::Done),
    ("A", Act::Take(1, 0), Told::Took(6)),
    ("A", Act::Finish(1, 6, Hint::Nothing), Told::Done),
    ("A", Act::Take(1, 0), Told::TookFor(7, "A.t")),
    ("A", Act::Finish(1, 7, THIRD), Told::Done),
    ("A", Act::Take(1, 0), Told::Took(8)),
    ("A", Act::Finish(1, 8, Hint::Nothing), Told::Done),
];

/// D is told all the way up.
const TOLD_UP: &[Row] = &[
    ("A", Act::Take(1, 0), Told::Took(9)),
    ("A", Act::Finish(1, 9, Hint::Nothing), Told::Done),
    ("A", Act::Take(1, 0), Told::Took(10)),
    ("A", Act::Finish(1, 10, Hint::Nothing), Told::Done),
    ("A", Act::Take(1, 0), Told::Took(11)),
    ("A", Act::Finish(1, 11, Hint::Nothing), Told::Done),
    ("A", Act::Take(1, 0), Told::Nothing),
    ("A", Act::Poll(1), Told::Working),
];

/// A signal for each of the letters.
const SIGNALLED: &[Row] = &[
    ("A", Act::Signal(1, 0), Told::Signalled),
    ("A", Act::Signal(1, 0), Told::Signalled),
    ("A", Act::Signal(1, 0), Told::Signalled),
    ("A", Act::Signal(1, 0), Told::Signalled),
    ("A", Act::Signal(1, 0), Told::Signalled),
    ("A", Act::Signal(1, 0), Told::Signalled),
    ("A", Act::Signal(1, 0), Told::Signalled),
    ("A", Act::Signal(1, 0), Told::Signalled),
    ("A", Act::Signal(1, 0), Told::Signalled),
    ("A", Act::Signal(1, 0), Told::Signalled),
    ("A", Act::Signal(1, 0), Told::Signalled),
];

/// The answer, why, and the end.
const ANSWERED: &[Row] = &[
    ("A", Act::Signal(1, 0), Told::Nothing),
    ("A", Act::Poll(1), Told::Yes),
    ("A", Act::Proof(1, "D"), Told::Proof(WHY)),
    ("A", Act::Close(1), Told::Closed),
];

/// Why D is in A.r.
const WHY: &str = "1 A in A by itself\n2 A in A.s by A.s <- A from 1\n3 D in D by itself\n\
    4 D in A.t by A.t <- D from 3\n5 D in A.s.t by link from 2 4\n6 D in A.r by A.r <- A.s.t from 5\n";

static PLAYS: [&[Part]; 1] = [&[
    Part::Acts(HELD),
    Part::Acts(BASE_ASKED),
    Part::Acts(LINK_ASKED),
    Part::Acts(TOLD_UP),
    Part::Acts(SIGNALLED),
    Part::Acts(ANSWERED),
]];

#[test]
fn a_linked_role_with_its_proof(rt: HostRuntime) -> Result<(), Fault> {
    assert!(rt; all_play(rt.alloc(), Limits::usual(), &PLAYS)?);
    Ok(())
}
