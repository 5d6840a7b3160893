//! Whole runs of events, with each reply.
use super::acts::{Act, Row, Told};
use super::deeds::Part;
use search::Hint;
use snapshots::Span;

/// The first row of the first vault, which is all rows of A.r for A, and of B.s for B.
const FIRST: Hint = Hint::Rows(Span {
    vault: 0,
    lo: 0,
    hi: 1,
});

/// The first row of the second vault, which is all rows of B.s for A.
const SECOND: Hint = Hint::Rows(Span {
    vault: 1,
    lo: 0,
    hi: 1,
});

/// No row of the first vault.
const NONE: Hint = Hint::Rows(Span {
    vault: 0,
    lo: 0,
    hi: 0,
});

/// A holds that D is in A.r, asks about D, and the first letter is taken. A name that is no tenant's is refused.
pub(super) const ASKED: &[Row] = &[
    ("A", Act::Put("A.r <- D"), Told::Counted(1)),
    ("Z", Act::Sees, Told::Refused(62)),
    ("A", Act::Ask("A.r", "D"), Told::Opened(1)),
    ("A", Act::Take(1, 0), Told::TookFor(1, "A.r")),
];

/// The search goes on with its first letter, to its answer.
pub(super) const ANSWERED: &[Row] = &[
    ("A", Act::Poll(1), Told::Working),
    ("A", Act::Finish(1, 1, FIRST), Told::Done),
    ("A", Act::Take(1, 0), Told::Took(2)),
    ("A", Act::Finish(1, 2, Hint::Nothing), Told::Done),
    ("A", Act::Take(1, 0), Told::Took(3)),
    ("A", Act::Finish(1, 3, Hint::Nothing), Told::Done),
    ("A", Act::Signal(1, 0), Told::Signalled),
    ("A", Act::Signal(1, 0), Told::Signalled),
    ("A", Act::Poll(1), Told::Working),
    ("A", Act::Signal(1, 0), Told::Signalled),
    ("A", Act::Poll(1), Told::Yes),
    ("A", Act::Signal(1, 0), Told::Nothing),
];

/// With a wrong hint the letter waits again.
const WRONGLY_HINTED: &[Row] = &[
    ("A", Act::Finish(1, 1, NONE), Told::BadHint),
    ("A", Act::Finish(1, 1, Hint::Nothing), Told::NotHeld),
    ("A", Act::Take(1, 0), Told::TookFor(1, "A.r")),
];

/// The search is ended while its letter is out.
const ENDED: &[Row] = &[
    ("A", Act::Close(1), Told::Closed),
    ("A", Act::Finish(1, 1, FIRST), Told::Gone),
    ("A", Act::Poll(1), Told::Refused(51)),
];

/// A, which may read B's vault, asks about D, whom B holds in B.s; then B holds E in its place.
const REPLACED: &[Row] = &[
    ("A", Act::Put("A.r <- B.s"), Told::Counted(1)),
    ("B", Act::Put("B.s <- D"), Told::Counted(1)),
    ("B", Act::Grant("A"), Told::Counted(2)),
    ("A", Act::Ask("A.r", "D"), Told::Opened(1)),
    ("A", Act::Take(1, 0), Told::TookFor(1, "A.r")),
    ("A", Act::Finish(1, 1, FIRST), Told::Done),
    ("B", Act::Drop("B.s <- D"), Told::Counted(3)),
    ("B", Act::Put("B.s <- E"), Told::Counted(4)),
];

/// The other letters of the search find the vault as it was.
const AS_IT_WAS: &[Row] = &[
    ("A", Act::Take(1, 0), Told::TookFor(2, "B.s")),
    ("A", Act::Finish(1, 2, SECOND), Told::Done),
    ("A", Act::Take(1, 0), Told::Took(3)),
    ("A", Act::Finish(1, 3, Hint::Nothing), Told::Done),
    ("A", Act::Take(1, 0), Told::Took(4)),
    ("A", Act::Finish(1, 4, Hint::Nothing), Told::Done),
    ("A", Act::Take(1, 0), Told::Took(5)),
    ("A", Act::Finish(1, 5, Hint::Nothing), Told::Done),
    ("A", Act::Signal(1, 0), Told::Signalled),
    ("A", Act::Signal(1, 0), Told::Signalled),
    ("A", Act::Signal(1, 0), Told::Signalled),
    ("A", Act::Signal(1, 0), Told::Signalled),
    ("A", Act::Signal(1, 0), Told::Signalled),
    ("A", Act::Poll(1), Told::Yes),
];

/// A search that is opened now finds it as it is.
const AS_IT_IS: &[Row] = &[
    ("A", Act::Ask("A.r", "D"), Told::Opened(2)),
    ("A", Act::Take(2, 0), Told::TookFor(1, "A.r")),
    ("A", Act::Finish(2, 1, FIRST), Told::Done),
    ("A", Act::Take(2, 0), Told::TookFor(2, "B.s")),
    ("A", Act::Finish(2, 2, SECOND), Told::Done),
    ("A", Act::Take(2, 0), Told::Took(3)),
    ("A", Act::Finish(2, 3, Hint::Nothing), Told::Done),
    ("A", Act::Take(2, 0), Told::Took(4)),
    ("A", Act::Finish(2, 4, Hint::Nothing), Told::Done),
    ("A", Act::Take(2, 0), Told::Took(5)),
    ("A", Act::Finish(2, 5, Hint::Nothing), Told::Done),
    ("A", Act::Signal(2, 0), Told::Signalled),
    ("A", Act::Signal(2, 0), Told::Signalled),
    ("A", Act::Signal(2, 0), Told::Signalled),
    ("A", Act::Signal(2, 0), Told::Signalled),
    ("A", Act::Signal(2, 0), Told::Signalled),
    ("A", Act::Poll(2), Told::No),
];

/// Two searches of A and one of B are opened; each tenant's numbers count from 1, and so do each search's letters. A's first
/// letter gets a wrong hint and is given back, while B's is finished.
const INTERLEAVED: &[Row] = &[
    ("A", Act::Put("A.r <- B.s"), Told::Counted(1)),
    ("B", Act::Put("B.s <- D"), Told::Counted(1)),
    ("B", Act::Grant("A"), Told::Counted(2)),
    ("A", Act::Ask("A.r", "D"), Told::Opened(1)),
    ("B", Act::Who("B.s"), Told::Opened(1)),
    ("A", Act::Ask("A.r", "E"), Told::Opened(2)),
    ("A", Act::Take(1, 0), Told::TookFor(1, "A.r")),
    ("B", Act::Take(1, 0), Told::TookFor(1, "B.s")),
    ("A", Act::Take(1, 0), Told::Nothing),
    ("A", Act::Finish(1, 1, SECOND), Told::BadHint),
    ("B", Act::Finish(1, 1, FIRST), Told::Done),
    ("A", Act::Finish(1, 1, FIRST), Told::NotHeld),
    ("A", Act::Take(1, 0), Told::TookFor(1, "A.r")),
    ("A", Act::GiveBack(1, 1), Told::Back),
    ("A", Act::GiveBack(1, 1), Told::NotHeld),
    ("B", Act::GiveBack(1, 1), Told::NotHeld),
    ("A", Act::Take(2, 0), Told::TookFor(1, "A.r")),
    ("B", Act::Take(1, 0), Told::Took(2)),
    ("A", Act::Take(1, 0), Told::TookFor(1, "A.r")),
    ("A", Act::Finish(1, 1, FIRST), Told::Done),
    ("A", Act::Take(1, 0), Told::TookFor(2, "B.s")),
    ("A", Act::Finish(1, 2, FIRST), Told::BadHint),
];

/// A ends its second search, while its first letter is out; B's next one gets a hint that it doesn't need.
const ENDED_BETWEEN: &[Row] = &[
    ("A", Act::Close(2), Told::Closed),
    ("A", Act::Finish(2, 1, FIRST), Told::Gone),
    ("A", Act::GiveBack(2, 1), Told::Gone),
    ("A", Act::Take(2, 0), Told::Gone),
    ("A", Act::Signal(2, 0), Told::Gone),
    ("A", Act::Poll(2), Told::Refused(51)),
    ("A", Act::Close(2), Told::Refused(51)),
    ("B", Act::Finish(1, 2, Hint::Nothing), Told::Done),
    ("A", Act::Take(1, 0), Told::TookFor(2, "B.s")),
    ("B", Act::Take(1, 0), Told::Took(3)),
    ("B", Act::Finish(1, 3, FIRST), Told::BadHint),
    ("A", Act::Finish(1, 2, SECOND), Told::Done),
    ("A", Act::Poll(1), Told::Working),
    ("B", Act::Take(1, 0), Told::Took(3)),
    ("B", Act::Finish(1, 3, Hint::Nothing), Told::Done),
    ("B", Act::Signal(1, 1), Told::Nothing),
];

/// B's search is answered while A's still works, and ended before A's is answered.
const ANSWERED_IN_TURN: &[Row] = &[
    ("B", Act::Signal(1, 0), Told::Signalled),
    ("A", Act::Take(1, 0), Told::Took(3)),
    ("B", Act::Signal(1, 0), Told::Signalled),
    ("A", Act::Finish(1, 3, Hint::Nothing), Told::Done),
    ("B", Act::Poll(1), Told::Working),
    ("B", Act::Signal(1, 0), Told::Signalled),
    ("B", Act::Poll(1), Told::Members(&[b"D"])),
    ("A", Act::Take(1, 0), Told::Took(4)),
    ("A", Act::Finish(1, 4, Hint::Nothing), Told::Done),
    ("B", Act::Close(1), Told::Closed),
    ("A", Act::Signal(1, 0), Told::Signalled),
    ("A", Act::Take(1, 0), Told::Took(5)),
    ("A", Act::Finish(1, 5, Hint::Nothing), Told::Done),
    ("A", Act::Signal(1, 0), Told::Signalled),
    ("A", Act::Signal(1, 0), Told::Signalled),
    ("A", Act::Signal(1, 0), Told::Signalled),
    ("A", Act::Poll(1), Told::Working),
    ("A", Act::Signal(1, 0), Told::Signalled),
    ("A", Act::Poll(1), Told::Yes),
    ("B", Act::Poll(1), Told::Refused(51)),
    ("B", Act::Ask("B.s", "D"), Told::Opened(2)),
    ("A", Act::Ask("A.r", "E"), Told::Opened(3)),
];

/// What becomes of a tenant's search, and of the searches of two.
pub(super) static PLAYS: [&[Part]; 5] = [
    &[Part::Acts(ASKED), Part::Acts(ANSWERED)],
    &[
        Part::Acts(ASKED),
        Part::Acts(WRONGLY_HINTED),
        Part::Acts(ANSWERED),
    ],
    &[Part::Acts(ASKED), Part::Acts(ENDED)],
    &[
        Part::Acts(REPLACED),
        Part::Acts(AS_IT_WAS),
        Part::Acts(AS_IT_IS),
    ],
    &[
        Part::Acts(INTERLEAVED),
        Part::Acts(ENDED_BETWEEN),
        Part::Acts(ANSWERED_IN_TURN),
    ],
];
