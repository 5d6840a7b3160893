//! Which letters are taken, at each place, and with which hint they are finished.
use super::acts::{Act, Row, Told};
use super::deeds::{Deed, Part};
use super::runs::{ANSWERED, ASKED};
use search::Hint;
use snapshots::Span;

/// All rows of A.r: the first two of the first vault.
const BOTH: Hint = Hint::Rows(Span {
    vault: 0,
    lo: 0,
    hi: 2,
});

/// A asks about a role that two others are included in. Its first letter sends two, which wait for their turns.
const TWO_WAIT: &[Row] = &[
    ("A", Act::Put("A.r <- B.s"), Told::Counted(1)),
    ("A", Act::Put("A.r <- B.t"), Told::Counted(2)),
    ("A", Act::Ask("A.r", "D"), Told::Opened(1)),
    ("A", Act::Take(1, 0), Told::TookFor(1, "A.r")),
    ("A", Act::Finish(1, 1, BOTH), Told::Done),
];

/// The second is taken before the first, and waits behind it again where it is given back.
const OUT_OF_TURN: &[Row] = &[
    ("A", Act::Take(1, 2), Told::Nothing),
    ("A", Act::Take(1, 1), Told::TookFor(3, "B.t")),
    ("A", Act::Take(1, 1), Told::Nothing),
    ("A", Act::GiveBack(1, 3), Told::Back),
    ("A", Act::Take(1, 1), Told::TookFor(3, "B.t")),
    ("A", Act::Take(1, 0), Told::TookFor(2, "B.s")),
    ("A", Act::Take(1, 0), Told::Nothing),
    ("A", Act::GiveBack(1, 2), Told::Back),
];

pub(super) static PLAYS: [&[Part]; 2] = [
    &[
        Part::Acts(ASKED),
        Part::Deeds(&[Deed::OneHint]),
        Part::Acts(ANSWERED),
    ],
    &[
        Part::Acts(TWO_WAIT),
        Part::Acts(OUT_OF_TURN),
        Part::Deeds(&[Deed::Visit(2)]),
    ],
];
