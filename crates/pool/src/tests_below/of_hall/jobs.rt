//! Letters that are taken from a hall, what becomes of them, and whose turn it is.
use super::acts::{Act, Row, Told};
use super::deeds::{Deed, Part};

/// A holds that D is in A.r, and asks about D.
const ASKED: &[Row] = &[
    ("A", Act::Put("A.r <- D"), Told::Counted(1)),
    ("A", Act::Ask("A.r", "D"), Told::Opened(1)),
];

/// A ends its first search.
const ENDED: &[Row] = &[("A", Act::Close(1), Told::Closed)];

/// It can't be polled or worked on any more, nor seen.
const GONE: &[Row] = &[
    ("A", Act::Poll(1), Told::Refused(51)),
    ("A", Act::Take(1, 0), Told::Gone),
];

const UNSEEN: &[Deed] = &[Deed::Unseen, Deed::Journal(1)];

const GIVEN_BACK_AND_FINISHED: &[Deed] = &[
    Deed::Pick(7, "A", 1),
    Deed::Jobs,
    Deed::Drive("A", 1, Told::Yes),
    Deed::Rest(7),
];

const SHARED: &[Deed] = &[
    Deed::Unshared("A"),
    Deed::Drive("A", 1, Told::Yes),
    Deed::Rest(7),
    Deed::Shared,
    Deed::Unshared("C"),
    Deed::Unshared("Z"),
];

/// A has asked two questions, and B one.
const THREE_ASKED: &[Row] = &[
    ("A", Act::Who("A.r"), Told::Opened(1)),
    ("A", Act::Who("A.r"), Told::Opened(2)),
    ("B", Act::Who("A.r"), Told::Opened(1)),
];

/// A asks eight questions more.
const EIGHT_ASKED: &[Row] = &[
    ("A", Act::Who("A.r"), Told::Opened(3)),
    ("A", Act::Who("A.r"), Told::Opened(4)),
    ("A", Act::Who("A.r"), Told::Opened(5)),
    ("A", Act::Who("A.r"), Told::Opened(6)),
    ("A", Act::Who("A.r"), Told::Opened(7)),
    ("A", Act::Who("A.r"), Told::Opened(8)),
    ("A", Act::Who("A.r"), Told::Opened(9)),
    ("A", Act::Who("A.r"), Told::Opened(10)),
];

/// Turns, and whose search each of them picks.
const TURNS: &[Deed] = &[
    Deed::Pick(0, "A", 1),
    Deed::Pick(1, "B", 1),
    Deed::Pick(2, "A", 2),
    Deed::Pick(3, "B", 1),
    Deed::Pick(4, "A", 1),
];

/// All but A's first two searches are answered.
const ANSWERED: &[Deed] = &[
    Deed::Drive("A", 3, Told::Members(&[])),
    Deed::Drive("A", 4, Told::Members(&[])),
    Deed::Drive("A", 5, Told::Members(&[])),
    Deed::Drive("A", 6, Told::Members(&[])),
    Deed::Drive("A", 7, Told::Members(&[])),
    Deed::Drive("A", 8, Told::Members(&[])),
    Deed::Drive("A", 9, Told::Members(&[])),
    Deed::Drive("A", 10, Told::Members(&[])),
    Deed::Drive("B", 1, Told::Members(&[])),
];

/// Turns where A's second search alone isn't answered or ended, and then none.
const LAST_TURNS: &[Deed] = &[
    Deed::Pick(0, "A", 2),
    Deed::Pick(1, "A", 2),
    Deed::Pick(2, "A", 2),
    Deed::Pick(3, "A", 2),
    Deed::Drive("A", 2, Told::Members(&[])),
    Deed::Rest(0),
];

pub(super) static PLAYS: [&[Part]; 3] = [
    // A job is given back, and then finished.
    &[
        Part::Acts(ASKED),
        Part::Deeds(GIVEN_BACK_AND_FINISHED),
        Part::Acts(ENDED),
        Part::Acts(GONE),
        Part::Deeds(UNSEEN),
    ],
    &[Part::Acts(ASKED), Part::Deeds(SHARED)],
    // Tenants take turns, and so do a tenant's searches from one of its turns to the next. One that is answered or ended has
    // none.
    &[
        Part::Acts(THREE_ASKED),
        Part::Deeds(TURNS),
        Part::Acts(EIGHT_ASKED),
        Part::Deeds(ANSWERED),
        Part::Acts(ENDED),
        Part::Deeds(LAST_TURNS),
    ],
];
