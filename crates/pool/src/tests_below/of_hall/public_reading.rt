//! Vaults that every tenant reads: what a grant to all and its revocation change, and what they leave.
use super::acts::{Act, Row, Told};
use super::deeds::{Deed, Part};

/// B grants its vault to all between two searches of A.
const GRANTED: &[Row] = &[
    ("A", Act::Put("A.r <- B.s"), Told::Counted(1)),
    ("B", Act::Put("B.s <- D"), Told::Counted(1)),
    ("A", Act::Ask("A.r", "D"), Told::Opened(1)),
    ("B", Act::GrantAll, Told::Counted(2)),
    ("A", Act::Ask("A.r", "D"), Told::Opened(2)),
];

/// Everybody sees B's vault with its mark, B too.
const SEEN: &[Row] = &[
    ("A", Act::Sees, Told::Sees(&[(b"A", false), (b"B", true)])),
    ("C", Act::Sees, Told::Sees(&[(b"B", true), (b"C", false)])),
    ("B", Act::Sees, Told::Sees(&[(b"B", true)])),
];

/// A grant to A alone comes and goes beside the grant to all, which then goes by itself.
const APART: &[Row] = &[
    ("B", Act::GrantAll, Told::Refused(34)),
    ("B", Act::Revoke("A"), Told::Refused(35)),
    ("B", Act::Grant("A"), Told::Counted(3)),
    ("A", Act::Sees, Told::Sees(&[(b"A", false), (b"B", true)])),
    ("B", Act::Revoke("A"), Told::Counted(4)),
    ("A", Act::Sees, Told::Sees(&[(b"A", false), (b"B", true)])),
    ("B", Act::RevokeAll, Told::Counted(5)),
    ("A", Act::Sees, Told::Sees(&[(b"A", false)])),
    ("B", Act::RevokeAll, Told::Refused(35)),
];

/// A grant to A alone outlives the grant to all.
const OUTLIVED: &[Row] = &[
    ("B", Act::Grant("A"), Told::Counted(1)),
    ("B", Act::GrantAll, Told::Counted(2)),
    ("B", Act::RevokeAll, Told::Counted(3)),
    ("A", Act::Sees, Told::Sees(&[(b"A", false), (b"B", false)])),
    ("C", Act::Sees, Told::Sees(&[(b"C", false)])),
];

/// A may make one grant at a time, and three changes; Z is no tenant's name.
const LIMITED: &[Row] = &[
    ("A", Act::GrantAll, Told::Counted(1)),
    ("A", Act::Grant("B"), Told::Refused(42)),
    ("A", Act::GrantAll, Told::Refused(42)),
    ("A", Act::RevokeAll, Told::Counted(2)),
    ("A", Act::Grant("B"), Told::Counted(3)),
    ("A", Act::Revoke("B"), Told::Refused(44)),
    ("A", Act::GrantAll, Told::Refused(44)),
    ("Z", Act::GrantAll, Told::Refused(62)),
    ("Z", Act::RevokeAll, Told::Refused(62)),
];

/// B revokes its grant to all while a search of A is open.
const REVOKED: &[Row] = &[
    ("A", Act::Put("A.r <- B.s"), Told::Counted(1)),
    ("B", Act::Put("B.s <- D"), Told::Counted(1)),
    ("B", Act::GrantAll, Told::Counted(2)),
    ("A", Act::Ask("A.r", "D"), Told::Opened(1)),
    ("B", Act::RevokeAll, Told::Counted(3)),
    ("A", Act::Sees, Told::Sees(&[(b"A", false)])),
];

/// A asks again.
const ASKED_AGAIN: &[Row] = &[("A", Act::Ask("A.r", "D"), Told::Opened(2))];

/// The later of A's searches finds D, and the earlier doesn't.
const FOUND_LATER: &[Deed] = &[
    Deed::Drive("A", 2, Told::Yes),
    Deed::Drive("A", 1, Told::No),
];

/// A's first search finds D.
const FOUND: &[Deed] = &[Deed::Drive("A", 1, Told::Yes)];

/// A's second search doesn't.
const NOT_FOUND: &[Deed] = &[Deed::Drive("A", 2, Told::No)];

pub(super) static PLAYS: [&[Part]; 3] = [
    &[
        Part::Acts(GRANTED),
        Part::Deeds(FOUND_LATER),
        Part::Acts(SEEN),
        Part::Acts(APART),
    ],
    &[
        Part::Acts(REVOKED),
        Part::Deeds(FOUND),
        Part::Acts(ASKED_AGAIN),
        Part::Deeds(NOT_FOUND),
    ],
    &[Part::Acts(OUTLIVED)],
];

pub(super) static WITH_FEW: [&[Part]; 1] = [&[Part::Acts(LIMITED)]];
