//! What tenants are shown by a run of events: their vaults, whose vaults they read, and why somebody is a member.
use super::acts::{Act, Row, Told};
use super::deeds::Part;
use super::runs::{ANSWERED, ASKED};

/// Why D is in A.r where A holds that it is.
const WHY: &str = "1 D in D by itself\n2 D in A.r by A.r <- D from 1\n";

/// No search gives a proof before it is done.
const TOO_EARLY: &[Row] = &[
    ("A", Act::Proof(1, "D"), Told::Refused(52)),
    ("A", Act::Proof(1, "E"), Told::Refused(52)),
    ("A", Act::Proof(2, "D"), Told::Refused(51)),
    ("Z", Act::Proof(1, "D"), Told::Refused(62)),
];

/// Once it is done it proves its members, and nobody else's search does.
const EXPLAINED: &[Row] = &[
    ("A", Act::Proof(1, "D"), Told::Proof(WHY)),
    ("A", Act::Proof(1, "E"), Told::Refused(53)),
    ("A", Act::Proof(2, "D"), Told::Refused(51)),
    ("B", Act::Proof(1, "D"), Told::Refused(51)),
    ("Z", Act::Proof(1, "D"), Told::Refused(62)),
];

/// Each tenant is shown its own vault, in order, and whose vaults it reads.
const SHOWN: &[Row] = &[
    ("A", Act::Put("A.q <- E"), Told::Counted(2)),
    ("A", Act::Vault, Told::Vault(&["A.q <- E", "A.r <- D"])),
    ("B", Act::Vault, Told::Vault(&[])),
    ("Z", Act::Vault, Told::Refused(62)),
    ("B", Act::Sees, Told::Sees(&[(b"B", false)])),
    ("A", Act::Grant("B"), Told::Counted(3)),
    ("B", Act::Sees, Told::Sees(&[(b"A", false), (b"B", false)])),
    ("B", Act::Vault, Told::Vault(&[])),
    ("A", Act::Revoke("B"), Told::Counted(4)),
    ("A", Act::Revoke("B"), Told::Refused(35)),
    ("A", Act::Revoke("A"), Told::Refused(35)),
    ("B", Act::Sees, Told::Sees(&[(b"B", false)])),
];

/// What is withdrawn is gone from the vault, and the search still proves by the vault that it opened over.
const WITHDRAWN: &[Row] = &[
    ("A", Act::Drop("A.r <- D"), Told::Counted(5)),
    ("A", Act::Drop("A.r <- D"), Told::Refused(33)),
    ("A", Act::Drop("B.r <- D"), Told::Refused(31)),
    ("A", Act::Vault, Told::Vault(&["A.q <- E"])),
    ("A", Act::Proof(1, "D"), Told::Proof(WHY)),
    ("A", Act::Close(1), Told::Closed),
    ("A", Act::Proof(1, "D"), Told::Refused(51)),
];

pub(super) static PLAYS: [&[Part]; 1] = [&[
    Part::Acts(ASKED),
    Part::Acts(TOO_EARLY),
    Part::Acts(ANSWERED),
    Part::Acts(EXPLAINED),
    Part::Acts(SHOWN),
    Part::Acts(WITHDRAWN),
]];
