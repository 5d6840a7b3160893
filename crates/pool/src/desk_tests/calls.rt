//! Scenes with an open gate: each call once without workers, and what the rules say: refusals, limits, and views as they were
//! at the opening.
use super::acts::{Act, Told};
use super::gates::Way;
use super::plays::{Break, Line, Scene, USUAL, played};
use snapshots::Span;

/// Scenes, each on a desk of its own.
static SCENES: [Scene; 6] = [
    // Each call, but for those that take a pass back. A wait ends though the search is working, since the desk was stopped.
    // No pass is given to a name outside the roster.
    Scene {
        limits: USUAL,
        passes: &["A"],
        before: &[
            Line(0, Act::Put("A.r <- D"), Told::Counted(1)),
            Line(0, Act::Ask("A.r", "D"), Told::Opened(1, 1)),
            Line(0, Act::Vault("A.r <- D"), Told::Rows(1, true)),
            Line(0, Act::Sees, Told::Seen(1, 0)),
            Line(0, Act::Proof(1, "D"), Told::Refused(52)),
            Line(0, Act::Poll(1), Told::Working),
            Line(0, Act::Stop, Told::Done),
            Line(0, Act::Wait(1), Told::Working),
            Line(0, Act::End(1), Told::Done),
            Line(0, Act::Wait(1), Told::Refused(51)),
            Line(0, Act::Share, Told::Share(1, 1)),
            Line(0, Act::Pass("D"), Told::Refused(62)),
            Line(0, Act::Pass("A"), Told::Done),
        ],
        beside: &[],
        workers: 1,
        left: 1,
        letters: Some(0),
    },
    // `A`'s search reads what `B` granted before it was opened, and nothing that `B` grants later: only the second search reads
    // the row.
    Scene {
        limits: USUAL,
        passes: &["A", "B"],
        before: &[],
        beside: &[
            Line(0, Act::Put("A.r <- B.s"), Told::Counted(1)),
            Line(1, Act::Put("B.s <- D"), Told::Counted(1)),
            Line(0, Act::Ask("A.r", "D"), Told::Opened(1, 2)),
            Line(1, Act::Grant("A"), Told::Counted(2)),
            Line(0, Act::Ask("A.r", "D"), Told::Opened(2, 3)),
            Line(0, Act::Wait(2), Told::Yes),
            Line(0, Act::Wait(1), Told::No),
            Line(
                0,
                Act::Find(1, "B.s <- D"),
                Told::Found(
                    Span {
                        vault: 1,
                        lo: 0,
                        hi: 0,
                    },
                    false,
                    false,
                ),
            ),
            Line(
                0,
                Act::Find(2, "B.s <- D"),
                Told::Found(
                    Span {
                        vault: 1,
                        lo: 0,
                        hi: 1,
                    },
                    true,
                    false,
                ),
            ),
        ],
        workers: 2,
        left: 0,
        letters: None,
    },
    // The same where `B` lets every tenant read, and so every one that reads `B`'s vault sees its mark, `B` too.
    Scene {
        limits: USUAL,
        passes: &["A", "B"],
        before: &[],
        beside: &[
            Line(0, Act::Put("A.r <- B.s"), Told::Counted(1)),
            Line(1, Act::Put("B.s <- D"), Told::Counted(1)),
            Line(0, Act::Ask("A.r", "D"), Told::Opened(1, 2)),
            Line(1, Act::GrantAll, Told::Counted(2)),
            Line(0, Act::Ask("A.r", "D"), Told::Opened(2, 3)),
            Line(0, Act::Wait(2), Told::Yes),
            Line(0, Act::Wait(1), Told::No),
            Line(0, Act::Sees, Told::Seen(2, 1)),
            Line(1, Act::Sees, Told::Seen(1, 1)),
            Line(1, Act::GrantAll, Told::Refused(34)),
            Line(1, Act::Revoke("A"), Told::Refused(35)),
            Line(1, Act::RevokeAll, Told::Counted(3)),
            Line(1, Act::RevokeAll, Told::Refused(35)),
            Line(0, Act::Sees, Told::Seen(1, 0)),
        ],
        workers: 2,
        left: 0,
        letters: None,
    },
    // One search at once.
    Scene {
        limits: [10, 10, 1, 100, 100, 1000],
        passes: &["A", "B"],
        before: &[],
        beside: &[
            Line(0, Act::Ask("A.r", "D"), Told::Opened(1, 0)),
            Line(0, Act::Ask("A.r", "E"), Told::Refused(43)),
            Line(0, Act::Wait(1), Told::No),
            Line(0, Act::Ask("A.r", "E"), Told::Refused(43)),
            Line(0, Act::End(1), Told::Done),
            Line(0, Act::Ask("A.r", "E"), Told::Opened(2, 0)),
        ],
        workers: 2,
        left: 0,
        letters: None,
    },
    // All that is refused for another reason than a limit.
    Scene {
        limits: USUAL,
        passes: &["A", "B"],
        before: &[],
        beside: &[
            Line(0, Act::Put("A.r <- D"), Told::Counted(1)),
            Line(0, Act::Put("A.r <- D"), Told::Refused(32)),
            Line(0, Act::Drop("A.r <- E"), Told::Refused(33)),
            Line(0, Act::Grant("A"), Told::Refused(36)),
            Line(0, Act::Grant("B"), Told::Counted(2)),
            Line(0, Act::Grant("B"), Told::Refused(34)),
            Line(0, Act::Revoke("C"), Told::Refused(35)),
            Line(0, Act::Drop("A.r <- D"), Told::Counted(3)),
            Line(0, Act::Vault("A.r <- D"), Told::Rows(0, false)),
        ],
        workers: 2,
        left: 0,
        letters: None,
    },
    // One credential, one grant, three changes and one opening.
    Scene {
        limits: [1, 1, 1, 3, 1, 1000],
        passes: &["A", "B"],
        before: &[],
        beside: &[
            Line(0, Act::Put("A.r <- D"), Told::Counted(1)),
            Line(0, Act::Put("A.r <- E"), Told::Refused(41)),
            Line(0, Act::Grant("B"), Told::Counted(2)),
            Line(0, Act::Grant("C"), Told::Refused(42)),
            Line(0, Act::Drop("A.r <- D"), Told::Counted(3)),
            Line(0, Act::Put("A.r <- D"), Told::Refused(44)),
            Line(0, Act::Ask("A.r", "D"), Told::Opened(1, 3)),
            Line(0, Act::End(1), Told::Done),
            Line(0, Act::Ask("A.r", "D"), Told::Refused(45)),
        ],
        workers: 2,
        left: 0,
        letters: None,
    },
];

#[test]
fn calls_refusals_limits_and_views(rt: HostRuntime) -> Result<(), Break> {
    for scene in &SCENES {
        played(&rt, rt.alloc(), scene, Way::Open)?;
    }
    Ok(())
}
