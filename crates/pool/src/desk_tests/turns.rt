//! Two long searches: each has its turn, and one goes on while a letter of the other is held.
use super::acts::{Act, FORTY, Told, refused};
use super::gates::{Meeting, Way};
use super::plays::{Break, Line, Scene, USUAL, played};
use crate::{Desk, Naming, Pass};
use credential_text::{Credential, Expr};
use names::{Entity, Role};
use std::rt::Clock;
use std::sync::Wait;
use std::sync::atomic::{AtomicBool, AtomicU64, Ordering};
use vaults::Change;

/// Roles of which each has the members of each other one, so a search of one sends each member from each to each other one.
static CIRCLE: [&[u8]; 8] = [
    b"A.a", b"A.b", b"A.c", b"A.d", b"A.e", b"A.f", b"A.g", b"A.h",
];

/// Uploads the credential that the body is in the role.
fn put<L: Naming, R: Wait>(
    rt: &R,
    desk: &Desk<L>,
    pass: &mut Pass<L>,
    role: &[u8],
    body: Expr,
) -> Told {
    let Ok(head) = Role::read(role) else {
        return Told::Otherwise;
    };
    let Some(credential) = Credential::make(head, body) else {
        return Told::Otherwise;
    };
    match desk.change(rt, pass, Change::Upload(credential)) {
        Ok(_count) => Told::Done,
        Err(fault) => refused(fault),
    }
}

/// Uploads that the role has the members of each other one of the circle.
fn put_role<L: Naming, R: Wait>(rt: &R, desk: &Desk<L>, pass: &mut Pass<L>, role: &[u8]) -> Told {
    for other in &CIRCLE {
        let Ok(body) = Role::read(other) else {
            return Told::Otherwise;
        };
        if *other == role {
            continue;
        }
        let told = put(rt, desk, pass, role, Expr::Rol(body));
        if told != Told::Done {
            return told;
        }
    }
    Told::Done
}

/// Uploads the circle, with forty members in its first role.
pub(super) fn put_circle<L: Naming, R: Wait>(rt: &R, desk: &Desk<L>, pass: &mut Pass<L>) -> Told {
    for name in &FORTY {
        let Ok(member) = Entity::read(name) else {
            return Told::Otherwise;
        };
        let told = put(rt, desk, pass, CIRCLE[0], Expr::Ent(member));
        if told != Told::Done {
            return told;
        }
    }
    for role in &CIRCLE {
        let told = put_role(rt, desk, pass, role);
        if told != Told::Done {
            return told;
        }
    }
    Told::Done
}

/// Two searches of the circle that are open before workers run, and are waited for.
static TWO_SEARCHES: Scene = Scene {
    limits: USUAL,
    passes: &["A"],
    before: &[
        Line(0, Act::PutCircle, Told::Done),
        Line(0, Act::Who("A.a"), Told::Opened(1, 96)),
        Line(0, Act::Who("A.a"), Told::Opened(2, 96)),
    ],
    beside: &[
        Line(0, Act::Wait(1), Told::Forty),
        Line(0, Act::Wait(2), Told::Forty),
    ],
    workers: 1,
    left: 0,
    letters: None,
};

/// How many letters of one search a worker takes in a row at the most, where another search has its turn.
const IN_A_ROW: u64 = 256;

/// What a gate counts that one worker passes.
#[derive(Drop)]
pub(super) struct Turns {
    /// The search of the letter that passed last.
    last: AtomicU64,
    /// How many of it have passed in a row.
    run: AtomicU64,
    /// The most of a search that have.
    longest: AtomicU64,
    /// How often the search was another one.
    changed: AtomicU64,
}

impl Turns {
    /// Notes a letter of the search.
    pub(super) fn note(&self, search: u64) {
        let run = if self.last.swap(search, Ordering::SeqCst) == search {
            self.run.load(Ordering::SeqCst).saturating_add(1)
        } else {
            self.changed.fetch_add(1, Ordering::SeqCst);
            1
        };
        self.run.store(run, Ordering::SeqCst);
        let longest = self.longest.load(Ordering::SeqCst).max(run);
        self.longest.store(longest, Ordering::SeqCst);
    }
}

#[test]
fn a_worker_goes_on_with_no_search_while_anything_of_it_is_left(
    rt: HostRuntime,
) -> Result<(), Break> {
    let turns = Turns {
        last: AtomicU64::new(0),
        run: AtomicU64::new(0),
        longest: AtomicU64::new(0),
        changed: AtomicU64::new(0),
    };
    played(&rt, rt.alloc(), &TWO_SEARCHES, Way::TakeTurns(&turns))?;
    assert!(rt; turns.longest.load(Ordering::SeqCst) <= IN_A_ROW);
    assert!(rt; turns.changed.load(Ordering::SeqCst) >= 8);
    Ok(())
}

/// Which letter of a search stays, and how many of the other search have passed once it goes on: more than a worker takes in
/// four rows.
const STAYS: u64 = 512;

const FAR: u64 = 2000;

/// A gate at which the first letters of two searches meet. A later one stays until the other search has come far, and no other.
#[derive(Drop)]
pub(super) struct Stay {
    meeting: Meeting,
    passed: [AtomicU64; 2],
    is_taken: AtomicBool,
}

impl Stay {
    /// A letter of the search passes.
    pub(super) fn pass<R: Clock>(&self, rt: &R, search: u64) {
        let [one, two] = &self.passed;
        let (own, other) = if search == 1 { (one, two) } else { (two, one) };
        match own.fetch_add(1, Ordering::SeqCst) {
            0 => self.meeting.meet(rt),
            STAYS if !self.is_taken.swap(true, Ordering::SeqCst) => {
                self.meeting.wait_for(rt, other, FAR);
            }
            _ => {}
        }
    }
}

#[test]
fn no_worker_stands_in_line_where_a_gate_may_wait(rt: HostRuntime) -> Result<(), Break> {
    let stay = Stay {
        meeting: Meeting {
            searches: 2,
            came: AtomicU64::new(0),
            left: AtomicBool::new(false),
        },
        passed: [AtomicU64::new(0), AtomicU64::new(0)],
        is_taken: AtomicBool::new(false),
    };
    let by_two = Scene {
        workers: 2,
        ..TWO_SEARCHES
    };
    // While one worker is held with a letter, the other one goes on with both searches.
    played(&rt, rt.alloc(), &by_two, Way::Stay(&stay))?;
    assert!(rt; stay.is_taken.load(Ordering::SeqCst));
    assert!(rt; !stay.meeting.left.load(Ordering::SeqCst));
    Ok(())
}
