//! What workers do at the gate of a scene.
use super::turns::{Stay, Turns};
use crate::{Authority, Desk, Gate, Naming};
use names::Entity;
use std::rt::Clock;
use std::sync::Wait;
use std::sync::atomic::{AtomicBool, AtomicU64, Ordering};
use std::thread;
use std::time::Duration;

/// What a worker does with a letter of a search, or with the first one.
#[derive(Clone, Copy)]
pub(super) enum Way<'a> {
    /// It goes on.
    Open,
    /// The first letter of a search waits for those of the others.
    Meet(&'a Meeting),
    /// Where the search is the first, it ends it, and notes that it could.
    End(&'a AtomicBool),
    /// It counts it, at the place of its number.
    Count(&'a [AtomicU64]),
    /// As `Meet`, of workers whose gate may not wait: one of them goes on alone once it finishes a letter in each visit of a row. At
    /// first letters none does yet.
    MeetFirst(&'a Meeting),
    /// As `Count`, of such workers.
    CountAlone(&'a [AtomicU64]),
    /// It notes whose turn it is, of such workers.
    TakeTurns(&'a Turns),
    /// One letter stays until another search has come far.
    Stay(&'a Stay),
}

/// Where the first letters of so many searches meet.
#[derive(Drop)]
pub(super) struct Meeting {
    pub(super) searches: u64,
    pub(super) came: AtomicU64,
    /// Whether a letter left without the others.
    pub(super) left: AtomicBool,
}

impl Meeting {
    /// The first letter of a search waits for those of the others.
    pub(super) fn meet<R: Clock>(&self, rt: &R) {
        self.came.fetch_add(1, Ordering::SeqCst);
        self.wait_for(rt, &self.came, self.searches);
    }

    /// A letter waits until so many have come, for 100,000 turns at the most.
    pub(super) fn wait_for<R: Clock>(&self, rt: &R, came: &AtomicU64, wanted: u64) {
        for _ in 0..100_000u64 {
            if came.load(Ordering::SeqCst) >= wanted {
                return;
            }
            thread::sleep(rt, Duration::from_micros(100));
        }
        self.left.store(true, Ordering::SeqCst);
    }
}

/// Ends the tenant's first search.
fn end_first<L: Naming, R: Wait>(
    rt: &R,
    desk: &Desk<L>,
    authority: &Authority<L>,
    who: Entity,
    over: &AtomicBool,
) {
    let Ok(mut pass) = desk.pass(rt, authority.admission(), who) else {
        return;
    };
    let ended = desk.end(rt, &mut pass, 1);
    desk.leave(rt, pass.end());
    over.store(ended.is_ok(), Ordering::SeqCst);
}

/// The gate of a scene.
#[derive(Drop)]
pub(super) struct Doorway<'a, L: Naming, R> {
    pub(super) rt: &'a R,
    pub(super) desk: &'a Desk<L>,
    pub(super) authority: &'a Authority<L>,
    pub(super) way: Way<'a>,
}

impl<L: Naming + Send + Sync, R: Wait + Clock + Sync> Gate for Doorway<'_, L, R> {
    const MAY_WAIT: bool = true;

    ghost LetThrough = { λ who search letter. Unit {0} };

    fn pass(&self, who: &Entity, search: u64, letter: u64) {
        match self.way {
            Way::Meet(meeting) | Way::MeetFirst(meeting) if letter == 1 => meeting.meet(self.rt),
            Way::End(over) if search == 1 && letter == 1 => {
                end_first(self.rt, self.desk, self.authority, *who, over)
            }
            Way::TakeTurns(turns) => turns.note(search),
            Way::Stay(stay) => stay.pass(self.rt, search),
            Way::Count(counts) | Way::CountAlone(counts) => {
                if let Some(count) = counts.get(letter as usize) {
                    count.fetch_add(1, Ordering::SeqCst);
                }
            }
            _ => {}
        }
    }
}

/// The gate of a scene for workers who rely on it that no pass waits.
#[derive(Drop)]
pub(super) struct Passage<'a, L: Naming, R>(pub(super) Doorway<'a, L, R>);

impl<L: Naming + Send + Sync, R: Wait + Clock + Sync> Gate for Passage<'_, L, R> {
    const MAY_WAIT: bool = false;

    ghost LetThrough = { λ who search letter. Unit {0} };

    fn pass(&self, who: &Entity, search: u64, letter: u64) {
        self.0.pass(who, search, letter)
    }
}
