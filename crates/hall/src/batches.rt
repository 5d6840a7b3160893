//! Letters of one search that are taken in a row, looked up elsewhere, and handed in together.
ghost use Rattle.std.specs.Prelude.{◌≡◌, ◌+◌, ◌<◌, ◌≤◌, [], length, MatchOption, IfOk};

use names::Entity;
use search::{Hint, Need};
use snapshots::Snapshot;
use std::alloc::{AllocError, Global};
use std::marker::Model;
use std::sync::Arc;

/// A letter with what it needs, and with what was looked up for it.
#[derive(Clone, Copy)]
pub(crate) struct HeldLetter {
    pub(crate) letter: u64,
    pub(crate) need: Need,
    pub(crate) hint: Hint,
}

impl HeldLetter {
    ghost use Rattle.search.specs.Finish.{right_hint};

    /// Looks up what the letter needs.
    #[inline(always)]
    fn look_up(&mut self, snapshot: &Snapshot)
        ensures { self.new ≡ record self.old { hint = right_hint snapshot.now.vaults self.old.need } }
    {
        match &self.need {
            Need::Rows(role) => self.hint = Hint::Rows(snapshot.find(role)),
            Need::Nothing => self.hint = Hint::Nothing,
        }
    }
}

/// A search as its keeper names it, and what it reads.
#[derive(Drop)]
pub(crate) struct NamedSearch {
    pub(crate) who: Entity,
    pub(crate) number: u64,
    pub(crate) snapshot: Arc<Snapshot>,
}

/// Letters of one search that somebody took in a row, with what they are to be looked up in. They are spent by handing them
/// in. The room is used again.
pub struct Batch {
    pub(crate) of: Option<NamedSearch>,
    pub(crate) held_letters: Vec<HeldLetter>,
    pub(crate) looked: usize,
}

impl Model for Batch {
    ghost use Rattle.std.specs.Prelude.{map, option_map, vec_capacity};
    ghost use Rattle.hall.specs.Batches.{BatchState, IsBatch, letter_of, named};

    ghost Value = { BatchState };

    ghost view = { λ b. record {
      of = option_map named b.of;
      letters = map letter_of b.held_letters.items;
      looked = b.looked;
      room = vec_capacity b.held_letters;
    } };

    ghost invariant = { λ b. IsBatch b.of b.held_letters.items b.looked };
}

impl Batch {
    ghost use Rattle.std.specs.Prelude.{None, Some, option_map, slice_get};
    ghost use Rattle.hall.specs.Batches.{IsEmpty, IsLookedUp, name_of};

    /// No letter, with room for so many.
    pub fn make(alloc: Global, room: usize) -> Result<Batch, AllocError>
        ensures empty { IfOk result IsEmpty }
        ensures room { IfOk result (λ b. room ≤ b.room) }
    {
        let held_letters = Vec::with_capacity(alloc, room)?;
        Ok(Batch {
            of: None,
            held_letters,
            looked: 0,
        })
    }

    /// Whose search the letters are of, and its number.
    pub fn search(&self) -> Option<(Entity, u64)>
        ensures is { result ≡ option_map name_of self.now.of }
        ensures empty { result ≡ None → IsEmpty self.now }
    {
        match &self.of {
            Some(of) => Some((of.who, of.number)),
            None => None,
        }
    }

    /// The number of the letter that is to be looked up next.
    pub fn next(&self) -> Option<u64>
        ensures { MatchOption result (IsLookedUp self.now)
            (λ letter. (need : Need) × (slice_get self.now.letters self.now.looked ≡ Some (letter, need))) }
    {
        let held_letter = self.held_letters.get(self.looked)?;
        Some(held_letter.letter)
    }

    /// Looks up what the next letter needs, in the snapshot of its search.
    pub fn look_up(&mut self)
        requires { self.old.looked < length self.old.letters }
        ensures { self.new ≡ record self.old { looked = self.old.looked + 1 } }
    {
        let Some(of) = &self.of else { unreachable!() };
        self.held_letters[self.looked].look_up(&of.snapshot);
        self.looked += 1;
    }

    /// Lets the letters go, once their search has them back or is there no longer.
    #[inline(never)]
    pub fn let_go(&mut self)
        ensures empty { IsEmpty self.new }
        ensures room { self.new.room ≡ self.old.room }
    {
        self.of = None;
        self.held_letters.clear();
        self.looked = 0;
    }

    /// Gives the room back.
    pub fn destroy_empty(self)
        requires { self.letters ≡ [] }
    {
        let Batch {
            of: _of,
            held_letters,
            looked: _looked,
        } = self;
        held_letters.destroy_empty();
    }
}
