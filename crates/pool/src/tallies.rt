//! How many letters workers finished: a ledger of the desk, with a part for each worker.
ghost use Rattle.std.specs.Prelude.{◌≡◌, ◌+◌, ◌-◌, ◌^◌, ◌<◌, min, IfSome};

use crate::keepers::Naming;
use std::marker::{Model, PhantomData};
use std::sync::ledger::{Blank, Book as LedgerBook, Ledger, Share};

/// Into how many parts the ledger is cut: one for each worker that ever runs.
pub(crate) const PARTS: u64 = u64::MAX;

/// The ledger of the letters that a desk's workers finished.
pub(crate) struct Letters<L: Naming>(PhantomData<L>);

impl<L: Naming> Ledger for Letters<L> {
    ghost use Rattle.std.specs.Prelude.{◌-◌, ◌^◌};

    ghost name = { L.letters };

    ghost parts = { 2 ^ 64 - 1 };
}

/// The book of that ledger, and the parts of workers that haven't run yet. Contracts see how many letters the book has.
#[derive(Drop)]
pub(crate) struct Crew<L: Naming> {
    book: LedgerBook<Letters<L>>,
    rest: Share<Letters<L>>,
    hired: u64,
}

impl<L: Naming> Model for Crew<L> {
    ghost use Rattle.std.specs.Prelude.{◌≡◌, ◌+◌, ◌-◌, ◌^◌, ℕ};

    ghost Value = { ℕ };

    ghost view = { λ c. c.book.total };

    ghost invariant = { λ c. (c.rest.parts + c.hired ≡ 2 ^ 64 - 1) × (c.rest.amount ≡ 0) };
}

/// What workers finished. Contracts see of how many workers it is, and how many letters.
#[derive(Drop)]
pub(crate) struct Tally<L: Naming> {
    share: Share<Letters<L>>,
    letters: u64,
}

impl<L: Naming> Model for Tally<L> {
    ghost use Rattle.std.specs.Prelude.{◌≡◌, ◌-◌, ◌^◌, min};
    ghost use Rattle.pool.specs.Workers.{TallyState};

    ghost Value = { TallyState };

    ghost view = { λ t. record { workers = t.share.parts; letters = t.share.amount } };

    ghost invariant = { λ t. t.letters ≡ min t.share.amount (2 ^ 64 - 1) };
}

impl<L: Naming> Crew<L> {
    /// A crew of which nobody has run.
    pub(crate) fn new(blank: Blank) -> Crew<L>
        requires name { blank.name ≡ L.letters }
        requires parts { blank.parts ≡ 2 ^ 64 - 1 }
        ensures { result ≡ 0 }
    {
        let (book, rest) = blank.open::<Letters<L>>();
        Crew {
            book,
            rest,
            hired: 0,
        }
    }

    /// The tally of so many workers that are to run. None where 2^64 workers would have run.
    pub(crate) fn hire(&mut self, workers: u64) -> Option<Tally<L>>
        ensures hired { IfSome result (λ tally. tally ≡ record { workers = workers; letters = 0 }) }
        ensures same { self.new ≡ self.old }
    {
        if workers > PARTS - self.hired {
            return None;
        }
        self.hired += workers;
        Some(Tally {
            share: self.rest.split_off(workers, 0),
            letters: 0,
        })
    }

    /// Counts letters that a worker finished.
    pub(crate) fn count(&mut self, tally: &mut Tally<L>, letters: u64)
        requires { 0 < tally.old.workers }
        ensures tally { tally.new ≡ record tally.old { letters = tally.old.letters + letters } }
        ensures crew { self.new ≡ self.old + letters }
    {
        self.book.add(&mut tally.share, letters);
        tally.letters = tally.letters.saturating_add(letters);
    }
}

impl<L: Naming> Tally<L> {
    /// The tally of one of the workers, before they have finished anything.
    pub(crate) fn one(&mut self) -> Tally<L>
        requires workers { 0 < self.old.workers }
        requires nothing { self.old.letters ≡ 0 }
        ensures one { result ≡ record { workers = 1; letters = 0 } }
        ensures left { self.new ≡ record self.old { workers = self.old.workers - 1 } }
    {
        Tally {
            share: self.share.split_off(1, 0),
            letters: 0,
        }
    }

    /// Takes in what others finished.
    pub(crate) fn take_in(&mut self, other: Tally<L>)
        ensures { self.new ≡ record { workers = self.old.workers + other.workers; letters = self.old.letters + other.letters } }
    {
        let Tally { share, letters } = other;
        self.share.merge(share);
        self.letters = self.letters.saturating_add(letters);
    }

    /// How many letters these are, of which 2^64 - 1 are told at the most.
    pub(crate) fn letters(&self) -> u64
        ensures { result ≡ min self.now.letters (2 ^ 64 - 1) }
    {
        self.letters
    }
}
