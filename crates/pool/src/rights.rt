//! Rights over a desk, which none of its calls has: to let in at it, and to stop it.
ghost use Rattle.std.specs.Prelude.{◌≡◌};

use crate::keepers::Naming;
use std::marker::PhantomData;
use std::sync::ledger::{Blank, Ledger, Total};

/// How many parts the ledger has whose total is an authority.
pub(crate) const PARTS: u64 = 1;

/// A ledger of which nothing is known but its name: who has its total has the blank of that name no more, and nobody else had it.
struct Rights<L: Naming>(PhantomData<L>);

impl<L: Naming> Ledger for Rights<L> {
    ghost name = { L.rights };

    ghost parts = { 1 };
}

/// The right to let in at a desk and to stop it. There is one for a desk, which is made with it, and no call by a pass has it.
#[derive(Drop)]
pub struct Authority<L: Naming> {
    total: Total<Rights<L>>,
}

/// The right to be let in at a desk, once.
#[derive(Drop)]
pub struct Admission<L: Naming> {
    of: PhantomData<L>,
}

impl<L: Naming> Authority<L> {
    /// The authority that the type's parameter names.
    pub(crate) fn of(blank: Blank) -> Authority<L>
        requires name { blank.name ≡ L.rights }
        requires parts { blank.parts ≡ PARTS }
    {
        let (book, _share) = blank.open::<Rights<L>>();
        Authority {
            total: book.close(),
        }
    }

    /// The right to be let in, once.
    pub fn admission(&self) -> Admission<L> {
        let _total = &self.total;
        Admission { of: PhantomData }
    }
}
