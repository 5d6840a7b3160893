ghost use Rattle.std.specs.Prelude.{◌≡◌, ◌+◌, ◌<◌};
ghost use Rattle.snapshots.specs.Snapshot.{IsOrdered};
ghost use Rattle.snapshots.specs.Span.{is_below, is_cut, place_of, rows_of};
ghost use Rattle.std.specs.List.Sorted.{IsStrictlySortedBy};
ghost use Rattle.credential_text.specs.Credential.{credential_order};
ghost use Rattle.vaults.specs.Blocks.{rows_in};

use crate::holdings::Holding;
use crate::snapshots::rows_at;
use crate::spans::Cut;
use names::{Entity, Role};
use std::marker::Model;
use std::sync::ledger::{Book, Ledger, Share};
use vaults::{Row, Rows};

/// A count of comparisons, which takes no bytes. Seen as a number. What checks a span compares by its methods alone.
#[derive(Drop)]
pub struct Steps<L: Ledger> {
    book: Book<L>,
    share: Share<L>,
}

impl<L: Ledger> Model for Steps<L> {
    ghost use Rattle.std.specs.Prelude.{ℕ, ◌<◌};

    ghost Value = { ℕ };

    ghost view = { λ s. s.book.total };

    ghost invariant = { λ s. 0 < s.share.parts };
}

impl<L: Ledger> Steps<L> {
    /// A count that goes on from the book's total; the share needs a part for what is added.
    pub fn new(book: Book<L>, share: Share<L>) -> Steps<L>
        requires { 0 < share.parts }
        ensures { result ≡ book.total }
    {
        Steps { book, share }
    }

    /// One step more.
    fn tick(&mut self)
        ensures { self.new ≡ self.old + 1 }
    {
        self.book.add(&mut self.share, 1);
    }

    /// Whether the row stands before the cut.
    pub(crate) fn passes(&mut self, cut: Cut, role: &Role, row: &Row) -> bool
        ensures passes { result ≡ is_cut cut role.now row.now }
        ensures counted { self.new ≡ self.old + 1 }
    {
        self.tick();
        cut.passes(role, row)
    }

    /// Whether the vault stands before those of the owner.
    pub(crate) fn is_below(&mut self, holding: &Holding, owner: &Entity) -> bool
        ensures below { result ≡ is_below owner.now holding.now }
        ensures counted { self.new ≡ self.old + 1 }
    {
        self.tick();
        holding.owner().compare(owner).is_lt()
    }

    /// The rows of the owner's vault, which stands at this place if it stands anywhere.
    pub(crate) fn rows_at<'a>(
        &mut self,
        vaults: &'a [Holding],
        owner: &Entity,
        place: u64,
    ) -> Rows<'a>
        requires ordered { IsOrdered vaults.now }
        requires place { place ≡ place_of vaults.now owner.now }
        ensures rows { rows_in result ≡ rows_of vaults.now owner.now }
        ensures sorted { IsStrictlySortedBy credential_order (rows_of vaults.now owner.now) }
        ensures counted { self.new ≡ self.old + 1 }
    {
        self.tick();
        rows_at(vaults, owner, place)
    }
}
