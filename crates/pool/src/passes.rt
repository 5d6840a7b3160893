//! The right to call a desk for a tenant.
ghost use Rattle.std.specs.Prelude.{◌≡◌, ◌++◌, ◌∷◌, []};
ghost use mathlib.Core.List.{IsPrefix};
ghost use Rattle.pool.specs.Histories.{own_of, IsLegal, item_of};
ghost use Rattle.pool.specs.Passes.{accepted_in, share_of};

use crate::keepers::{Beginning, Front, Keeper, Naming};
use crate::turns::Noted;
use names::Entity;
use std::marker::Model;
use std::sync::ledger::{Book as LedgerBook, Share};

/// The right to call a desk for a tenant. It has seen a beginning of the history, and its own calls have a name there that no
/// other pass has.
#[derive(Drop)]
pub struct Pass<L: Naming> {
    tenant: Entity,
    front: u64,
    told: u64,
    share: Share<L>,
    seen: Front<L>,
}

impl<L: Naming> Model for Pass<L> {
    ghost use Rattle.std.specs.Prelude.{◌≡◌};
    ghost use Rattle.std.specs.Coded.{codes};
    ghost use Rattle.std.specs.FinMap as fin;
    ghost use Rattle.search.specs.contracts.stages.Stage as running;
    ghost use Rattle.search.specs.contracts.findings.Monitor as memory;
    ghost use Rattle.pool.specs.Histories.{own_of};
    ghost use Rattle.pool.specs.Passes.{PassState, accepted_in};

    ghost Value = { PassState };

    ghost coded = { Prim.hlevel (codes, fin.code, running.the_row.coded, memory.the_row.coded) };

    ghost view = { λ p. record { tenant = p.tenant; name = p.seen.name; seen = p.seen.seen } };

    ghost invariant = { λ p.
        (p.share.parts ≡ 1)
        × (p.told ≡ p.share.amount)
        × (p.share.amount ≡ accepted_in (own_of p.seen.name p.seen.seen))
        × (p.front ≡ accepted_in p.seen.seen) };
}

impl<L: Naming> Pass<L> {
    /// A pass of the tenant that has seen this, and has made no call. The journal has this length then.
    pub(crate) fn new(tenant: Entity, front: u64, share: Share<L>, seen: Front<L>) -> Pass<L>
        requires part { share.parts ≡ 1 }
        requires nothing { share.amount ≡ 0 }
        requires front { front ≡ accepted_in seen.seen }
        requires none { own_of seen.name seen.seen ≡ [] }
        ensures { result ≡ record { tenant = tenant; name = seen.name; seen = seen.seen } }
    {
        Pass {
            tenant,
            front,
            told: 0,
            share,
            seen,
        }
    }

    /// For whom the pass calls.
    pub fn tenant(&self) -> Entity
        ensures { result ≡ self.now.tenant }
    {
        self.tenant
    }

    /// The length of the journal that the pass has seen.
    pub fn front(&self) -> u64
        ensures { result ≡ accepted_in self.now.seen }
    {
        self.front
    }

    /// How many accepted changes the pass was told.
    pub fn share(&self) -> u64
        ensures { result ≡ share_of self.now }
    {
        self.told
    }

    /// What the pass has seen is legal: to each tenant of the roster a run of its own turns.
    pub fn legal(&self)
        ensures { IsLegal L.roster self.now.seen }
    {
        self.seen.is_legal();
    }

    /// The history goes on by a call of the pass, which sees that. The journal had the one length before, and has the other now:
    /// where it is longer, the pass is told of the accepted change.
    pub(crate) fn hear(
        &mut self,
        keeper: &mut Keeper<L>,
        book: &mut LedgerBook<L>,
        noted: &Noted,
        before: u64,
        after: u64,
    )
        requires legal { IsLegal L.roster (keeper.old ++ item_of self.old.name noted.now ∷ []) }
        requires total { book.old.total ≡ before }
        requires before { before ≡ accepted_in keeper.old }
        requires after { after ≡ accepted_in (keeper.old ++ item_of self.old.name noted.now ∷ []) }
        ensures began { IsPrefix self.old.seen keeper.old }
        ensures own { own_of self.old.name keeper.new ≡ own_of self.old.name self.old.seen ++ item_of self.old.name noted.now ∷ [] }
        ensures pass { self.new ≡ record self.old { seen = keeper.new } }
        ensures keeper { keeper.new ≡ keeper.old ++ item_of self.old.name noted.now ∷ [] }
        ensures total { book.new.total ≡ after }
    {
        keeper.tell(&mut self.seen, noted);
        book.add(&mut self.share, after - before);
        book.audit(&mut self.share);
        self.told += after - before;
        self.front = after;
    }

    /// Makes no call any more.
    pub fn end(self) -> Ended<L>
        ensures { result ≡ self }
    {
        Ended { pass: self }
    }
}

/// A pass by which no call is made any more. Contracts see it as the pass.
#[derive(Drop)]
pub struct Ended<L: Naming> {
    pass: Pass<L>,
}

impl<L: Naming> Model for Ended<L> {
    ghost use Rattle.std.specs.Coded.{codes};
    ghost use Rattle.std.specs.FinMap as fin;
    ghost use Rattle.search.specs.contracts.stages.Stage as running;
    ghost use Rattle.search.specs.contracts.findings.Monitor as memory;
    ghost use Rattle.pool.specs.Passes.{PassState};

    ghost Value = { PassState };

    ghost coded = { Prim.hlevel (codes, fin.code, running.the_row.coded, memory.the_row.coded) };

    ghost view = { λ e. e.pass };
}

impl<L: Naming> Ended<L> {
    /// Its share, how many accepted changes it was told, and what it had seen.
    pub(crate) fn given_up(self) -> (Share<L>, u64, Beginning<L>)
        ensures part { result.0.parts ≡ 1 }
        ensures amount { result.0.amount ≡ share_of self }
        ensures told { result.1 ≡ share_of self }
        ensures seen { result.2.seen ≡ self.seen }
    {
        let Ended { pass } = self;
        let Pass {
            told,
            share,
            seen,
            ..
        } = pass;
        (share, told, seen.end())
    }
}
