//! A tenant's seat: its limits, and the searches that it has opened and not ended.
ghost use Rattle.std.specs.Prelude.{◌≡◌, ℕ, ◌≢◌, ◌+◌, ◌<◌, None, Some, length, unwrap_or, option_map, IfOk, IfErr, OnOk, OnErr};
ghost use Rattle.std.specs.FinMap.{get, insert, remove, len};
ghost use Rattle.vaults.specs.Journal.{entries_of, vault, grant_count, refusal, view};
ghost use Rattle.hall.specs.declared.faults.Fault.TheVariants as faults;
ghost use Rattle.hall.specs.{Fault.vault_fault, Answers.alter_refusal, Answers.seek_refusal};
ghost use Rattle.std.specs.Arc.{arc_value};
ghost use Rattle.search.specs.Search.{new_search};
ghost use Rattle.hall.specs.Hall.{Running, IsSoundSearch, account, beginning, new_tenant};
ghost use Rattle.hall.specs.Kept.{Lists, KeepsBut};

use crate::faults::Fault;
use crate::lendable_searches::LendableSearch;
use crate::open_searches::OpenSearch;
use crate::picking::{Busy, enter};
use crate::places::place_of;
use crate::remains::Remains;
use indexmap::IndexMap;
use names::Entity;
use quotas::{Limits, Used};
use search::{Query, Search, Tables};
use snapshots::Snapshot;
use std::alloc::Global;
use std::marker::Model;
use std::sync::Arc;
use vaults::{Book, Change};

/// A tenant's limits, how many searches it has opened, and those that it has not ended by their numbers.
pub(crate) struct Seat {
    limits: Limits,
    opens: u64,
    pub(crate) searches: IndexMap<u64, OpenSearch>,
    // Where the search stands that was lent last.
    pub(crate) hand: usize,
}

// By hand, so that who holds one drops it by one call, whose proof stands here.
impl Drop for Seat {
    fn drop(self) {
        let Seat {
            limits: _,
            opens: _,
            searches: _searches,
            hand: _,
        } = self;
    }
}

impl Model for Seat {
    ghost use Rattle.std.specs.{Coded.codes, FinMap.from_entries};
    ghost use Rattle.std.specs.FinMap as fin;
    ghost use Rattle.search.specs.contracts.stages.Stage as running;
    ghost use Rattle.search.specs.contracts.findings.Monitor as memory;
    ghost use Rattle.hall.specs.Hall.{Tenant};

    ghost Value = { Tenant };

    ghost coded = { Prim.hlevel (codes, fin.code, running.the_row.coded, memory.the_row.coded) };

    ghost view = { λ s. record { limits = s.limits; opens = s.opens; searches = from_entries s.searches.entries } };
}

impl Seat {
    /// The seat of a tenant that has done nothing.
    pub(crate) fn new(alloc: Global, limits: Limits) -> Seat
        ensures { result ≡ new_tenant limits }
    {
        Seat {
            limits,
            opens: 0,
            searches: IndexMap::new(alloc),
            hand: 0,
        }
    }

    /// Whether the limits allow the change: 44 of all changes, then 41 of an upload and 42 of a grant to one reader or to all.
    pub(crate) fn may_alter(&self, book: &Book, who: &Entity, change: &Change) -> Result<(), Fault>
        ensures allowed { OnOk result (alter_refusal (account book.now who.now self.now) who.now change.now
            ≡ option_map vault_fault (refusal book.now who.now change.now)) }
        ensures refused { IfErr result (λ f. alter_refusal (account book.now who.now self.now) who.now change.now ≡ Some f) }
    {
        let used = self.used(book, who);
        self.limits.may_change(&used)?;
        match change {
            Change::Upload(_) => self.limits.may_hold(&used)?,
            Change::Grant(_) | Change::GrantAll => self.limits.may_grant(&used)?,
            Change::Withdraw(_) | Change::Revoke(_) | Change::RevokeAll => {}
        }
        Ok(())
    }

    /// Opens a search over what the tenant sees now, and answers its number. The order of refusals: 43, 45, and want of
    /// memory, where its number may stay among those that may go on.
    pub(crate) fn open(
        &mut self,
        alloc: Global,
        book: &mut Book,
        busy: &mut Busy,
        who: Entity,
        query: Query,
        spare: &mut Tables,
    ) -> Result<u64, Fault>
        requires { (k : ℕ) (r : Running) → get self.old.searches k ≡ Some r → IsSoundSearch book.old who self.old.limits r }
        ensures allowed { OnOk result (seek_refusal (account book.old who self.old) ≡ None) }
        ensures number { IfOk result (λ n. n ≡ self.old.opens + 1) }
        ensures opened { IfOk result (λ n. self.new ≡ record self.old {
          opens = n;
          searches = insert self.old.searches n (beginning book.old who query self.old.limits.work);
        }) }
        ensures refused { IfErr result (λ f. f ≡ unwrap_or (seek_refusal (account book.old who self.old)) faults.Memory) }
        ensures unchanged { OnErr result (self.new ≡ self.old) }
        ensures same { book.new ≡ book.old }
        ensures entered { IfOk result (λ n. Lists busy.new who n) }
        ensures kept { KeepsBut (λ name k. ⊥) busy.old busy.new }
    {
        let used = self.used(book, &who);
        self.limits.may_search(&used)?;
        self.limits.may_open(&used)?;
        let number = self.opens + 1;
        enter(busy, who, number)?;
        let work = self.limits.work();
        let snapshot = self.sight(alloc, book, who)?;
        let opened_at = book.journal_len();
        give_back(&mut self.searches, self.opens, spare);
        self.searches.insert(
            number,
            begin(alloc, opened_at, snapshot, query, work, spare)?,
        )?;
        self.opens = number;
        Ok(number)
    }

    /// What the tenant sees now. Where nothing was changed since the search was opened that it opened last, that reads the same.
    fn sight(&self, alloc: Global, book: &mut Book, who: Entity) -> Result<Arc<Snapshot>, Fault>
        requires { (k : ℕ) (r : Running) → get self.now.searches k ≡ Some r → IsSoundSearch book.old who self.now.limits r }
        ensures view { IfOk result (λ s. arc_value s ≡ record { asker = who; vaults = view book.old who }) }
        ensures only_memory { IfErr result (λ f. f ≡ Fault.Memory) }
        ensures same { book.new ≡ book.old }
    {
        match self.searches.get(&self.opens) {
            Some(last) if last.opened_at == book.journal_len() => {
                Ok(last.carried.search().snapshot().clone()?)
            }
            _ => Ok(Arc::new(alloc, Snapshot::take(alloc, book, who)?)?),
        }
    }

    /// Whether the search of the number goes on. Where there is none, its number may stand among those that do.
    pub(crate) fn goes_on(&self, number: u64) -> bool {
        match self
            .searches
            .get_index(place_of(&self.searches, self.hand, &number))
        {
            Some((_number, opened)) => opened.carried.search().is_outstanding(),
            None => true,
        }
    }

    /// Ends the search of the number. A small one leaves its tables as spare ones, and what is left of another is handed out. Where
    /// there is none the refusal is 51.
    pub(crate) fn end(&mut self, number: u64, spare: &mut Tables) -> Result<Option<Remains>, Fault>
        ensures there { OnOk result (get self.old.searches number ≢ None) }
        ensures ended { OnOk result (self.new ≡ record self.old { searches = remove self.old.searches number }) }
        ensures refused { IfErr result (λ f. (f ≡ faults.NoSuchSearch) × (get self.old.searches number ≡ None)) }
        ensures unchanged { OnErr result (self.new ≡ self.old) }
    {
        let Some(ended) = self.searches.swap_remove(&number) else {
            return Err(Fault::NoSuchSearch);
        };
        Ok(Remains::of(ended).unless_small(spare))
    }

    /// Ends the search of the number as `end` does, and leaves its tables as spare ones, however large it is.
    pub(crate) fn end_in(&mut self, number: u64, spare: &mut Tables) -> Result<(), Fault>
        ensures there { OnOk result (get self.old.searches number ≢ None) }
        ensures ended { OnOk result (self.new ≡ record self.old { searches = remove self.old.searches number }) }
        ensures refused { IfErr result (λ f. (f ≡ faults.NoSuchSearch) × (get self.old.searches number ≡ None)) }
        ensures unchanged { OnErr result (self.new ≡ self.old) }
    {
        let Some(ended) = self.searches.swap_remove(&number) else {
            return Err(Fault::NoSuchSearch);
        };
        Remains::of(ended).leave_tables(spare);
        Ok(())
    }

    /// What the tenant uses of its limits, by its account.
    #[tactic(auto, using(vaults::proofs::Exactness::vaults_own, vaults::proofs::Exactness::grant_counts_own))]
    fn used(&self, book: &Book, who: &Entity) -> Used
        ensures creds { result.creds ≡ length (vault (entries_of who.now book.now) who.now) }
        ensures grants { result.grants ≡ grant_count (entries_of who.now book.now) who.now }
        ensures searches { result.searches ≡ len (account book.now who.now self.now).searches }
        ensures changes { result.changes ≡ length (entries_of who.now book.now) }
        ensures opens { result.opens ≡ self.now.opens }
    {
        let counts = book.used_by(who);
        Used {
            creds: counts.creds,
            grants: counts.grants,
            searches: self.searches.len() as u64,
            changes: counts.changes,
            opens: self.opens,
        }
    }
}

/// The search of the number, which another one follows, keeps no more room than it needs, and leaves the tables of its letters.
fn give_back(searches: &mut IndexMap<u64, OpenSearch>, number: u64, spare: &mut Tables)
    ensures { searches.new.entries ≡ searches.old.entries }
{
    if let Some(opened) = searches.get_mut(&number) {
        opened.give_back(spare);
    }
}

/// A search over the snapshot, which may send so many letters. It takes the spare tables.
fn begin(
    alloc: Global,
    opened_at: u64,
    snapshot: Arc<Snapshot>,
    query: Query,
    work: u64,
    spare: &mut Tables,
) -> Result<OpenSearch, Fault>
    requires { 0 < work }
    ensures begun { IfOk result (λ opened. opened
        ≡ record { opened_at = opened_at; search = new_search query work (arc_value snapshot) }) }
    ensures only_memory { IfErr result (λ f. f ≡ Fault.Memory) }
{
    let carried = LendableSearch::Own(Search::open_in(spare, alloc, snapshot, query, work)?);
    Ok(OpenSearch { opened_at, carried })
}
