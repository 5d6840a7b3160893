ghost use Rattle.std.specs.Prelude.{◌≡◌, ◌++◌, ◌+◌, ◌<◌, ◌^◌, ℕ, List, [], ◌∷◌, None, length, unwrap_or};
ghost use Rattle.std.specs.Prelude.{true, false, IsSome, IsOk, IfOk, IfErr, OnOk, OnErr};
ghost use Rattle.std.specs.BTreeMap.{get};
ghost use Rattle.names.specs.Name.{name_order};
ghost use Rattle.vaults.specs.Journal.{entries_of, holds, granted, is_public, reads, revokes, refusal, AreAccepted};
ghost use Rattle.vaults.specs.Journal.{vault, grant_count, marked_names, uploaded};
ghost use Rattle.vaults.specs.Page.{page_at, page_fault, is_due};
ghost use Rattle.vaults.specs.Version.{version_rows};
ghost use Rattle.vaults.specs.Book.{early_refusal, is_granting, is_listed, KeepsChange, IsUnchanged, KeepsGift, SameGifts, EndsGift};
ghost use Rattle.vaults.specs.Owed.{gives};
ghost use Rattle.vaults.specs.declared.changes.Change.TheVariants.{Grant, Revoke, GrantAll};

use crate::changes::Change;
use crate::entries::Entries;
use crate::faults::VaultFault;
use crate::journals::Journal;
use crate::marks::Seen;
use crate::merges::merged;
use crate::name_sets::NameSet;
use crate::pages::Page;
use crate::versions::Version;
use credential_text::Credential;
use names::Entity;
use std::alloc::{AllocError, Global};
use std::collections::BTreeMap;
use std::marker::Model;
use std::sync::Arc;

/// How many credentials a tenant holds, how many of its grants stand, and how many of its changes were accepted.
#[derive(Clone, Copy)]
pub struct Counts {
    pub creds: u64,
    pub grants: u64,
    pub changes: u64,
}

/// The journal of accepted changes, and seen as it. Beside the journal it keeps a page for each tenant with what the
/// journal gives it, for each reader those that have granted it, and those whose vaults are public, so that no call walks
/// over the journal, nor over all tenants.
pub struct Book {
    alloc: Global,
    journal: Journal,
    pages: BTreeMap<Entity, Page>,
    granting: BTreeMap<Entity, NameSet>,
    public: NameSet,
}

impl Model for Book {
    ghost use Rattle.std.specs.Prelude.{List};
    ghost use Rattle.vaults.specs.declared.changes.Entry.{Entry};
    ghost use Rattle.vaults.specs.Book.{IsBook};

    ghost Value = { List Entry };

    ghost view = { λ b. b.journal.kept.0 };

    ghost invariant = { λ b. IsBook b.journal.kept.0 b.pages b.granting b.public };
}

// By hand, so that who holds one drops it by one call, whose proof stands here.
impl Drop for Book {
    fn drop(self) {
        let Book {
            alloc: _alloc,
            journal: _journal,
            pages: _pages,
            granting: _granting,
            public: _public,
        } = self;
    }
}

impl Book {
    /// A book with no entry.
    pub fn new(alloc: Global) -> Book
        ensures { result ≡ [] }
    {
        Book {
            alloc,
            journal: Journal::new(alloc),
            pages: BTreeMap::new(alloc),
            granting: BTreeMap::new(alloc),
            public: NameSet::new(alloc),
        }
    }

    /// Enters the change of the tenant, and answers how many of its changes were accepted so far. The order of
    /// refusals: 31 and 32 of an upload, 31 and 33 of a withdrawal, 36 and 34 of a grant to one reader, 34 of one to all,
    /// 35 of a revocation, and want of memory after these. A revocation never lacks memory: what it needs was taken with
    /// the grant.
    pub fn change(&mut self, who: Entity, change: Change) -> Result<u64, VaultFault>
        ensures accepted { OnOk result (refusal self.old who change ≡ None) }
        ensures entered { OnOk result (self.new ≡ self.old ++ record { tenant = who; change = change } ∷ []) }
        ensures counted { IfOk result (λ n. n ≡ length (entries_of who self.new)) }
        ensures refused { IfErr result (λ f. f ≡ unwrap_or (refusal self.old who change) VaultFault.Memory) }
        ensures unchanged { OnErr result (self.new ≡ self.old) }
        ensures revocable { revokes change ≡ true → refusal self.old who change ≡ None → IsOk result }
    {
        self.enter(who, &change)
    }

    /// Enters a change that stays the caller's, as `change` does. An upload's row is looked up where it is put.
    pub fn enter(&mut self, who: Entity, change: &Change) -> Result<u64, VaultFault>
        ensures accepted { OnOk result (refusal self.old who change.now ≡ None) }
        ensures entered { OnOk result (self.new ≡ self.old ++ record { tenant = who; change = change.now } ∷ []) }
        ensures counted { IfOk result (λ n. n ≡ length (entries_of who self.new)) }
        ensures refused { IfErr result (λ f. f ≡ unwrap_or (refusal self.old who change.now) VaultFault.Memory) }
        ensures unchanged { OnErr result (self.new ≡ self.old) }
        ensures revocable { revokes change.now ≡ true → refusal self.old who change.now ≡ None → IsOk result }
    {
        if let Some(fault) = self.early_refusal_of(&who, change) {
            return Err(fault);
        }
        if let Err(lack) = self.journal.prepare(&who, change) {
            return Err(self.refusal_of(&who, change).unwrap_or(lack.into()));
        }
        let count = keep(
            self.alloc,
            &mut self.pages,
            &mut self.granting,
            &mut self.public,
            who,
            change,
        )?;
        self.journal.enter(&who, change);
        Ok(count)
    }

    /// The refusal that the change of the tenant is due, if there is one; want of memory is none.
    pub fn refusal_of(&self, who: &Entity, change: &Change) -> Option<VaultFault>
        ensures { result ≡ refusal self.now who.now change.now }
    {
        match change {
            Change::Upload(credential)
                if credential.head.owner == *who && self.holds(who, credential) => {
                Some(VaultFault::AlreadyHeld)
            }
            _ => self.early_refusal_of(who, change),
        }
    }

    /// The refusal that the change is due before its rows are looked at.
    fn early_refusal_of(&self, who: &Entity, change: &Change) -> Option<VaultFault>
        ensures { result ≡ early_refusal self.now who.now change.now }
    {
        let fault = match change {
            Change::Upload(credential) if credential.head.owner != *who => VaultFault::NotIssuer,
            Change::Withdraw(credential) if credential.head.owner != *who => VaultFault::NotIssuer,
            Change::Withdraw(credential) if !self.holds(who, credential) => VaultFault::NotHeld,
            Change::Grant(reader) if *reader == *who => VaultFault::GrantSelf,
            Change::Grant(reader) if self.grants(who, reader) => VaultFault::AlreadyGranted,
            Change::Revoke(reader) if *reader == *who || !self.grants(who, reader) => {
                VaultFault::NotGranted
            }
            Change::GrantAll if self.is_public(who) => VaultFault::AlreadyGranted,
            Change::RevokeAll if !self.is_public(who) => VaultFault::NotGranted,
            _ => return None,
        };
        Some(fault)
    }

    /// Whether the owner holds the credential.
    fn holds(&self, owner: &Entity, credential: &Credential) -> bool
        ensures { result ≡ holds self.now owner.now credential.now }
    {
        match self.pages.get(owner) {
            Some(page) => page.has_row(credential),
            None => false,
        }
    }

    /// Whether the owner has granted the reader.
    fn grants(&self, owner: &Entity, reader: &Entity) -> bool
        ensures { result ≡ granted self.now owner.now reader.now }
    {
        match self.pages.get(owner) {
            Some(page) => page.has_reader(reader),
            None => false,
        }
    }

    /// Whether the owner's vault is public.
    fn is_public(&self, owner: &Entity) -> bool
        ensures { result ≡ is_public self.now owner.now }
    {
        self.public.has(owner)
    }

    /// Whether the tenant reads the owner's vault: its own, those that it is granted, and those that are public.
    pub fn readable(&self, who: Entity, owner: Entity) -> bool
        ensures { result ≡ reads self.now who owner }
    {
        owner == who || self.grants(&owner, &who) || self.is_public(&owner)
    }

    /// The version of the owner's vault, to be held by others too: no row is copied, and whatever becomes of the vault,
    /// it keeps its rows.
    pub fn version_of(&mut self, owner: Entity) -> Result<Option<Arc<Version>>, VaultFault>
        ensures rows { IfOk result (λ version. version_rows version ≡ vault self.old owner) }
        ensures only_memory { IfErr result (λ f. f ≡ VaultFault.Memory) }
        ensures same { self.new ≡ self.old }
    {
        Ok(version_on_page(self.alloc, &mut self.pages, owner)?)
    }

    /// The names whose vaults the tenant reads, in order, its own among them, each with whether its vault is public. Costs
    /// what the tenant reads, however many tenants there are.
    pub fn owners_read_by(&self, who: Entity) -> Result<Vec<Seen>, VaultFault>
        ensures names { IfOk result (λ seen. seen.items ≡ marked_names self.now who) }
        ensures only_memory { IfErr result (λ f. f ≡ VaultFault.Memory) }
    {
        let mut owners = granting_names(self.alloc, &self.granting, &who)?;
        owners.add(&who)?;
        let seen = merged(self.alloc, owners.names(), self.public.names())?;
        Ok(seen)
    }

    /// What the tenant uses of what may be limited, by one look at its page.
    pub fn used_by(&self, who: &Entity) -> Counts
        ensures creds { result.creds ≡ length (vault self.now who.now) }
        ensures grants { result.grants ≡ grant_count self.now who.now }
        ensures changes { result.changes ≡ length (entries_of who.now self.now) }
    {
        let public = u64::from(self.is_public(who));
        match self.pages.get(who) {
            Some(page) => {
                let kept = page.counts();
                Counts {
                    grants: kept.grants + public,
                    ..kept
                }
            }
            None => Counts {
                creds: 0,
                grants: public,
                changes: 0,
            },
        }
    }

    /// How many changes were accepted in all.
    pub fn journal_len(&self) -> u64
        ensures { result ≡ length self.now }
    {
        self.journal.len() as u64
    }

    /// The accepted changes, to be read from the oldest on.
    pub fn entries(&self) -> Entries<'_>
        ensures entries { result ≡ self.now }
        ensures accepted { AreAccepted self.now }
    {
        self.journal.entries(self.alloc)
    }
}

/// Keeps the change on the tenant's page and for the readers that it concerns, and answers how many changes stand on the
/// page. An upload of what is there is refused.
fn keep(
    alloc: Global,
    pages: &mut BTreeMap<Entity, Page>,
    granting: &mut BTreeMap<Entity, NameSet>,
    public: &mut NameSet,
    who: Entity,
    change: &Change,
) -> Result<u64, VaultFault>
    requires fits { (page_at pages.old who).changes + 1 < 2 ^ 64 }
    requires due { uploaded change.now ≡ None → is_due change.now (page_at pages.old who).rows ≡ true }
    requires first { (reader : List ℕ) → change.now ≡ Grant reader → is_granting granting.old who reader ≡ false }
    requires first_for_all { change.now ≡ GrantAll → is_listed public.old who ≡ false }
    ensures kept { OnOk result (KeepsChange who change.now pages.old pages.new) }
    ensures gift { OnOk result (KeepsGift who change.now granting.old granting.new public.old public.new) }
    ensures due { OnOk result (is_due change.now (page_at pages.old who).rows ≡ true) }
    ensures count { IfOk result (λ n. n ≡ (page_at pages.old who).changes + 1) }
    ensures refused { IfErr result (λ f. f ≡ page_fault change.now (page_at pages.old who).rows) }
    ensures unchanged { OnErr result (IsUnchanged pages.old pages.new) }
    ensures same_gifts { OnErr result (SameGifts granting.old granting.new public.old public.new) }
    ensures revocable { revokes change.now ≡ true → IsSome (get name_order pages.old who) → IsOk result }
{
    add_gift(alloc, granting, public, who, change)?;
    let kept = keep_on_page(alloc, pages, who, change);
    // A gift that wasn't kept ends again, as does one that is taken back where that was kept.
    if kept.is_err() == change.gives() {
        end_gift(granting, public, who, change);
    }
    kept
}

/// Keeps for whom the change gives reading, if it gives it, that the owner has given it.
fn add_gift(
    alloc: Global,
    granting: &mut BTreeMap<Entity, NameSet>,
    public: &mut NameSet,
    owner: Entity,
    change: &Change,
) -> Result<(), AllocError>
    ensures kept { OnOk result (gives change.now ≡ true → KeepsGift owner change.now granting.old granting.new public.old public.new) }
    ensures nothing { gives change.now ≡ false → SameGifts granting.old granting.new public.old public.new }
    ensures unchanged { OnErr result (SameGifts granting.old granting.new public.old public.new) }
    ensures growth { OnErr result ((gives change.now ≡ true) × (uploaded change.now ≡ None)) }
{
    match change {
        Change::Grant(reader) => match granting.get_mut(reader) {
            Some(owners) => owners.add(&owner),
            None => {
                let mut owners = NameSet::new(alloc);
                owners.add(&owner)?;
                granting.insert(*reader, owners)?;
                Ok(())
            }
        },
        Change::GrantAll => public.add(&owner),
        _ => Ok(()),
    }
}

/// Keeps for whom the change gives reading or takes it back that the owner gives it no longer.
fn end_gift(
    granting: &mut BTreeMap<Entity, NameSet>,
    public: &mut NameSet,
    owner: Entity,
    change: &Change,
)
    ensures { EndsGift owner change.now granting.old granting.new public.old public.new }
{
    match change {
        Change::Grant(reader) | Change::Revoke(reader) => {
            if let Some(owners) = granting.get_mut(reader) {
                owners.remove(&owner);
            }
        }
        Change::GrantAll | Change::RevokeAll => public.remove(&owner),
        Change::Upload(_) | Change::Withdraw(_) => {}
    }
}

/// Those that have granted the reader.
fn granting_names(
    alloc: Global,
    granting: &BTreeMap<Entity, NameSet>,
    reader: &Entity,
) -> Result<NameSet, AllocError>
    ensures { IfOk result (λ names. names ≡ unwrap_or (get name_order granting.now reader.now) []) }
{
    match granting.get(reader) {
        Some(owners) => owners.try_clone(),
        None => Ok(NameSet::new(alloc)),
    }
}

/// Keeps the change on the tenant's page, and answers how many changes stand there. An upload of what is there is refused.
fn keep_on_page(
    alloc: Global,
    pages: &mut BTreeMap<Entity, Page>,
    who: Entity,
    change: &Change,
) -> Result<u64, VaultFault>
    requires fits { (page_at pages.old who).changes + 1 < 2 ^ 64 }
    requires due { uploaded change.now ≡ None → is_due change.now (page_at pages.old who).rows ≡ true }
    ensures kept { OnOk result (KeepsChange who change.now pages.old pages.new) }
    ensures due { OnOk result (is_due change.now (page_at pages.old who).rows ≡ true) }
    ensures count { IfOk result (λ n. n ≡ (page_at pages.old who).changes + 1) }
    ensures refused { IfErr result (λ f. f ≡ page_fault change.now (page_at pages.old who).rows) }
    ensures unchanged { OnErr result (IsUnchanged pages.old pages.new) }
    ensures revocable { revokes change.now ≡ true → IsSome (get name_order pages.old who) → IsOk result }
{
    match pages.get_mut(&who) {
        Some(page) => page.keep(change),
        None => {
            let mut page = Page::new(alloc);
            let count = page.keep(change)?;
            match pages.insert(who, page) {
                Ok(_none) => Ok(count),
                Err(refused) => Err(AllocError::from(refused).into()),
            }
        }
    }
}

/// The version of the rows on the owner's page.
fn version_on_page(
    alloc: Global,
    pages: &mut BTreeMap<Entity, Page>,
    owner: Entity,
) -> Result<Option<Arc<Version>>, AllocError>
    ensures rows { IfOk result (λ version. version_rows version ≡ (page_at pages.old owner).rows) }
    ensures unchanged { IsUnchanged pages.old pages.new }
{
    match pages.get_mut(&owner) {
        Some(page) => page.version(alloc),
        None => Ok(None),
    }
}
