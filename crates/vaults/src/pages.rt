ghost use Rattle.std.specs.Prelude.{◌≡◌, ◌+◌, ◌<◌, ◌^◌, true, false, None, IsOk, IfOk, IfErr, OnOk, OnErr, length};
ghost use Rattle.std.specs.List.{list_any};
ghost use Rattle.std.specs.Ordering.{eq_by_cmp};
ghost use Rattle.names.specs.Name.{name_order};
ghost use Rattle.credential_text.specs.Credential.{credential_order};
ghost use Rattle.vaults.specs.Journal.{revokes, uploaded};
ghost use Rattle.vaults.specs.Version.{version_rows};
ghost use Rattle.vaults.specs.Page.{empty_page, page_after, page_fault, rows_after, is_due};
ghost use Rattle.vaults.specs.declared.changes.Change.TheVariants.{Upload};

use crate::books::Counts;
use crate::changes::Change;
use crate::faults::VaultFault;
use crate::name_sets::NameSet;
use crate::own_rows::OwnRows;
use crate::versions::Version;
use credential_text::Credential;
use names::Entity;
use std::alloc::{AllocError, Global};
use std::marker::Model;
use std::sync::Arc;

/// What is kept of one tenant beside the journal: the rows of its vault, and the version of them where they were shared since
/// their last change, its readers, in order, and how many of its changes were accepted.
pub struct Page {
    version: Option<Arc<Version>>,
    own: OwnRows,
    readers: NameSet,
    changes: u64,
}

impl Model for Page {
    ghost use Rattle.vaults.specs.Version.{IsCurrent};
    ghost use Rattle.vaults.specs.Page.{PageState};

    ghost Value = { PageState };

    ghost view = { λ p. record { rows = p.own; readers = p.readers; changes = p.changes } };

    ghost invariant = { λ p. IsCurrent p.version p.own };
}

// By hand, so that who holds one drops it by one call, whose proof stands here.
impl Drop for Page {
    fn drop(self) {
        let Page {
            version: _version,
            own: _own,
            readers: _readers,
            changes: _changes,
        } = self;
    }
}

impl Page {
    /// The page of a tenant without a change.
    pub fn new(alloc: Global) -> Page
        ensures { result ≡ empty_page }
    {
        Page {
            version: None,
            own: OwnRows::new(alloc),
            readers: NameSet::new(alloc),
            changes: 0,
        }
    }

    /// How many rows the tenant's vault has, how many readers there are, and how many of its changes were accepted.
    pub fn counts(&self) -> Counts
        ensures creds { result.creds ≡ length self.now.rows }
        ensures grants { result.grants ≡ length self.now.readers }
        ensures fits { result.grants < 2 ^ 63 }
        ensures changes { result.changes ≡ self.now.changes }
    {
        Counts {
            creds: self.own.len() as u64,
            grants: self.readers.len() as u64,
            changes: self.changes,
        }
    }

    /// The version of the tenant's vault, to be held by others too; none where the vault is empty.
    pub fn version(&mut self, alloc: Global) -> Result<Option<Arc<Version>>, AllocError>
        ensures version { IfOk result (λ version. version_rows version ≡ self.old.rows) }
        ensures same { self.new ≡ self.old }
    {
        if self.own.len() == 0 {
            return Ok(None);
        }
        if self.version.is_none() {
            let version = self.own.version()?;
            self.version = Some(Arc::new(alloc, version)?);
        }
        self.version.clone()
    }

    /// Whether the credential is a row of the tenant's vault.
    pub fn has_row(&self, credential: &Credential) -> bool
        ensures { result ≡ list_any (eq_by_cmp credential_order credential.now) self.now.rows }
    {
        self.own.has(credential)
    }

    /// Whether the reader is among those of the tenant.
    pub fn has_reader(&self, reader: &Entity) -> bool
        ensures { result ≡ list_any (eq_by_cmp name_order reader.now) self.now.readers }
    {
        self.readers.has(reader)
    }

    /// Keeps one change more, and answers how many there are. An upload of what is there is refused.
    pub fn keep(&mut self, change: &Change) -> Result<u64, VaultFault>
        requires fits { self.old.changes + 1 < 2 ^ 64 }
        requires due { uploaded change.now ≡ None → is_due change.now self.old.rows ≡ true }
        ensures kept { OnOk result (self.new ≡ page_after change.now self.old) }
        ensures due { OnOk result (is_due change.now self.old.rows ≡ true) }
        ensures count { IfOk result (λ n. n ≡ self.old.changes + 1) }
        ensures refused { IfErr result (λ f. f ≡ page_fault change.now self.old.rows) }
        ensures revocable { revokes change.now ≡ true → IsOk result }
        ensures unchanged { OnErr result (self.new ≡ self.old) }
    {
        match change {
            Change::Upload(credential) => self.put(credential)?,
            Change::Withdraw(credential) => {
                self.version = None;
                self.own.take_out(credential)?;
            }
            Change::Grant(reader) => self.readers.add(reader)?,
            Change::Revoke(reader) => self.readers.remove(reader),
            Change::GrantAll | Change::RevokeAll => {}
        }
        self.changes += 1;
        Ok(self.changes)
    }

    /// Puts the credential into its place among the rows. Where it is there, what was shared stays. Else that goes first,
    /// since the block that takes the row would have to be copied.
    fn put(&mut self, credential: &Credential) -> Result<(), VaultFault>
        ensures put { OnOk result (self.new ≡ record self.old { rows = rows_after (Upload credential.now) self.old.rows }) }
        ensures due { OnOk result (is_due (Upload credential.now) self.old.rows ≡ true) }
        ensures refused { IfErr result (λ f. f ≡ page_fault (Upload credential.now) self.old.rows) }
        ensures unchanged { OnErr result (self.new ≡ self.old) }
    {
        if self.version.is_some() && self.own.has(credential) {
            return Err(VaultFault::AlreadyHeld);
        }
        self.version = None;
        if self.own.put(credential)? {
            Ok(())
        } else {
            Err(VaultFault::AlreadyHeld)
        }
    }
}
