ghost use Rattle.std.specs.Prelude.{◌≡◌, not, true, false, [], length, OnOk, OnErr, IfOk};
ghost use Rattle.std.specs.List.{list_any};
ghost use Rattle.std.specs.BTreeSet.{insert_key};
ghost use Rattle.std.specs.Ordering.{eq_by_cmp};
ghost use Rattle.std.specs.List.Sorted.{IsStrictlySortedBy};
ghost use Rattle.credential_text.specs.Credential.{credential_order};
ghost use Rattle.vaults.specs.InOrder.{without};
ghost use Rattle.vaults.specs.Blocks.{rows_in};

use crate::blocks::Block;
use crate::parted_rows::{put_row, spot_of, take_row};
use crate::versions::Version;
use credential_text::Credential;
use std::alloc::{AllocError, Global};
use std::marker::Model;

/// The rows of a vault as they are now, seen as their list. They stand in blocks, the last block first, and versions share
/// those that didn't change since.
#[derive(Drop)]
pub struct OwnRows {
    blocks: Vec<Block>,
    count: usize,
}

impl Model for OwnRows {
    ghost use Rattle.std.specs.Prelude.{List};
    ghost use Rattle.vaults.specs.Blocks.{rows_in, AreOwnRows};
    ghost use Rattle.credential_text.specs.declared.credentials.Credential.{Credential};

    ghost Value = { List Credential };

    ghost view = { λ r. rows_in r.blocks.items };

    ghost invariant = { λ r. AreOwnRows (rows_in r.blocks.items) r.count };
}

impl OwnRows {
    /// No row.
    pub fn new(alloc: Global) -> OwnRows
        ensures { result ≡ [] }
    {
        OwnRows {
            blocks: Vec::new(alloc),
            count: 0,
        }
    }

    /// How many rows there are.
    pub fn len(&self) -> usize
        ensures { result ≡ length self.now }
    {
        self.count
    }

    /// Whether the credential is a row.
    pub fn has(&self, credential: &Credential) -> bool
        ensures { result ≡ list_any (eq_by_cmp credential_order credential.now) self.now }
    {
        let blocks = &self.blocks;
        if blocks.is_empty() {
            return false;
        }
        blocks[spot_of(blocks, credential)].has(credential)
    }

    /// Puts the credential into its place, if it isn't there, and answers whether it wasn't.
    pub fn put(&mut self, credential: &Credential) -> Result<bool, AllocError>
        ensures put { OnOk result (self.new ≡ insert_key credential_order self.old credential.now) }
        ensures missed { IfOk result (λ missed. missed ≡ not (list_any (eq_by_cmp credential_order credential.now) self.old)) }
        ensures unchanged { OnErr result (self.new ≡ self.old) }
        ensures same { IfOk result (λ missed. missed ≡ false → self.new ≡ self.old) }
        ensures growth { OnErr result (list_any (eq_by_cmp credential_order credential.now) self.old ≡ false) }
    {
        if self.count == usize::MAX {
            return if self.has(credential) {
                Ok(false)
            } else {
                Err(AllocError)
            };
        }
        let missed = put_row(&mut self.blocks, credential)?;
        if missed {
            self.count += 1;
        }
        Ok(missed)
    }

    /// Takes out a credential that is there.
    pub fn take_out(&mut self, credential: &Credential) -> Result<(), AllocError>
        requires { list_any (eq_by_cmp credential_order credential.now) self.old ≡ true }
        ensures taken { OnOk result (self.new ≡ without credential_order credential.now self.old) }
        ensures unchanged { OnErr result (self.new ≡ self.old) }
    {
        take_row(&mut self.blocks, credential)?;
        self.count -= 1;
        Ok(())
    }

    /// The rows as they are now, to be held by others: no row is copied.
    pub fn version(&self) -> Result<Version, AllocError>
        ensures { IfOk result (λ version. version ≡ self.now) }
    {
        Version::of(&self.blocks, self.count)
    }
}
