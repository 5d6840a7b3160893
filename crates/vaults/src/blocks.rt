ghost use Rattle.std.specs.Prelude.{◌≡◌, not, false, ◌++◌, ◌∷◌, ◌+◌, ◌<◌, ◌≤◌, [], length, OnOk, OnErr, IfOk};
ghost use Rattle.std.specs.List.{list_any};
ghost use Rattle.std.specs.BTreeSet.{insert_key};
ghost use Rattle.std.specs.Ordering.{eq_by_cmp};
ghost use Rattle.std.specs.List.Sorted.{IsStrictlySortedBy};
ghost use Rattle.credential_text.specs.Credential.{credential_order};
ghost use Rattle.vaults.specs.InOrder.{without};
ghost use Rattle.vaults.specs.Blocks.{begins_above};

use crate::rows::{Row, place_of, place_to_put};
use crate::shared_rows::{insert_row, part};
use credential_text::Credential;
use std::alloc::{AllocError, Global};
use std::marker::Model;
use std::sync::Arc;

/// Rows of a vault that stand in a list of their own, in order, at least one of them. Seen as their list. Others may hold
/// them too, and keep what they hold: a change is made of a copy then.
#[derive(Drop)]
pub struct Block {
    rows: Arc<Vec<Row>>,
}

impl Model for Block {
    ghost use Rattle.std.specs.Prelude.{List};
    ghost use Rattle.std.specs.Arc.{arc_value};
    ghost use Rattle.vaults.specs.Blocks.{IsBlock};
    ghost use Rattle.credential_text.specs.declared.credentials.Credential.{Credential};

    ghost Value = { List Credential };

    ghost view = { λ b. (arc_value b.rows).items };

    ghost invariant = { λ b. IsBlock (arc_value b.rows).items };
}

/// The block once more, to be held beside the first: no row is copied.
impl Clone for Block {
    ghost is_clone = { λ block copy. copy ≡ block };

    fn clone(&self) -> Result<Block, AllocError> {
        let rows = Arc::try_clone(&self.rows)?;
        Ok(Block { rows })
    }
}

impl Block {
    /// A block of one row.
    pub fn of(alloc: Global, credential: &Credential) -> Result<Block, AllocError>
        ensures { IfOk result (λ b. b ≡ credential.now ∷ []) }
    {
        let row = Row::of(alloc, None, credential)?;
        let mut list = Vec::new(alloc);
        list.push(row)?;
        let rows = Arc::new(alloc, list)?;
        Ok(Block { rows })
    }

    /// The rows, in order.
    pub fn rows(&self) -> &[Row]
        ensures rows { result.now ≡ self.now }
        ensures some { 0 < length self.now }
        ensures in_order { IsStrictlySortedBy credential_order self.now }
    {
        &self.rows
    }

    /// Whether its first row is above the credential.
    pub fn begins_above(&self, credential: &Credential) -> bool
        ensures above { result ≡ begins_above credential.now self.now }
        ensures some { 0 < length self.now }
    {
        self.rows()[0].compare(credential).is_gt()
    }

    /// Whether the credential is a row.
    pub fn has(&self, credential: &Credential) -> bool
        ensures { result ≡ list_any (eq_by_cmp credential_order credential.now) self.now }
    {
        place_of(self.rows(), credential).is_ok()
    }

    /// Puts the credential into its place, if it isn't there, and answers whether it wasn't.
    pub fn put(&mut self, credential: &Credential) -> Result<bool, AllocError>
        ensures put { OnOk result (self.new ≡ insert_key credential_order self.old credential.now) }
        ensures missed { IfOk result (λ missed. missed ≡ not (list_any (eq_by_cmp credential_order credential.now) self.old)) }
        ensures unchanged { OnErr result (self.new ≡ self.old) }
        ensures growth { OnErr result (list_any (eq_by_cmp credential_order credential.now) self.old ≡ false) }
    {
        match place_to_put(self.rows(), credential) {
            Ok(_) => Ok(false),
            Err(place) => {
                insert_row(&mut self.rows, place, credential)?;
                Ok(true)
            }
        }
    }

    /// Takes the credential out, if it is there, where other rows stay.
    pub fn take_out(&mut self, credential: &Credential) -> Result<(), AllocError>
        requires { 1 < length self.old }
        ensures taken { OnOk result (self.new ≡ without credential_order credential.now self.old) }
        ensures unchanged { OnErr result (self.new ≡ self.old) }
    {
        if let Ok(place) = place_of(self.rows(), credential) {
            Arc::make_mut(&mut self.rows)?.remove(place);
        }
        Ok(())
    }

    /// Keeps the rows before the place, and gives the others.
    pub fn split_off(&mut self, place: usize) -> Result<Block, AllocError>
        requires { (0 < place) × (place < length self.old) }
        ensures parted { IfOk result (λ rest. self.old ≡ self.new ++ rest) }
        ensures unchanged { OnErr result (self.new ≡ self.old) }
    {
        let rows = part(Arc::make_mut(&mut self.rows)?, place)?;
        Ok(Block { rows })
    }
}
