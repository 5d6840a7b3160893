//! The rows of a vault in blocks, the last block first. So a row is put or taken and few others move, and a block that
//! others hold is copied alone.
ghost use Rattle.std.specs.Prelude.{◌≡◌, ◌+◌, not, true, false, ◌<◌, ◌≤◌, [], length, OnOk, OnErr, IfOk};
ghost use Rattle.std.specs.List.{list_any};
ghost use Rattle.std.specs.BTreeSet.{insert_key};
ghost use Rattle.std.specs.Ordering.{eq_by_cmp};
ghost use Rattle.std.specs.List.Sorted.{IsStrictlySortedBy};
ghost use Rattle.credential_text.specs.Credential.{credential_order};
ghost use Rattle.vaults.specs.InOrder.{without};
ghost use Rattle.vaults.specs.Blocks.{rows_in, IsSpot, IsNotAboveAt};

use crate::blocks::Block;
use credential_text::Credential;
use std::alloc::{AllocError, Global};

/// With how many rows a block is made two, where memory doesn't lack.
const FULL: usize = 512;

/// Puts the credential into its place, if it isn't there, and answers whether it wasn't.
pub fn put_row(blocks: &mut Vec<Block>, credential: &Credential) -> Result<bool, AllocError>
    requires { IsStrictlySortedBy credential_order (rows_in blocks.old.items) }
    ensures put { OnOk result (rows_in blocks.new.items ≡ insert_key credential_order (rows_in blocks.old.items) credential.now) }
    ensures missed { IfOk result (λ missed. missed
        ≡ not (list_any (eq_by_cmp credential_order credential.now) (rows_in blocks.old.items))) }
    ensures unchanged { OnErr result (rows_in blocks.new.items ≡ rows_in blocks.old.items) }
    ensures growth { OnErr result (list_any (eq_by_cmp credential_order credential.now) (rows_in blocks.old.items) ≡ false) }
{
    if blocks.is_empty() {
        let block = Block::of(*blocks.allocator(), credential)?;
        blocks.push(block)?;
        return Ok(true);
    }
    let spot = spot_of(blocks, credential);
    let missed = blocks[spot].put(credential)?;
    let _halved = halve_full(blocks, spot);
    Ok(missed)
}

/// Takes out the credential, which is there, and its block too where no row is left.
pub fn take_row(blocks: &mut Vec<Block>, credential: &Credential) -> Result<(), AllocError>
    requires in_order { IsStrictlySortedBy credential_order (rows_in blocks.old.items) }
    requires there { list_any (eq_by_cmp credential_order credential.now) (rows_in blocks.old.items) ≡ true }
    ensures taken { OnOk result (rows_in blocks.new.items ≡ without credential_order credential.now (rows_in blocks.old.items)) }
    ensures unchanged { OnErr result (rows_in blocks.new.items ≡ rows_in blocks.old.items) }
{
    let spot = spot_of(blocks, credential);
    if blocks[spot].rows().len() > 1 {
        blocks[spot].take_out(credential)
    } else {
        blocks.remove(spot);
        Ok(())
    }
}

/// Which block the credential is in or would be put into.
pub fn spot_of(blocks: &[Block], credential: &Credential) -> usize
    requires { 0 < length blocks.now }
    ensures { IsSpot credential.now result blocks.now }
{
    let mut low = 0;
    let mut high = highest(blocks, credential);
    while low < high {
        let middle = low + (high - low) / 2;
        if blocks[middle].begins_above(credential) {
            low = middle + 1;
        } else {
            high = middle;
        }
    }
    low
}

/// How far from the end that block may be: it is the last one, as it is in turn for what is put in order, or any.
fn highest(blocks: &[Block], credential: &Credential) -> usize
    requires { 0 < length blocks.now }
    ensures within { result < length blocks.now }
    ensures there { IsNotAboveAt credential.now result blocks.now }
{
    if blocks[0].begins_above(credential) {
        blocks.len() - 1
    } else {
        0
    }
}

/// Makes two blocks of this one where it is full. The last one keeps nearly all, since what is put in order goes behind it.
fn halve_full(blocks: &mut Vec<Block>, spot: usize) -> Result<(), AllocError>
    requires within { spot < length blocks.old.items }
    ensures { rows_in blocks.new.items ≡ rows_in blocks.old.items }
{
    let len = blocks[spot].rows().len();
    if len < FULL {
        return Ok(());
    }
    blocks.try_reserve(1)?;
    let place = if spot == 0 { len - 1 } else { len / 2 };
    let rest = blocks[spot].split_off(place)?;
    blocks.insert(spot, rest).unwrap();
    Ok(())
}
