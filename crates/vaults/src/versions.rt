ghost use Rattle.std.specs.Prelude.{ℕ, Some, [], ◌≡◌, ◌+◌, ◌^◌, ◌<◌, ◌≤◌, length, IfOk, drop, suc};
ghost use Rattle.std.specs.List.{slice_get};
ghost use Rattle.std.specs.List.Sorted.{IsStrictlySortedBy};
ghost use Rattle.credential_text.specs.Credential.{credential_order};
ghost use Rattle.vaults.specs.Blocks.{rows_in, starts_of, IsHolder};

use crate::blocks::Block;
use crate::rows::Row;
use std::alloc::{AllocError, Global};
use std::marker::Model;

/// The rows of a tenant's vault at one time: credentials in order, each once. Seen as their list. Shared versions never
/// change: what holds one has its rows, whatever becomes of the vault. They stand in blocks, the last block first, and with
/// each block stands how many rows are before it.
#[derive(Drop)]
pub struct Version {
    blocks: Vec<Block>,
    starts: Vec<usize>,
    count: usize,
}

impl Model for Version {
    ghost use Rattle.std.specs.Prelude.{List};
    ghost use Rattle.vaults.specs.Blocks.{rows_in, IsVersion};
    ghost use Rattle.credential_text.specs.declared.credentials.Credential.{Credential};

    ghost Value = { List Credential };

    ghost view = { λ v. rows_in v.blocks.items };

    ghost invariant = { λ v. IsVersion v.blocks.items v.starts.items v.count };
}

impl Version {
    /// The rows of these blocks. No row is copied.
    pub(crate) fn of(blocks: &Vec<Block>, count: usize) -> Result<Version, AllocError>
        requires count { count ≡ length (rows_in blocks.now.items) }
        requires in_order { IsStrictlySortedBy credential_order (rows_in blocks.now.items) }
        ensures { IfOk result (λ version. version ≡ rows_in blocks.now.items) }
    {
        let starts = starts_in(*blocks.allocator(), blocks, count)?;
        let blocks = blocks.clone()?;
        Ok(Version {
            blocks,
            starts,
            count,
        })
    }

    /// The rows, to be read.
    pub fn rows(&self) -> Rows<'_>
        ensures rows { rows_in result ≡ self.now }
        ensures ordered { IsStrictlySortedBy credential_order self.now }
    {
        Rows {
            blocks: &self.blocks,
            starts: &self.starts,
            count: self.count,
        }
    }
}

/// Rows that are read, in order. Seen as the list of their blocks, of which the last one comes first.
#[derive(Drop)]
pub struct Rows<'a> {
    blocks: &'a [Block],
    starts: &'a [usize],
    count: usize,
}

impl<'a> Model for Rows<'a> {
    ghost use Rattle.std.specs.Prelude.{List};
    ghost use Rattle.vaults.specs.Blocks.{IsVersion};
    ghost use Rattle.credential_text.specs.declared.credentials.Credential.{Credential};

    ghost Value = { List (List Credential) };

    ghost view = { λ r. r.blocks.now };

    ghost invariant = { λ r. IsVersion r.blocks.now r.starts.now r.count };
}

impl<'a> Rows<'a> {
    /// No row.
    pub fn none() -> Rows<'a>
        ensures { result ≡ [] }
    {
        Rows {
            blocks: &[],
            starts: &[],
            count: 0,
        }
    }

    /// How many rows there are.
    pub fn len(&self) -> usize
        ensures count { result ≡ length (rows_in self.now) }
        ensures fits { result < 2 ^ 64 }
    {
        self.count
    }

    /// The row at the place.
    pub fn row(&self, place: usize) -> &'a Row
        requires { place < length (rows_in self.now) }
        ensures { slice_get (rows_in self.now) place ≡ Some result.now }
    {
        let spot = holder_of(self.starts, place);
        let start = start_at(self.starts, spot);
        row_at(block_at(self.blocks, spot), place - start)
    }

    /// How many blocks there are.
    pub fn blocks_len(&self) -> usize
        ensures { result ≡ length self.now }
    {
        self.blocks.len()
    }

    /// The rows of a block.
    pub fn block(&self, spot: usize) -> &'a [Row]
        requires { spot < length self.now }
        ensures block { slice_get self.now spot ≡ Some result.now }
        ensures some { 0 < length result.now }
    {
        block_at(self.blocks, spot)
    }

    /// How many rows stand before a block.
    pub fn start(&self, spot: usize) -> usize
        requires { spot < length self.now }
        ensures { result ≡ length (rows_in (drop (suc spot) self.now)) }
    {
        start_at(self.starts, spot)
    }
}

/// The rows of a block.
fn block_at(blocks: &[Block], spot: usize) -> &[Row]
    requires { spot < length blocks.now }
    ensures block { slice_get blocks.now spot ≡ Some result.now }
    ensures some { 0 < length result.now }
{
    blocks[spot].rows()
}

/// Where a block starts.
fn start_at(starts: &[usize], spot: usize) -> usize
    requires { spot < length starts.now }
    ensures { slice_get starts.now spot ≡ Some result }
{
    starts[spot]
}

/// The row at the place.
fn row_at(rows: &[Row], place: usize) -> &Row
    requires { place < length rows.now }
    ensures { slice_get rows.now place ≡ Some result.now }
{
    &rows[place]
}

/// How many rows stand before each block.
fn starts_in(alloc: Global, blocks: &[Block], count: usize) -> Result<Vec<usize>, AllocError>
    requires { count ≡ length (rows_in blocks.now) }
    ensures { IfOk result (λ starts. starts.items ≡ starts_of blocks.now) }
{
    let mut starts = Vec::with_capacity(alloc, blocks.len())?;
    let mut left = count;
    for block in blocks {
        left -= block.rows().len();
        starts.push_reserved(left);
    }
    Ok(starts)
}

/// Which block has the place.
fn holder_of(starts: &[usize], place: usize) -> usize
    requires { 0 < length starts.now }
    ensures { IsHolder place result starts.now }
{
    let mut low = 0;
    let mut high = starts.len() - 1;
    while low < high {
        let middle = low + (high - low) / 2;
        if starts[middle] > place {
            low = middle + 1;
        } else {
            high = middle;
        }
    }
    low
}
