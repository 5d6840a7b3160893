ghost use Rattle.std.specs.Prelude.{◌≡◌, ℕ, ◌+◌, ◌-◌, ◌++◌, ◌==◌, ◌≤◌, List, [], length, take, replicate};
ghost use Rattle.std.specs.Prelude.{IsTrue, IsOk, IfOk, IfErr, Some, ◌↔◌};
ghost use Rattle.std.specs.Cmp.Lexicographic.{pointwise, slice_cmp};
ghost use Rattle.std.specs.Prelude.{nat_eq};
ghost use Rattle.std.specs.Ordering.{nat_cmp, as_partial_cmp};
ghost use Rattle.std.specs.Hash as fed;
ghost use Rattle.std.specs.Cmp.Rules.{comparing, hashing};
ghost use Rattle.std.specs.Cmp.{partial_order_from_own_ties};
ghost use Rattle.std.proofs.Common.{rules};
ghost use Rattle.std.specs.Slice.Scan.{big_endian};
ghost use Rattle.std.specs.Simd.Lanes.{chunk};
ghost use Rattle.names.specs.Name.{IsName, name_order};
ghost use Rattle.names.specs.Cells.{HoldsName, EndsInZeros};
ghost use Rattle.names.specs.Fault.{name_fault};
ghost use Rattle.names.specs.Cells.{cells_again, length_held};

use crate::faults::NameFault;
use crate::reading::{fault_of, padded};
use std::cmp::Ordering;
use std::hash::{Hash, Hasher};
use std::marker::Model;

/// A name of 1 to 64 bytes, held in place. The cells behind its last byte are zero.
#[derive(Clone, Copy)]
pub struct Name {
    cells: [u8; 64],
    len: u8,
}

impl Model for Name {
    ghost Value = { List ℕ };

    ghost view = { λ n. take n.len n.cells };

    ghost invariant = { λ n. HoldsName n.cells n.len };

    ghost inverse = { λ text. record { cells = text ++ replicate (64 - length text) 0; len = length text } };

    ghost inverse_ok = { λ n h i. record { cells = cells_again n.cells n.len h i; len = length_held n.cells n.len h i } };
}

impl Name {
    /// The name that the text is, or the first fault of the text.
    pub fn read(text: &[u8]) -> Result<Name, NameFault>
        ensures accepted { IsOk result ↔ IsName text.now }
        ensures name { IfOk result (λ n. n ≡ text.now) }
        ensures refused { IfErr result (λ f. name_fault text.now ≡ Some f) }
    {
        match fault_of(text) {
            Some(fault) => Err(fault),
            None => Ok(Name {
                cells: padded(text),
                len: text.len() as u8,
            }),
        }
    }

    /// The bytes of the name.
    pub fn bytes(&self) -> &[u8]
        ensures value { result.now ≡ self.now }
        ensures name { IsName self.now }
    {
        &self.cells[..usize::from(self.len)]
    }
}

impl PartialEq for Name {
    ghost eq = { pointwise nat_eq };

    ghost laws = { Prim.search (comparing, rules) };

    fn eq(&self, other: &Name) -> bool {
        self.bytes() == other.bytes()
    }
}

impl Eq for Name {
    ghost laws = { Prim.search (comparing, rules) };
}

impl Ord for Name {
    ghost cmp = { slice_cmp nat_cmp };

    ghost total = { Prim.search (comparing, rules) };

    ghost matches_partial_cmp = { Prim.search (comparing, rules) };

    ghost matches_eq = { Prim.search (comparing, rules) };

    fn cmp(&self, other: &Name) -> Ordering {
        order_of(&self.cells, &other.cells)
    }
}

impl PartialOrd for Name {
    ghost partial_cmp = { as_partial_cmp (slice_cmp nat_cmp) };

    ghost laws = { partial_order_from_own_ties (Prim.search (comparing, rules)) (Prim.search (comparing, rules)) };

    fn partial_cmp(&self, other: &Name) -> Option<Ordering> {
        Some(self.cmp(other))
    }
}

impl Hash for Name {
    ghost hash_input = { fed.slice fed.u8 };

    ghost respects_eq = { Prim.search (hashing, rules) };

    fn hash<H: Hasher>(&self, state: &mut H) {
        self.bytes().hash(state);
    }
}

/// The order of the names that the cells hold. Cells are compared eight at a time, up to where both names end.
fn order_of(cells: &[u8; 64], others: &[u8; 64]) -> Ordering
    requires cells { EndsInZeros cells.now }
    requires others { EndsInZeros others.now }
    ensures { result ≡ name_order cells.now others.now }
{
    for place in 0..8 {
        let start = 8 * place;
        let (word, other) = (word_at(cells, start), word_at(others, start));
        if word != other {
            return word.cmp(&other);
        }
        if cells[start + 7] == 0 {
            return Ordering::Equal;
        }
    }
    Ordering::Equal
}

/// The eight cells from here on as one number, which is ordered as they are.
fn word_at(cells: &[u8; 64], start: usize) -> u64
    requires { start + 8 ≤ 64 }
    ensures { result ≡ big_endian 0 (chunk start 8 cells.now) }
{
    u64::from_be_bytes([
        cells[start],
        cells[start + 1],
        cells[start + 2],
        cells[start + 3],
        cells[start + 4],
        cells[start + 5],
        cells[start + 6],
        cells[start + 7],
    ])
}
