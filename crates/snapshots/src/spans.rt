ghost use Rattle.std.specs.Prelude.{◌≡◌, ◌+◌, ◌<◌, ◌≤◌, false, IsTrue, ◌↔◌, nat_lt, length, get_or};
ghost use Rattle.std.specs.List.{All};
ghost use Rattle.std.specs.List.Sorted.{IsStrictlySortedBy};
ghost use Rattle.credential_text.specs.declared.credentials.Credential.{Credential as AnyCredential};
ghost use Rattle.credential_text.specs.Credential.{credential_order};
ghost use Rattle.snapshots.specs.Span.{how_many, is_before, is_through, is_cut_at, is_cut, is_cut_by_name};
ghost use Rattle.vaults.specs.Blocks.{rows_in};
ghost use Rattle.snapshots.specs.Blocks.{starts_with, EndsBefore, IsCutThrough};
ghost use Rattle.snapshots.specs.declared.spans.Cut.TheVariants as Cut;
ghost use Rattle.snapshots.specs.Places.{PassesBelow, FailsAt, one, neighbours};

use crate::steps::Steps;
use names::{Role, RoleName};
use std::cmp::Ordering;
use std::sync::ledger::Ledger;
use vaults::{Row, Rows};

/// Where the rows of a role stand in a snapshot: the place of its owner's vault, and in it the rows from `lo` on and
/// before `hi`. Where there are none, `vault`, `lo` and `hi` say where they would stand.
#[derive(Clone, Copy, PartialEq, Eq)]
pub struct Span {
    pub vault: u64,
    pub lo: u64,
    pub hi: u64,
}

/// A cut through the rows of a vault: before those of a role, or behind them.
#[derive(Clone, Copy)]
pub enum Cut {
    Before,
    Through,
}

impl Cut {
    /// Whether what compares so to the role stands before the cut.
    fn is_behind(self, order: Ordering) -> bool
        ensures { result ≡ is_cut_at self order }
    {
        match self {
            Cut::Before => order.is_lt(),
            Cut::Through => order.is_le(),
        }
    }

    /// Whether the row stands before the cut.
    pub(crate) fn passes(self, role: &Role, row: &Row) -> bool
        ensures { result ≡ is_cut self role.now row.now }
    {
        self.is_behind(row.compare_head(role))
    }

    /// Whether the row, of the role's owner too, stands before the cut: by the names of their roles alone.
    fn passes_by_name(self, name: &RoleName, row: &Row) -> bool
        ensures { result ≡ is_cut_by_name self name.now row.now }
    {
        self.is_behind(row.name().compare(name))
    }
}

/// Among how many rows the cut is sought at first, since most roles have few.
const FEW: usize = 16;

/// How many of the owner's rows stand before the cut: by the block that it goes through.
fn rows_until(rows: &Rows<'_>, role: &Role, cut: Cut) -> u64
    requires in_order { IsStrictlySortedBy credential_order (rows_in rows.now) }
    requires own { All (λ c. c.head.owner ≡ role.now.owner) (rows_in rows.now) }
    requires some { 0 < length rows.now }
    ensures { result ≡ how_many (is_cut cut role.now) (rows_in rows.now) }
{
    let _all = rows.len();
    let spot = spot_of(rows, role, cut);
    rows.start(spot) as u64 + block_until(rows.block(spot), role, cut)
}

/// Which block the cut goes through: the last one that begins before it, or else the first.
fn spot_of(rows: &Rows<'_>, role: &Role, cut: Cut) -> usize
    requires own { All (λ c. c.head.owner ≡ role.now.owner) (rows_in rows.now) }
    requires some { 0 < length rows.now }
    ensures { IsCutThrough (is_cut cut role.now) result rows.now }
{
    let mut low = 0;
    let mut high = rows.blocks_len() - 1;
    while low < high {
        let middle = low + (high - low) / 2;
        if begins_before(rows.block(middle), role, cut) {
            high = middle;
        } else {
            low = middle + 1;
        }
    }
    low
}

/// Whether the first of the owner's rows stands before the cut.
fn begins_before(rows: &[Row], role: &Role, cut: Cut) -> bool
    requires { All (λ c. c.head.owner ≡ role.now.owner) rows.now }
    ensures { result ≡ starts_with (is_cut cut role.now) rows.now }
{
    match rows.get(0) {
        Some(row) => cut.passes_by_name(&role.name, row),
        None => false,
    }
}

/// How many of a block's rows stand before the cut. Costs little where they are few, however many there are behind it.
fn block_until(rows: &[Row], role: &Role, cut: Cut) -> u64
    requires in_order { IsStrictlySortedBy credential_order rows.now }
    requires own { All (λ c. c.head.owner ≡ role.now.owner) rows.now }
    ensures count { result ≡ how_many (is_cut cut role.now) rows.now }
    ensures within { result ≤ length rows.now }
{
    let front = front_of(rows, role, cut);
    rows[..front].partition_point(|row| cut.passes_by_name(&role.name, row)) as u64
}

/// How many of the first rows there are among which the cut is: few, or all.
fn front_of(rows: &[Row], role: &Role, cut: Cut) -> usize
    ensures within { result ≤ length rows.now }
    ensures cut { (d : AnyCredential) → result < length rows.now → is_cut_by_name cut role.now.name (get_or rows.now result d) ≡ false }
{
    match rows.get(FEW) {
        Some(row) if !cut.passes_by_name(&role.name, row) => FEW,
        _ => rows.len(),
    }
}

/// From where to where the role's rows stand among those of its owner.
pub fn rows_between(rows: &Rows<'_>, role: &Role) -> (u64, u64)
    requires in_order { IsStrictlySortedBy credential_order (rows_in rows.now) }
    requires own { All (λ c. c.head.owner ≡ role.now.owner) (rows_in rows.now) }
    ensures lo { result.0 ≡ how_many (is_before role.now) (rows_in rows.now) }
    ensures hi { result.1 ≡ how_many (is_through role.now) (rows_in rows.now) }
{
    if rows.blocks_len() == 0 {
        return (0, 0);
    }
    let spot = spot_of(rows, role, Cut::Before);
    if goes_on(rows, role, spot) {
        return (
            rows_until(rows, role, Cut::Before),
            rows_until(rows, role, Cut::Through),
        );
    }
    let _all = rows.len();
    let start = rows.start(spot) as u64;
    let (lo, hi) = block_between(rows.block(spot), role);
    (start + lo, start + hi)
}

/// Whether rows of the role may stand behind this block too.
fn goes_on(rows: &Rows<'_>, role: &Role, spot: usize) -> bool
    requires own { All (λ c. c.head.owner ≡ role.now.owner) (rows_in rows.now) }
    requires within { spot < length rows.now }
    ensures { result ≡ false → EndsBefore (is_cut Cut.Through role.now) spot rows.now }
{
    if spot == 0 {
        return false;
    }
    begins_before(rows.block(spot - 1), role, Cut::Through)
}

/// From where to where the role's rows stand in a block of its owner's.
fn block_between(rows: &[Row], role: &Role) -> (u64, u64)
    requires in_order { IsStrictlySortedBy credential_order rows.now }
    requires own { All (λ c. c.head.owner ≡ role.now.owner) rows.now }
    ensures lo { result.0 ≡ how_many (is_before role.now) rows.now }
    ensures hi { result.1 ≡ how_many (is_through role.now) rows.now }
{
    let lo = block_until(rows, role, Cut::Before);
    let behind = &rows[lo as usize..];
    (lo, lo + block_until(behind, role, Cut::Through))
}

/// Whether just so many rows stand before the cut, by the two rows next to it.
pub fn is_rows_until<L: Ledger>(
    rows: &Rows<'_>,
    role: &Role,
    cut: Cut,
    count: u64,
    steps: &mut Steps<L>,
) -> bool
    requires { IsStrictlySortedBy credential_order (rows_in rows.now) }
    ensures exact { IsTrue result ↔ (count ≡ how_many (is_cut cut role.now) (rows_in rows.now)) }
    ensures cost { steps.new ≤ steps.old + 2 }
    ensures counted { steps.new ≡ steps.old + neighbours (rows_in rows.now) count }
{
    if count > rows.len() as u64 {
        return false;
    }
    let place = count as usize;
    let below = passes_below(rows, role, cut, place, steps);
    let above = fails_at(rows, role, cut, place, steps);
    both(below, above)
}

/// Whether the row below the place, if there is one, stands before the cut.
fn passes_below<L: Ledger>(
    rows: &Rows<'_>,
    role: &Role,
    cut: Cut,
    place: usize,
    steps: &mut Steps<L>,
) -> bool
    requires { place ≤ length (rows_in rows.now) }
    ensures exact { IsTrue result ↔ PassesBelow (is_cut cut role.now) (rows_in rows.now) place }
    ensures counted { steps.new ≡ steps.old + one (nat_lt 0 place) }
{
    if place == 0 {
        return true;
    }
    steps.passes(cut, role, rows.row(place - 1))
}

/// Whether the row at the place, if there is one, stands behind the cut.
fn fails_at<L: Ledger>(
    rows: &Rows<'_>,
    role: &Role,
    cut: Cut,
    place: usize,
    steps: &mut Steps<L>,
) -> bool
    requires { place ≤ length (rows_in rows.now) }
    ensures exact { IsTrue result ↔ FailsAt (is_cut cut role.now) (rows_in rows.now) place }
    ensures counted { steps.new ≡ steps.old + one (nat_lt place (length (rows_in rows.now))) }
{
    if place == rows.len() {
        return true;
    }
    !steps.passes(cut, role, rows.row(place))
}

/// Whether both hold.
pub fn both(one: bool, other: bool) -> bool
    ensures { IsTrue result ↔ (IsTrue one × IsTrue other) }
{
    one && other
}
