ghost use Rattle.std.specs.Prelude.{◌≡◌, ◌+◌, ◌++◌, ◌<◌, ◌≤◌, ◌↔◌, Some, [], ◌∷◌, length, nat_lt, IsTrue, IfOk, IfErr, OnOk};
ghost use Rattle.std.specs.List.{slice_get};
ghost use Rattle.std.specs.List.Sorted.{IsStrictlySortedBy};
ghost use Rattle.names.specs.declared.roles.Role.{Role};
ghost use Rattle.credential_text.specs.Credential.{credential_order};
ghost use Rattle.vaults.specs.Journal.{view};
ghost use Rattle.vaults.specs.Blocks.{rows_in};
ghost use Rattle.vaults.specs.declared.faults.VaultFault.TheVariants as faults;
ghost use Rattle.snapshots.specs.Span.{is_below, place_of, rows_of, role_rows, span_of, comparisons};
ghost use Rattle.snapshots.specs.Places.{PassesBelow, FailsAt, one, neighbours};
ghost use Rattle.snapshots.specs.Snapshot.{IsOrdered};

use crate::holdings::Holding;
use crate::spans::{Cut, Span, both, is_rows_until, rows_between};
use crate::steps::Steps;
use names::{Entity, Role};
use std::alloc::{AllocError, Global};
use std::marker::Model;
use std::sync::ledger::Ledger;
use vaults::{Book, Row, Rows, VaultFault};

/// What a tenant could read at one time: its view, over versions that nobody can change.
pub struct Snapshot {
    asker: Entity,
    vaults: Vec<Holding>,
}

impl Model for Snapshot {
    ghost use Rattle.snapshots.specs.Snapshot.{SnapshotState, IsOrdered};

    ghost Value = { SnapshotState };

    ghost view = { λ s. record { asker = s.asker; vaults = s.vaults.items } };

    ghost invariant = { λ s. IsOrdered s.vaults.items };
}

// By hand, so that who holds one drops it by one call, whose proof stands here.
impl Drop for Snapshot {
    fn drop(self) {
        let Snapshot {
            asker: _asker,
            vaults: _vaults,
        } = self;
    }
}

impl Snapshot {
    /// What the tenant reads now. No credential is copied.
    pub fn take(alloc: Global, book: &mut Book, who: Entity) -> Result<Snapshot, VaultFault>
        ensures view { IfOk result (λ s. s ≡ record { asker = who; vaults = view book.old who }) }
        ensures only_memory { IfErr result (λ f. f ≡ faults.Memory) }
        ensures same { book.new ≡ book.old }
    {
        let owners = book.owners_read_by(who)?;
        let mut vaults = Vec::new(alloc);
        for owner in &owners {
            let version = book.version_of(owner.name)?;
            hold(&mut vaults, Holding::new(owner.name, version))?;
        }
        Ok(Snapshot { asker: who, vaults })
    }

    /// Whose view it is.
    pub fn asker(&self) -> Entity
        ensures asker { result ≡ self.now.asker }
        ensures ordered { IsOrdered self.now.vaults }
    {
        let _ = &self.vaults;
        self.asker
    }

    /// Where the rows of the role stand. Takes no memory: a binary search among the vaults, one among the rows of one
    /// vault for the role's first row, and from there on one for its last that costs little where the role has few.
    pub fn find(&self, role: &Role) -> Span
        ensures span { result ≡ span_of self.now.vaults role.now }
        ensures ordered { IsOrdered self.now.vaults }
    {
        let place = vaults_below(&self.vaults, &role.owner);
        let rows = rows_at(&self.vaults, &role.owner, place);
        let (lo, hi) = rows_between(&rows, role);
        Span {
            vault: place,
            lo,
            hi,
        }
    }

    /// Whether the span is the one that `find` gives, by at most 8 comparisons, each a step. Takes no memory.
    pub fn span_is<L: Ledger>(&self, role: &Role, span: Span, steps: &mut Steps<L>) -> bool
        ensures exact { IsTrue result ↔ (span ≡ span_of self.now.vaults role.now) }
        ensures cost { steps.new ≤ steps.old + 8 }
        ensures counted { steps.new ≡ steps.old + comparisons self.now.vaults role.now span }
    {
        if !is_vaults_below(&self.vaults, &role.owner, span.vault, steps) {
            return false;
        }
        let rows = steps.rows_at(&self.vaults, &role.owner, span.vault);
        let lo = is_rows_until(&rows, role, Cut::Before, span.lo, steps);
        let hi = is_rows_until(&rows, role, Cut::Through, span.hi, steps);
        both(lo, hi)
    }

    /// The row at the place in the span.
    pub fn row(&self, span: Span, i: u64) -> &Row
        requires found { (role : Role) × (span ≡ span_of self.now.vaults role) }
        requires place { span.lo + i < span.hi }
        ensures { (role : Role) → span ≡ span_of self.now.vaults role → slice_get (role_rows self.now.vaults role) i ≡ Some result.now }
    {
        let rows = self.vaults[span.vault as usize].rows();
        row_at(&rows, span.lo + i)
    }
}

fn hold(vaults: &mut Vec<Holding>, holding: Holding) -> Result<(), AllocError>
    ensures { OnOk result (vaults.new.items ≡ vaults.old.items ++ holding ∷ []) }
{
    vaults.push(holding)?;
    Ok(())
}

fn row_at<'a>(rows: &Rows<'a>, place: u64) -> &'a Row
    requires { place < length (rows_in rows.now) }
    ensures { slice_get (rows_in rows.now) place ≡ Some result.now }
{
    rows.row(place as usize)
}

/// How many vaults stand before the owner's.
fn vaults_below(vaults: &[Holding], owner: &Entity) -> u64
    requires { IsOrdered vaults.now }
    ensures { result ≡ place_of vaults.now owner.now }
{
    vaults.partition_point(|holding| holding.owner().compare(owner).is_lt()) as u64
}

/// The rows of the owner's vault, which stands at this place if it stands anywhere.
pub(crate) fn rows_at<'a>(vaults: &'a [Holding], owner: &Entity, place: u64) -> Rows<'a>
    requires ordered { IsOrdered vaults.now }
    requires place { place ≡ place_of vaults.now owner.now }
    ensures rows { rows_in result ≡ rows_of vaults.now owner.now }
    ensures sorted { IsStrictlySortedBy credential_order (rows_of vaults.now owner.now) }
{
    let Some(holding) = vaults.get(place as usize) else {
        return Rows::none();
    };
    if holding.owner() == *owner {
        holding.rows()
    } else {
        Rows::none()
    }
}

/// Whether just so many vaults stand before the owner's, by the two vaults next to that place.
fn is_vaults_below<L: Ledger>(
    vaults: &[Holding],
    owner: &Entity,
    count: u64,
    steps: &mut Steps<L>,
) -> bool
    requires { IsOrdered vaults.now }
    ensures exact { IsTrue result ↔ (count ≡ place_of vaults.now owner.now) }
    ensures cost { steps.new ≤ steps.old + 2 }
    ensures counted { steps.new ≡ steps.old + neighbours vaults.now count }
{
    if count > vaults.len() as u64 {
        return false;
    }
    let place = count as usize;
    let below = owner_passes_below(vaults, owner, place, steps);
    let above = owner_fails_at(vaults, owner, place, steps);
    both(below, above)
}

fn owner_passes_below<L: Ledger>(
    vaults: &[Holding],
    owner: &Entity,
    place: usize,
    steps: &mut Steps<L>,
) -> bool
    requires { place ≤ length vaults.now }
    ensures exact { IsTrue result ↔ PassesBelow (is_below owner.now) vaults.now place }
    ensures counted { steps.new ≡ steps.old + one (nat_lt 0 place) }
{
    if place == 0 {
        return true;
    }
    steps.is_below(&vaults[place - 1], owner)
}

fn owner_fails_at<L: Ledger>(
    vaults: &[Holding],
    owner: &Entity,
    place: usize,
    steps: &mut Steps<L>,
) -> bool
    requires { place ≤ length vaults.now }
    ensures exact { IsTrue result ↔ FailsAt (is_below owner.now) vaults.now place }
    ensures counted { steps.new ≡ steps.old + one (nat_lt place (length vaults.now)) }
{
    if place == vaults.len() {
        return true;
    }
    !steps.is_below(&vaults[place], owner)
}
