//! Which searches of a hall may still go on, and which of them has its turn.
ghost use Rattle.std.specs.Prelude.{◌≡◌, ◌≢◌, ◌≤◌, ◌↔◌, ℕ, List, None, IfSome, OnOk, MatchOption};
ghost use Rattle.std.specs.List.{AllByRecursion};
ghost use Rattle.search.specs.{Search.IsSoundStage, Search.settled_of, Ending.Nothing};
ghost use Rattle.hall.specs.Hall.{search_of_step};
ghost use Rattle.hall.specs.Work.{SearchIsQuiet, NothingToDo, CanBeMade};
ghost use Rattle.hall.specs.Kept.{Lists, KeepsBut, IsOver};

use crate::calls::Step;
use crate::halls::Hall;
use crate::open_searches::next_step;
use indexmap::{IndexMap, IndexSet};
use names::Entity;
use search::Search;
use std::alloc::AllocError;

/// By each tenant that has any, the numbers of its searches that may still go on. Others may stand among them. The set of a
/// tenant that alone has one stays when it is emptied, for the tenant's next search. So at most one is empty.
pub(crate) type Busy = IndexMap<Entity, IndexSet<u64>>;

/// Enters the tenant's search of the number. A tenant that has no set takes the first one, where that is empty.
pub(crate) fn enter(busy: &mut Busy, who: Entity, number: u64) -> Result<(), AllocError>
    ensures entered { OnOk result (Lists busy.new who number) }
    ensures kept { KeepsBut (λ name k. ⊥) busy.old busy.new }
{
    if let Some(numbers) = busy.get_mut(&who) {
        numbers.insert(number)?;
        return Ok(());
    }
    let mut numbers = match take_empty_first(busy) {
        Some(empty) => empty,
        None => IndexSet::new(*busy.allocator()),
    };
    numbers.insert(number)?;
    busy.insert(who, numbers)?;
    Ok(())
}

/// Takes the first tenant's set out where it is empty.
fn take_empty_first(busy: &mut Busy) -> Option<IndexSet<u64>>
    ensures kept { KeepsBut (λ name k. ⊥) busy.old busy.new }
    ensures same { (name : List ℕ) (k : ℕ) → Lists busy.new name k → Lists busy.old name k }
{
    let (_first, numbers) = busy.get_index(0)?;
    if !numbers.is_empty() {
        return None;
    }
    let (_first, empty) = busy.swap_remove_index(0)?;
    Some(empty)
}

/// Takes the tenant's set out where it is empty.
fn leave_empty(busy: &mut Busy, who: &Entity)
    ensures kept { KeepsBut (λ name k. ⊥) busy.old busy.new }
    ensures same { (k : ℕ) → Lists busy.new who.now k → Lists busy.old who.now k }
{
    if let Some(numbers) = busy.get(who) {
        if numbers.is_empty() {
            busy.swap_remove(who);
        }
    }
}

/// Takes the tenant's search of the number out.
pub(crate) fn leave(busy: &mut Busy, who: &Entity, number: u64)
    ensures kept { KeepsBut (λ name k. (name ≡ who.now) × (k ≡ number)) busy.old busy.new }
    ensures gone { Lists busy.new who.now number → ⊥ }
{
    take_out(busy, who, number);
    if busy.len() > 1 {
        leave_empty(busy, who);
    }
}

/// Takes the tenant's search of the number out, where it goes on. One that has settled was taken out as it did.
pub(crate) fn leave_going(busy: &mut Busy, who: &Entity, number: u64, goes_on: bool)
    ensures { KeepsBut (λ name k. (name ≡ who.now) × (k ≡ number)) busy.old busy.new }
{
    if goes_on {
        leave(busy, who, number);
    }
}

/// Takes the number out of the tenant's set, where it has one.
fn take_out(busy: &mut Busy, who: &Entity, number: u64)
    ensures kept { KeepsBut (λ name k. (name ≡ who.now) × (k ≡ number)) busy.old busy.new }
    ensures gone { Lists busy.new who.now number → ⊥ }
{
    if let Some(numbers) = busy.get_mut(who) {
        numbers.swap_remove(&number);
    }
}

/// Takes the tenant's search of the number out where it has come to its end, and tells whether it has.
pub(crate) fn settle(busy: &mut Busy, who: &Entity, number: u64, search: &Search) -> bool
    ensures kept { KeepsBut (λ name k. (name ≡ who.now) × (k ≡ number) × (settled_of search.now ≢ Nothing)) busy.old busy.new }
    ensures gone { settled_of search.now ≢ Nothing → Lists busy.new who.now number → ⊥ }
    ensures sound { IsSoundStage search.now.stage }
    ensures over { IsOver search.now result }
{
    let over = is_over(search);
    if over {
        leave(busy, who, number);
    }
    over
}

/// Whether the search has come to its end. One of which anything is left to do hasn't.
fn is_over(search: &Search) -> bool
    ensures sound { IsSoundStage search.now.stage }
    ensures over { IsOver search.now result }
{
    search.kept();
    if !search.is_quiet() {
        return false;
    }
    !search.is_outstanding()
}

impl Hall {
    /// A step that goes on with a search, if anything waits or is under way. Tenants take turns, and a tenant's searches do.
    pub fn pick(&self, turn: u64) -> Option<Step>
        ensures progress { IfSome result (λ step. CanBeMade self.now step) }
        ensures left { IfSome result (λ step. SearchIsQuiet self.now (search_of_step step).0 (search_of_step step).1 → ⊥) }
        ensures none { (result ≡ None) ↔ NothingToDo self.now }
    {
        let (place, round) = begin_at(self.busy.len(), turn);
        let (before, from_there) = self.busy.as_slice().split_at(place);
        for (who, numbers) in from_there.iter().chain(before.iter()) {
            if let Some(step) = self.pick_of(*who, numbers, round) {
                return Some(step);
            }
        }
        None
    }

    /// A step of one of the tenant's searches of these numbers. The turn picks which of them is looked at first.
    fn pick_of(&self, who: Entity, numbers: &IndexSet<u64>, turn: u64) -> Option<Step>
        ensures { MatchOption result (AllByRecursion (SearchIsQuiet self.now who) numbers.now.keys)
            (λ step. CanBeMade self.now step × (SearchIsQuiet self.now (search_of_step step).0 (search_of_step step).1 → ⊥)) }
    {
        let (place, _round) = begin_at(numbers.len(), turn);
        let (before, from_there) = numbers.as_slice().split_at(place);
        for &number in from_there.iter().chain(before.iter()) {
            let Some(search) = self.search(who, number) else {
                continue;
            };
            if let Some(step) = next_step(search, who, number) {
                return Some(step);
            }
        }
        None
    }
}

/// The place among so many that the turn picks, and how often all of them had their turn before.
fn begin_at(count: usize, turn: u64) -> (usize, u64)
    ensures { result.0 ≤ count }
{
    let each = count.max(1) as u64;
    ((turn % each) as usize, turn / each)
}
