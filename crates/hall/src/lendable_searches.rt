//! A search as its keeper carries it: its own, or shared with who reads it.
ghost use Rattle.std.specs.Prelude.{◌≡◌, IfOk};
ghost use Rattle.std.specs.Arc.{arc_value};
ghost use Rattle.hall.specs.Kept.{IsLendable, lendable_search};
ghost use Rattle.search.specs.Search.{IsCompleted};

use search::{Search, Tables};
use std::alloc::{AllocError, Global};
use std::mem;
use std::sync::Arc;

/// A search as its keeper carries it.
#[derive(Drop)]
pub(crate) enum LendableSearch {
    /// Nobody else has it, and it may be carried on.
    Own(Search),
    /// It is completed, and shared with who reads it. Nothing changes it again.
    Lent(Arc<Search>),
    /// It is on its way from the one to the other, which no keeper sees.
    Moving,
}

impl LendableSearch {
    /// The search, however it is carried.
    pub(crate) fn search(&self) -> &Search
        requires { IsLendable self.now }
        ensures { result.now ≡ lendable_search self.now }
    {
        match self {
            LendableSearch::Own(search) => search,
            LendableSearch::Lent(shared) => shared,
            LendableSearch::Moving => unreachable!(),
        }
    }

    /// The completed search, shared from now on. It is moved to where it can be shared the first time; where memory for
    /// that is refused, nothing changes.
    pub(crate) fn lend(&mut self, alloc: Global) -> Result<Arc<Search>, AllocError>
        requires carried { IsLendable self.old }
        requires completed { IsCompleted (lendable_search self.old).stage }
        ensures lent { IfOk result (λ shared. arc_value shared ≡ lendable_search self.old) }
        ensures same { lendable_search self.new ≡ lendable_search self.old }
        ensures carried { IsLendable self.new }
    {
        let carried = mem::replace(self, LendableSearch::Moving);
        *self = carried.into_shared(alloc);
        match self {
            LendableSearch::Lent(shared) => shared.clone(),
            _ => Err(AllocError),
        }
    }

    /// Keeps no more room than it needs: from now on, where it isn't completed yet. The tables of its letters are spare then, where
    /// there are no others. One that somebody else has stays as it is.
    pub(crate) fn give_back(&mut self, spare: &mut Tables)
        requires carried { IsLendable self.old }
        ensures same { lendable_search self.new ≡ lendable_search self.old }
        ensures carried { IsLendable self.new }
    {
        match self {
            LendableSearch::Own(search) => search.give_back(spare),
            LendableSearch::Lent(shared) => {
                if let Some(search) = Arc::get_mut(shared) {
                    search.give_back(spare);
                }
            }
            LendableSearch::Moving => {}
        }
    }

    /// Whether the search is small.
    pub(crate) fn is_small(&self) -> bool {
        match self {
            LendableSearch::Own(search) => search.is_small(),
            LendableSearch::Lent(shared) => shared.is_small(),
            LendableSearch::Moving => false,
        }
    }

    /// Ends the search. Where nobody else has it, its tables are spare then.
    pub(crate) fn leave_tables(self, spare: &mut Tables) {
        match self {
            LendableSearch::Own(search) => search.leave_tables(spare),
            LendableSearch::Lent(shared) => {
                if let Some(search) = Arc::into_inner(shared) {
                    search.leave_tables(spare);
                }
            }
            LendableSearch::Moving => {}
        }
    }

    /// The search, shared where there is memory for that, and else as it is.
    fn into_shared(self, alloc: Global) -> LendableSearch
        requires carried { IsLendable self }
        requires completed { IsCompleted (lendable_search self).stage }
        ensures same { lendable_search result ≡ lendable_search self }
        ensures carried { IsLendable result }
    {
        match self {
            LendableSearch::Own(search) => match Arc::new(alloc, search) {
                Ok(shared) => LendableSearch::Lent(shared),
                Err(refused) => LendableSearch::Own(refused.value),
            },
            carried => carried,
        }
    }
}
