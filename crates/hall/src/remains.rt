//! What is left of a search that was ended.

use crate::open_searches::OpenSearch;
use search::Tables;

/// What is left of a search that was ended. No call reads it any more, and to drop it may take long.
#[derive(Drop)]
pub struct Remains {
    ended: OpenSearch,
}

impl Remains {
    /// All of the search.
    pub(crate) fn of(ended: OpenSearch) -> Remains {
        Remains { ended }
    }

    /// Drops it. Where nobody else has the search, its tables are spare then.
    pub(crate) fn leave_tables(self, spare: &mut Tables) {
        let Remains { ended } = self;
        let OpenSearch {
            opened_at: _,
            carried,
        } = ended;
        carried.leave_tables(spare);
    }

    /// All of it, unless the search is small: that leaves its tables, where nobody else has it.
    pub(crate) fn unless_small(self, spare: &mut Tables) -> Option<Remains> {
        if !self.ended.carried.is_small() {
            return Some(self);
        }
        self.leave_tables(spare);
        None
    }
}
