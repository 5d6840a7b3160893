//! What a worker does when it has the lock.
ghost use Rattle.std.specs.Prelude.{◌≡◌, ◌<◌, ◌≤◌, ◌+◌, ◌↔◌, [], IsTrue, option_map, if◌then◌else◌};
ghost use Rattle.hall.specs.Batches.{IsLookedUp, name_of};
ghost use Rattle.hall.specs.Work.{IsVisit, TellsEnds};
ghost use Rattle.pool.specs.Rooms.{IsIdle};

use crate::keepers::Naming;
use crate::rooms::Room;
use crate::tallies::Tally;
use hall::{Batch, Ends, Order, Visit};

/// How many steps a worker makes in one visit, and how many letters it holds, at the most.
pub(crate) const BATCH: usize = 32;

impl<L: Naming> Room<L> {
    /// Whether a worker has nothing to do, whosever turn it is, and is not to end.
    pub(crate) fn is_idle(&self, turn: u64) -> bool
        ensures { IsTrue result ↔ IsIdle self.now }
    {
        self.kept();
        !self.stopped && self.hall.pick(turn).is_none()
    }

    /// A worker hands in what it holds and works on as the order says. After a stop it gives all back, and makes no step. The
    /// letters that are finished count in its tally. The searches that come to their ends by it are told.
    #[inline(always)]
    pub(crate) fn work(
        &mut self,
        turn: u64,
        order: Order,
        batch: &mut Batch,
        ends: &mut Ends,
        tally: &mut Tally<L>,
    ) -> Visit
        requires looked_up { IsLookedUp batch.old }
        requires space { BATCH ≤ batch.old.room }
        requires told { ends.old ≡ [] }
        requires worker { 0 < tally.old.workers }
        ensures visit { IsVisit (if self.old.stopped then Order.GiveBack else order) 32
            self.old.hall batch.old result self.new.hall batch.new }
        ensures ends { TellsEnds (option_map name_of batch.old.of) self.old.hall self.new.hall ends.new }
        ensures room { self.new ≡ record self.old { hall = self.new.hall } }
        ensures counted { tally.new ≡ record tally.old { letters = tally.old.letters + result.finished } }
    {
        let _length = self.hall.journal_len();
        let order = if self.stopped { Order::GiveBack } else { order };
        let visit = self.hall.work(turn, order, BATCH, batch, ends);
        self.crew.count(tally, visit.finished);
        visit
    }
}
