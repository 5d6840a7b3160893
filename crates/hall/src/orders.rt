//! Visits of somebody who works for a hall: what he asks for, and what came of it.
ghost use Rattle.std.specs.Prelude.{◌≡◌, ◌≤◌, ◌+◌, ◌++◌, ℕ, List, [], length, None, Some, MatchOption, option_map};
ghost use Rattle.hall.specs.Batches.{IsEmpty, IsLookedUp, name_of};
ghost use Rattle.hall.specs.Work.{IsVisit, GoesOnAs, TellsEnds};

use crate::batches::Batch;
use crate::ends::Ends;
use crate::halls::Hall;
use names::Entity;

/// What is to be done with the letters of a batch, and then.
#[derive(Clone, Copy)]
pub enum Order {
    /// They are finished. Then steps are made of their search, or, where nothing of that is left to do, of the one whose turn it is.
    GoOn,
    /// They are finished. Then steps are made of the search whose turn it is.
    TakeTurn,
    /// They are finished, and no step is made.
    HandIn,
    /// They wait again, and no step is made.
    GiveBack,
}

impl Order {
    ghost use Rattle.hall.specs.Work.{gives_back};

    /// Whether the letters are given back.
    pub(crate) fn gives_back(self) -> bool
        ensures { result ≡ gives_back self }
    {
        matches!(self, Order::GiveBack)
    }
}

/// What came of a visit to a hall.
#[derive(Clone, Copy)]
pub struct Visit {
    /// How many of the letters are finished.
    pub finished: u64,
    /// How it went on.
    pub next: Next,
}

/// How a visit went on once the letters were handed in.
#[derive(Clone, Copy)]
pub enum Next {
    /// Steps were made of a search.
    Worked {
        /// Whether anything of it is left to do.
        left: bool,
    },
    /// Nothing of any search is left to do.
    Idle,
    /// Something is left, and there was no memory to share what its search reads: no step was made.
    NoMemory,
    /// No step was asked for.
    Unasked,
}

impl Hall {
    ghost use Rattle.hall.specs.{Work.WorksThrough, Hall.GoesOnAt, Hall.search_at};

    /// A visit of somebody who works for the hall. The letters of the batch are handed in as the order says. Then, where it asks
    /// for that, at most so many steps are made of one search: each delivers its oldest signal, or else takes its first letter
    /// that waits, as long as there is either. The batch has the letters then. The turn chooses among the searches that may go
    /// on; a search is looked up once. The searches that come to their ends by it are told.
    pub fn work(
        &mut self,
        turn: u64,
        order: Order,
        most: usize,
        batch: &mut Batch,
        ends: &mut Ends,
    ) -> Visit
        requires looked_up { IsLookedUp batch.old }
        requires space { most ≤ batch.old.room }
        requires told { ends.old ≡ [] }
        ensures visit { IsVisit order most self.old batch.old result self.new batch.new }
        ensures ends { TellsEnds (option_map name_of batch.old.of) self.old self.new ends.new }
    {
        let Some((who, number)) = batch.search() else {
            let next = self.take_turn(turn, order, most, batch, ends);
            return Visit { finished: 0, next };
        };
        let (finished, next) = self.work_on(&who, number, order, most, batch, ends);
        let next = match next {
            Some(next) => next,
            None => self.take_turn(turn, order, most, batch, ends),
        };
        Visit { finished, next }
    }

    /// Makes steps of the search whose turn it is, where steps are asked for.
    fn take_turn(
        &mut self,
        turn: u64,
        order: Order,
        most: usize,
        batch: &mut Batch,
        ends: &mut Ends,
    ) -> Next
        requires empty { IsEmpty batch.old }
        requires space { most ≤ batch.old.room }
        requires told { length ends.old ≤ 1 }
        ensures next { GoesOnAs order most batch.old.room self.old None result self.new batch.new }
        ensures ends { (told : List (List ℕ × ℕ)) × (ends.new ≡ ends.old ++ told) × TellsEnds None self.old self.new told }
    {
        let (Order::GoOn | Order::TakeTurn) = order else {
            return Next::Unasked;
        };
        let Some(step) = self.pick(turn) else {
            return Next::Idle;
        };
        let (who, number) = step.search();
        let (_none, next) = self.work_on(&who, number, Order::GoOn, most, batch, ends);
        let Some(next) = next else { unreachable!() };
        next
    }

    /// Hands the letters of the batch in to the tenant's search of the number, which they are of, and goes on with it where that
    /// is asked and anything of it is left to do. Answers how many letters are finished, and how it went on, if it did.
    fn work_on(
        &mut self,
        who: &Entity,
        number: u64,
        order: Order,
        most: usize,
        batch: &mut Batch,
        ends: &mut Ends,
    ) -> (u64, Option<Next>)
        requires looked_up { IsLookedUp batch.old }
        requires of { MatchOption batch.old.of (Unit {0}) (λ of. name_of of ≡ (who.now, number)) }
        requires space { most ≤ batch.old.room }
        requires told { length ends.old ≤ 1 }
        ensures works { GoesOnAt self.old who.now number (search_at self.old who.now number)
            ((result ≡ (0, None)) × IsEmpty batch.new × (batch.new.room ≡ batch.old.room))
            (λ s t. WorksThrough order most (who.now, number) s batch.old result.0 result.1 t batch.new) self.new }
        ensures ends { (told : List (List ℕ × ℕ)) × (ends.new ≡ ends.old ++ told)
            × TellsEnds (Some (who.now, number)) self.old self.new told }
        ensures told { length ends.new ≤ length ends.old + 1 }
    {
        let lent = self.lend(who, number, batch, |opened, batch| {
            opened.work(who, number, order, most, batch)
        });
        let Ok(((finished, next), over)) = lent else {
            batch.let_go();
            return (0, None);
        };
        if over {
            ends.put(who, number);
        }
        (finished, next)
    }
}
