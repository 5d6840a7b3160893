//! How a search is carried on by itself, with what its own snapshot says.
ghost use Rattle.std.specs.Prelude.{◌≡◌, ◌⊎◌, ℕ, false, true};

use crate::searches::Search;

impl Search {
    ghost use Rattle.search.specs.Search.{IsOutstanding, SameQuestion, Settles};
    ghost use Rattle.search.specs.Stage.{IsQuiet, NoneHeld, HoldsAsBefore};
    ghost use Rattle.search.specs.Finish.{SignalsFirst, FinishesFirst, IsDriven};
    ghost use Rattle.search.specs.declared.queries.Need.{Need};
    ghost use Rattle.search.specs.declared.outcomes.Finished.{Finished};

    /// Carries the search on until nothing more of it can be: the oldest signal goes first, then the first waiting
    /// letter; the rows of a role that opens are looked up in the search's own snapshot. Letters that others hold stay with them.
    pub fn drive(&mut self)
        ensures driven { IsDriven self.old self.new }
        ensures quiet { IsQuiet self.new.stage }
        ensures settled { NoneHeld self.old.stage → IsOutstanding self.new.stage → ⊥ }
        ensures held { HoldsAsBefore self.old.stage self.new.stage }
        ensures none_held { NoneHeld self.old.stage → NoneHeld self.new.stage }
        ensures question { SameQuestion self.old self.new }
        ensures settles { Settles self.old self.new }
    {
        loop {
            if self.signals() > 0 {
                self.signal(0);
            } else {
                let Some((letter, held)) = self.take_held(0) else {
                    break;
                };
                let _finished = self.receive_held(letter, &held, None);
            }
        }
        // Computes nothing: its contract says that what rests with no letter held has settled.
        let _settled = self.is_quiet();
    }
}
