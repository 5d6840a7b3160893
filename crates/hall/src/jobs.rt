ghost use Rattle.std.specs.Prelude.{◌≡◌};
ghost use Rattle.search.specs.Finish.{right_hint};

use names::Entity;
use search::{Hint, Task};
use std::marker::Model;

/// A letter taken from a tenant's search, with what it is to be looked up in. It is spent by finishing it or giving it back.
pub struct Job {
    pub(crate) who: Entity,
    pub(crate) number: u64,
    pub(crate) task: Task,
}

impl Model for Job {
    ghost use Rattle.std.specs.Arc.{arc_value};
    ghost use Rattle.hall.specs.Work.{TakenLetter};

    ghost Value = { TakenLetter };

    ghost view = { λ j. record {
      who = j.who;
      number = j.number;
      letter = j.task.letter;
      need = j.task.need;
      snapshot = arc_value j.task.snap;
    } };
}

impl Job {
    /// What the letter needs, by the snapshot of its search.
    pub fn look_up(&self) -> Hint
        ensures { result ≡ right_hint self.now.snapshot.vaults self.now.need }
    {
        self.task.need.look_up(&self.task.snap)
    }
}
