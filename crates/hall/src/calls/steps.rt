use names::Entity;
use search::{Hint, Need};

/// A step of a search, made by who works for the hall. The first two fields are whose search it is and its number.
#[derive(Clone, Copy)]
pub enum Step {
    /// Take the waiting letter at this place.
    Take(Entity, u64, u64),
    /// Let the held letter of this number wait again.
    GiveBack(Entity, u64, u64),
    /// Finish the held letter of this number with what was looked up.
    Finish(Entity, u64, u64, Hint),
    /// Deliver the signal at this place.
    Signal(Entity, u64, u64),
}

impl Step {
    ghost use Rattle.std.specs.Prelude.{◌≡◌};
    ghost use Rattle.hall.specs.Hall.{search_of_step};

    /// Whose search it is made of, and its number.
    pub fn search(&self) -> (Entity, u64)
        ensures { result ≡ search_of_step self.now }
    {
        match *self {
            Step::Take(who, number, _)
            | Step::GiveBack(who, number, _)
            | Step::Finish(who, number, _, _)
            | Step::Signal(who, number, _) => (who, number),
        }
    }
}

/// How a step went.
#[derive(Clone, Copy)]
pub enum Stepped {
    /// The letter of this number was taken, which needs this.
    Took(u64, Need),
    /// Nothing stands at the place.
    Nothing,
    /// The letter waits again.
    Back,
    /// The signal was delivered.
    Signalled,
    /// The letter was finished.
    Done,
    /// The hint isn't the one that the letter needs: the letter waits again.
    BadHint,
    /// The work of the search exceeds its limit.
    Spent,
    /// Memory was refused, and the search is broken.
    Broken,
    /// No such letter is held.
    NotHeld,
    /// There is no such search, or it was ended.
    Gone,
}
