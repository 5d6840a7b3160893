//! A place in the table of letters.
ghost use Rattle.std.specs.Prelude.{◌≡◌, true, false, is_some, is_none, None, Some, option_copied, option_map};
ghost use Rattle.scholten_core.specs.Computation.{same_parent};
ghost use Rattle.scholten_core.specs.LetterTable.{does_wait};

use crate::letters::Letter;
use crate::parents::Parent;
use std::marker::Model;

/// A letter, or a hole, which is from nobody. What a finished letter said stays in its hole. Contracts see an option.
#[derive(Drop)]
pub(crate) struct Slot<P> {
    letter: Letter<P>,
}

impl<P> Model for Slot<P> {
    ghost use Rattle.std.specs.Prelude.{Option};
    ghost use Rattle.scholten_core.specs.declared.letters.Letter.{Letter};

    ghost Value = { Option (Letter P) };

    ghost use Rattle.scholten_core.specs.LetterTable.{from_somebody};

    ghost view = { λ s. from_somebody s.letter.from s.letter };
}

impl<P> Slot<P> {
    ghost use Rattle.scholten_core.specs.declared.letters.Letter.{Letter};

    /// A letter that somebody sent.
    pub(crate) fn full(letter: Letter<P>) -> Self
        requires { same_parent letter.from Parent.Neutral ≡ false }
        ensures { result ≡ Some letter }
    {
        Slot { letter }
    }

    pub(crate) fn empty(&mut self)
        ensures { self.new ≡ None }
    {
        self.letter.from = Parent::Neutral;
    }

    /// A letter is held from now on, or waits again.
    pub(crate) fn hold(&mut self, held: bool)
        ensures { self.new ≡ option_map (λ (l : Letter P). record l { held = held }) self.old }
    {
        self.letter.held = held;
    }

    pub(crate) fn waits(&self) -> bool
        ensures { result ≡ does_wait self.now }
    {
        match self.letter.from {
            Parent::Neutral => false,
            Parent::Environment => !self.letter.held,
            Parent::Node(_node) => !self.letter.held,
        }
    }

    pub(crate) fn is_hole(&self) -> bool
        ensures { result ≡ is_none self.now }
    {
        match self.letter.from {
            Parent::Neutral => true,
            Parent::Environment => false,
            Parent::Node(_node) => false,
        }
    }

    pub(crate) fn letter(&self) -> Option<&Letter<P>>
        ensures { option_copied result ≡ self.now }
    {
        match self.letter.from {
            Parent::Neutral => None,
            Parent::Environment => Some(&self.letter),
            Parent::Node(_node) => Some(&self.letter),
        }
    }

    /// The letter of a place that is no hole.
    #[inline(always)]
    pub(crate) fn full_letter(&self) -> &Letter<P>
        requires { is_some self.now ≡ true }
        ensures { Some result.now ≡ self.now }
    {
        &self.letter
    }
}
