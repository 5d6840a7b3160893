use names::{Entity, Role};
use snapshots::{Snapshot, Span};
use std::sync::Arc;

/// What a search is for.
#[derive(Clone, Copy)]
pub enum Query {
    /// Whether the entity is a member of the role.
    Ask(Role, Entity),
    /// Who is a member of the role.
    Who(Role),
}

impl Query {
    ghost use Rattle.std.specs.Prelude.{◌≡◌};
    ghost use Rattle.search.specs.Search.{asked_role};

    /// The role that is asked about.
    pub fn role(&self) -> Role
        ensures { result ≡ asked_role self.now }
    {
        match self {
            Query::Ask(role, _who) => *role,
            Query::Who(role) => *role,
        }
    }
}

/// What a letter needs to be finished.
#[derive(Clone, Copy)]
pub enum Need {
    /// The rows of this role.
    Rows(Role),
    Nothing,
}

impl Need {
    ghost use Rattle.std.specs.Prelude.{◌≡◌, option_copied};
    ghost use Rattle.search.specs.Finish.{need_for, right_hint};

    /// The hint that it asks for.
    #[inline(always)]
    pub fn look_up(&self, snapshot: &Snapshot) -> Hint
        ensures { result ≡ right_hint snapshot.now.vaults self.now }
    {
        match self {
            Need::Rows(role) => Hint::Rows(snapshot.find(role)),
            Need::Nothing => Hint::Nothing,
        }
    }
}

/// What who finishes a letter has looked up.
#[derive(Clone, Copy)]
pub enum Hint {
    /// Where the rows of the needed role stand.
    Rows(Span),
    Nothing,
}

impl Hint {
    ghost use Rattle.std.specs.Prelude.{◌≡◌, option_copied};
    ghost use Rattle.search.specs.Finish.{span_in};

    pub(crate) fn span(&self) -> Option<&Span>
        ensures { option_copied result ≡ span_in self.now }
    {
        match self {
            Hint::Rows(span) => Some(span),
            Hint::Nothing => None,
        }
    }
}

/// A letter that was taken, and what is needed to finish it.
#[derive(Drop)]
pub struct Task {
    pub letter: u64,
    pub need: Need,
    pub snap: Arc<Snapshot>,
}
