/// What a search has come to.
#[derive(Clone, Copy, PartialEq, Eq)]
pub enum Status {
    /// Something of it is outstanding.
    Working,
    /// The entity is a member.
    Yes,
    /// The entity is no member.
    No,
    /// The members are found.
    Members,
    /// The work limit was met.
    Spent,
    /// Memory was refused.
    Broken,
}

/// How the finish of a letter went.
#[derive(Clone, Copy, PartialEq, Eq)]
pub enum Finished {
    Done,
    /// The hint isn't the one that the letter needs: the letter waits again.
    BadHint,
    /// The letters sent would exceed the work limit: the search is settled.
    Spent,
    /// Memory was refused: the search is settled.
    Broken,
    /// No such letter is held.
    NotHeld,
}
