use crate::lists::Names;

/// What a search has come to.
#[derive(Drop)]
pub enum Answer {
    /// Nothing yet.
    Working,
    /// The entity is a member.
    Yes,
    /// The entity is no member.
    No,
    /// The members, in order.
    Members(Names),
    /// The work exceeds the limit.
    Spent,
    /// Memory was refused.
    Broken,
}
