/// Who engaged a node, who sent a letter, or whom a signal goes to.
#[derive(Clone, Copy, PartialEq, Eq)]
pub enum Parent {
    /// Nobody: the node isn't engaged.
    Neutral,
    /// The one that started the computation.
    Environment,
    /// A node, by its number.
    Node(u64),
}
