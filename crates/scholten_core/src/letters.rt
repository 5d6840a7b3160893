use crate::parents::Parent;

/// A letter that waits or is held. It stands in the computation until it is finished.
#[derive(Drop)]
pub struct Letter<P> {
    /// Who sent it, the environment or a node.
    pub from: Parent,
    /// The node that it goes to.
    pub to: u64,
    /// Whether it was taken and neither finished nor put back.
    pub held: bool,
    pub load: P,
}
