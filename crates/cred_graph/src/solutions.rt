//! Solutions of a node, and their reasons, by name and by number.
ghost use Rattle.std.specs.Prelude.{◌≡◌, ◌≤◌, ◌^◌, length, ⊤};
ghost use Rattle.cred_graph.specs.Numbers.{reason_at, IsReason, HasNumbers};

use crate::nodes::Nodes;
use names::Entity;
use std::alloc::AllocError;

/// Why an entity is a solution of a node. Nodes have numbers of the type `N`; the member of a base is an `Entity`, or the
/// number of one.
#[derive(Copy, PartialEq, Eq)]
pub enum Reason<N = u64, E = Entity> {
    /// The node's expression is the entity.
    Leaf,
    /// The node is a role, and the entity a solution of this node, the body of one of its credentials.
    Body(N),
    /// The node is a linked role, this a member of its base, and the solution is in the role that it gives
    /// under the linked name.
    Via(E),
    /// The node is an intersection, and the entity a solution of each part.
    Parts,
}

impl<N: Copy, E: Copy> Clone for Reason<N, E> {
    ghost is_clone = { λ x y. y ≡ x };

    ghost is_infallible = { λ _. ⊤ };

    fn clone(&self) -> Result<Self, AllocError> {
        Ok(*self)
    }
}

/// That an entity is a solution of a node, for a reason.
#[derive(Clone, Copy)]
pub struct Solution {
    pub node: u64,
    pub who: Entity,
    pub reason: Reason,
}

/// The reason with numbers for names.
pub fn reason_number(nodes: &Nodes, reason: &Reason) -> Reason<u32, u32>
    requires short { length nodes.now ≤ 2 ^ 32 }
    requires numbers { HasNumbers nodes.now reason.now }
    ensures same { reason_at nodes.now result ≡ reason.now }
    ensures number { IsReason nodes.now result }
{
    match reason {
        Reason::Leaf => Reason::Leaf,
        Reason::Body(m) => Reason::Body(*m as u32),
        Reason::Via(who) => match nodes.entity_number(who) {
            Some(k) => Reason::Via(k),
            None => unreachable!(),
        },
        Reason::Parts => Reason::Parts,
    }
}

/// The reason with names for numbers.
pub fn reason_name(nodes: &Nodes, reason: Reason<u32, u32>) -> Reason
    requires { IsReason nodes.now reason }
    ensures { result ≡ reason_at nodes.now reason }
{
    match reason {
        Reason::Leaf => Reason::Leaf,
        Reason::Body(m) => Reason::Body(m as u64),
        Reason::Via(k) => Reason::Via(nodes.entity(k)),
        Reason::Parts => Reason::Parts,
    }
}
