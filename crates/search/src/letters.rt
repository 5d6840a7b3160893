ghost use Rattle.std.specs.Prelude.{◌≡◌, ⊤};

use cred_graph::Port;
use names::Entity;
use scholten_core::Parent;
use std::alloc::AllocError;

/// What a letter of a search says, of entities by number, or in words, as contracts tell what it means, by name. Who says it to
/// whom is the letter's.
#[derive(Copy)]
pub enum Load<E = Entity> {
    /// The environment asks the role that the search is for.
    Start,
    /// The sender listens to the receiver on this port.
    Ask(Port<E>),
    /// The entity is a member of what the receiver asked on this port.
    Tell(Port<E>, E),
}

impl<E: Copy> Clone for Load<E> {
    ghost is_clone = { λ x y. y ≡ x };

    ghost is_infallible = { λ _. ⊤ };

    fn clone(&self) -> Result<Self, AllocError> {
        Ok(*self)
    }
}

/// A letter in the hands of who finishes it.
#[derive(Drop)]
pub struct Held<L> {
    pub from: Parent,
    pub to: u64,
    pub load: L,
}
