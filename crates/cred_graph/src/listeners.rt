//! Who listens to a node, and on which port: as contracts see it, by number, and as a graph keeps it.
ghost use Rattle.std.specs.Prelude.{◌≡◌, ⊤, IfOk, OnErr};
ghost use Rattle.std.specs.Hash as fed;
ghost use borrow.Author.Rules.{rules};
ghost use Rattle.cred_graph.specs.Numbers.{port_at, IsPort, IsNamed};
ghost use Rattle.cred_graph.specs.Stored.{kept_as, IsKept, Joins};

use crate::nodes::Nodes;
use credential_text::Expr;
use names::Entity;
use std::alloc::AllocError;
use std::hash::{Hash, Hasher};

/// For what an expression listens to another. The member of a base is an `Entity`, or the number of one.
#[derive(Copy, PartialEq, Eq)]
pub enum Port<E = Entity> {
    /// A role, for the body of one of its credentials.
    Body,
    /// A linked role, for its base.
    Base,
    /// A linked role, for the role that this member of its base gives it.
    Via(E),
    /// An intersection, for its part of this number, counted from 0.
    Part(u8),
}

impl<E: Copy> Clone for Port<E> {
    ghost is_clone = { λ x y. y ≡ x };

    ghost is_infallible = { λ _. ⊤ };

    fn clone(&self) -> Result<Self, AllocError> {
        Ok(*self)
    }
}

/// Who listens to a node: the node `asker`, on a port. One node may listen to another on two ports, which are two
/// listeners.
#[derive(Clone, Copy)]
pub struct Listening {
    pub asker: u64,
    pub port: Port,
}

/// A listener as a graph keeps it.
#[derive(Clone, Copy, Default, PartialEq, Eq)]
pub struct KeptListening {
    pub asker: u32,
    pub port: KeptPort,
}

// By the asker alone, since a node listens to another on few ports.
impl Hash for KeptListening {
    ghost hash_input = { λ l. fed.u32 l.asker };

    ghost respects_eq = { Prim.search rules };

    fn hash<H: Hasher>(&self, state: &mut H) {
        self.asker.hash(state);
    }
}

/// A port as a graph keeps it. A member of a base that had no node when it was first named is a stranger, and goes on
/// to have its number among the strangers.
#[derive(Clone, Copy, Default, PartialEq, Eq)]
pub enum KeptPort {
    #[default]
    Body,
    Base,
    Via(u32),
    Stranger(u32),
    Part(u8),
}

/// The port as it is kept from now on.
pub fn keep_port(nodes: &Nodes, strangers: &mut Nodes, port: &Port) -> Result<KeptPort, AllocError>
    ensures kept { IfOk result (λ p. IsKept nodes.now strangers.new p × (kept_as nodes.now strangers.new p ≡ port.now)) }
    ensures joins { Joins nodes.now strangers.old strangers.new }
    ensures refused { OnErr result ((p : KeptPort) → IsKept nodes.now strangers.old p → kept_as nodes.now strangers.old p ≡ port.now → ⊥) }
{
    Ok(match port {
        Port::Body => KeptPort::Body,
        Port::Base => KeptPort::Base,
        Port::Via(who) => match strangers.entity_number(who) {
            Some(j) => KeptPort::Stranger(j),
            None => match nodes.entity_number(who) {
                Some(k) => KeptPort::Via(k),
                None => KeptPort::Stranger(strangers.add(&Expr::Ent(*who))?),
            },
        },
        Port::Part(part) => KeptPort::Part(*part),
    })
}

/// The port of a number as it is kept. Where there is no stranger no table is asked.
pub fn kept_port(nodes: &Nodes, strangers: &Nodes, port: Port<u32>) -> KeptPort
    requires { IsPort nodes.now port }
    ensures kept { IsKept nodes.now strangers.now result }
    ensures same { kept_as nodes.now strangers.now result ≡ port_at nodes.now port }
{
    match port {
        Port::Body => KeptPort::Body,
        Port::Base => KeptPort::Base,
        Port::Via(k) => {
            if strangers.count() == 0 {
                return KeptPort::Via(k);
            }
            match strangers.entity_number(&nodes.entity(k)) {
                Some(j) => KeptPort::Stranger(j),
                None => KeptPort::Via(k),
            }
        }
        Port::Part(part) => KeptPort::Part(part),
    }
}

/// The port with its name.
pub fn port_name(nodes: &Nodes, strangers: &Nodes, port: KeptPort) -> Port
    requires { IsKept nodes.now strangers.now port }
    ensures { result ≡ kept_as nodes.now strangers.now port }
{
    match port {
        KeptPort::Body => Port::Body,
        KeptPort::Base => Port::Base,
        KeptPort::Via(k) => Port::Via(nodes.entity(k)),
        KeptPort::Stranger(j) => Port::Via(strangers.entity(j)),
        KeptPort::Part(part) => Port::Part(part),
    }
}

/// The port with the number of its name.
pub fn port_number(nodes: &Nodes, strangers: &Nodes, port: KeptPort) -> Port<u32>
    requires kept { IsKept nodes.now strangers.now port }
    requires named { IsNamed nodes.now (kept_as nodes.now strangers.now port) }
    ensures same { port_at nodes.now result ≡ kept_as nodes.now strangers.now port }
    ensures number { IsPort nodes.now result }
{
    match port {
        KeptPort::Body => Port::Body,
        KeptPort::Base => Port::Base,
        KeptPort::Via(k) => Port::Via(k),
        KeptPort::Stranger(j) => match nodes.entity_number(&strangers.entity(j)) {
            Some(k) => Port::Via(k),
            None => unreachable!(),
        },
        KeptPort::Part(part) => Port::Part(part),
    }
}
