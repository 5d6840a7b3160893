ghost use Rattle.std.specs.Prelude.{◌≡◌, [], IfOk, OnOk, OnErr, Contains};

use crate::keys::Key;
use crate::told_keys::ToldKeys;
use names::Entity;
use std::alloc::{AllocError, Global};
use std::marker::Model;

/// What a linked role `A.s.t` was told: the members of its base `A.s`, and the entities that came to it by way of
/// these, by name or by another key. Contracts see it as the two lists, each in order of telling.
#[derive(Drop)]
pub struct LinkMonitor<K: Key = Entity> {
    bases: ToldKeys<K>,
    members: ToldKeys<K>,
}

impl<K: Key> Model for LinkMonitor<K> {
    ghost use Rattle.monitors.specs.LinkMonitor.{LinkToldBy};

    ghost Value = { LinkToldBy K };

    ghost view = { λ m. record { bases = m.bases; members = m.members } };
}

impl<K: Key> LinkMonitor<K> {
    ghost use Rattle.monitors.specs.LinkMonitor.{HearsBase, HearsVia};

    /// The monitor of a linked role that was told nothing yet.
    pub fn new(alloc: Global) -> Self
        ensures { result ≡ record { bases = []; members = [] } }
    {
        LinkMonitor {
            bases: ToldKeys::new(alloc),
            members: ToldKeys::new(alloc),
        }
    }

    /// Hears that the entity is a member of the base, and answers whether that is new.
    pub fn base_told(&mut self, base: K) -> Result<bool, AllocError>
        ensures ok { IfOk result (HearsBase self.old self.new base) }
        ensures told { OnOk result (Contains self.new.bases base) }
        ensures growth { OnErr result (Contains self.old.bases base → ⊥) }
        ensures unchanged { OnErr result (self.new ≡ self.old) }
    {
        self.bases.hear(base)
    }

    /// Hears that the entity is in the role which a member of the base gives it, and answers whether that is new: by
    /// way of which member it came doesn't count.
    pub fn via_told(&mut self, base: K, who: K) -> Result<bool, AllocError>
        requires { Contains self.old.bases base }
        ensures ok { IfOk result (HearsVia self.old self.new who) }
        ensures told { OnOk result (Contains self.new.members who) }
        ensures growth { OnErr result (Contains self.old.members who → ⊥) }
        ensures unchanged { OnErr result (self.new ≡ self.old) }
    {
        let _base = base;
        self.members.hear(who)
    }
}
