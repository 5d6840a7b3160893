ghost use Rattle.std.specs.Prelude.{◌≡◌, ◌↔◌, ℕ, List, Some, IsOk, IfOk, IfErr};
ghost use Rattle.names.specs.Name.{IsName, name_order};
ghost use Rattle.names.specs.Fault.{name_fault};

use crate::faults::NameFault;
use crate::held_names::Name;
use std::cmp::Ordering;
use std::marker::Model;

/// Someone who issues credentials or is a member of roles; RT0's entity, also called a principal.
#[derive(Clone, Copy, PartialEq, Eq, PartialOrd, Ord, Hash)]
pub struct Entity {
    name: Name,
}

impl Model for Entity {
    ghost Value = { List ℕ };

    ghost view = { λ e. e.name };

    ghost inverse = { λ text. record { name = text } };
}

impl Entity {
    /// The entity of this name: a letter, then letters, digits, `_` and `-`, 64 bytes at most. Case counts.
    pub fn read(text: &[u8]) -> Result<Entity, NameFault>
        ensures accepted { IsOk result ↔ IsName text.now }
        ensures entity { IfOk result (λ e. e ≡ text.now) }
        ensures refused { IfErr result (λ f. name_fault text.now ≡ Some f) }
    {
        let name = Name::read(text)?;
        Ok(Entity { name })
    }

    /// The bytes of the name.
    pub fn bytes(&self) -> &[u8]
        ensures value { result.now ≡ self.now }
        ensures name { IsName self.now }
    {
        self.name.bytes()
    }

    /// The order of names: by their bytes, a prefix first.
    pub fn compare(&self, other: &Entity) -> Ordering
        ensures { result ≡ name_order self.now other.now }
    {
        self.name.cmp(&other.name)
    }
}
