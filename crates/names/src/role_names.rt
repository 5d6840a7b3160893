ghost use Rattle.std.specs.Prelude.{◌≡◌, ◌↔◌, ℕ, List, Some, IsOk, IfOk, IfErr};
ghost use Rattle.names.specs.Name.{IsName, name_order};
ghost use Rattle.names.specs.Fault.{name_fault};

use crate::faults::NameFault;
use crate::held_names::Name;
use std::cmp::Ordering;
use std::marker::Model;

/// The name of a role within the roles of its owner.
#[derive(Clone, Copy, PartialEq, Eq, PartialOrd, Ord, Hash)]
pub struct RoleName {
    name: Name,
}

impl Model for RoleName {
    ghost Value = { List ℕ };

    ghost view = { λ n. n.name };

    ghost inverse = { λ text. record { name = text } };
}

impl RoleName {
    /// The role name that the text is: a letter, then letters, digits, `_` and `-`, 64 bytes at most. Case counts.
    pub fn read(text: &[u8]) -> Result<RoleName, NameFault>
        ensures accepted { IsOk result ↔ IsName text.now }
        ensures role_name { IfOk result (λ n. n ≡ text.now) }
        ensures refused { IfErr result (λ f. name_fault text.now ≡ Some f) }
    {
        let name = Name::read(text)?;
        Ok(RoleName { name })
    }

    /// The bytes of the name.
    pub fn bytes(&self) -> &[u8]
        ensures value { result.now ≡ self.now }
        ensures name { IsName self.now }
    {
        self.name.bytes()
    }

    /// The order of names: by their bytes, a prefix first.
    pub fn compare(&self, other: &RoleName) -> Ordering
        ensures { result ≡ name_order self.now other.now }
    {
        self.name.cmp(&other.name)
    }
}
