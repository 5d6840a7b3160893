ghost use Rattle.std.specs.Prelude.{◌≡◌, Some, IfOk, IfErr};
ghost use Rattle.names.specs.Fault.{role_fault};

use crate::entities::Entity;
use crate::faults::NameFault;
use crate::role_names::RoleName;
use crate::texts::cut;
use std::cmp::Ordering;

/// A role: the set of entities that its owner defines under the role name. Only the owner defines it.
#[derive(Clone, Copy, PartialEq, Eq, PartialOrd, Ord, Hash)]
pub struct Role {
    pub owner: Entity,
    pub name: RoleName,
}

impl Role {
    ghost use Rattle.names.specs.Role.{SpellsRole, role_order};

    /// The role that the text spells, `OWNER.NAME`, or the first fault of the text.
    pub fn read(text: &[u8]) -> Result<Role, NameFault>
        ensures role { IfOk result (λ r. SpellsRole text.now r) }
        ensures refused { IfErr result (λ f. role_fault text.now ≡ Some f) }
    {
        let (owner, Some(rest)) = cut(text, b'.') else {
            return Err(NameFault::NotRole);
        };
        let (name, more) = cut(rest, b'.');
        if more.is_some() {
            return Err(NameFault::NotRole);
        }
        let owner = Entity::read(owner)?;
        let name = RoleName::read(name)?;
        Ok(Role { owner, name })
    }

    /// The order of roles: by owner, then by role name.
    pub fn compare(&self, other: &Role) -> Ordering
        ensures { result ≡ role_order self.now other.now }
    {
        self.owner
            .compare(&other.owner)
            .then_with(|| self.name.compare(&other.name))
    }
}
