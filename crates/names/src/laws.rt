ghost use Rattle.std.specs.Prelude.{◌≡◌, ◌++◌, ℕ, List};
ghost use Rattle.std.specs.Hash as fed;
ghost use Rattle.names.specs.declared.roles.Role.{Role as AnyRole};
ghost use Rattle.names.specs.Name.{name_order};
ghost use Rattle.names.specs.Role.{role_order};
ghost use Rattle.names.specs.Order.{ComparesBy};
ghost use Rattle.names.specs.Laws.{FaultlessAreNames, FaultlessAreRoles, NamesInOrder, RolesInOrder};

use crate::entities::Entity;
use crate::role_names::RoleName;
use crate::roles::Role;
use std::hash::Hash;

/// The laws of names and roles: a text has no fault exactly where it is a name, or spells a role; both orders are
/// total, and two are tied only where they are equal.
pub fn names_and_orders()
    ensures names { FaultlessAreNames }
    ensures roles { FaultlessAreRoles }
    ensures name_order { NamesInOrder }
    ensures role_order { RolesInOrder }
{}

/// The laws of `==`, `<` and hashes: two are found the same exactly where they are equal, both comparisons are their
/// order, and what is hashed is the bytes of the names.
pub fn operators_are_exact()
    ensures entities { ComparesBy name_order ⟦<Entity as PartialEq>⟧.eq ⟦<Entity as PartialOrd>⟧.partial_cmp ⟦<Entity as Ord>⟧.cmp }
    ensures role_names { ComparesBy name_order ⟦<RoleName as PartialEq>⟧.eq ⟦<RoleName as PartialOrd>⟧.partial_cmp ⟦<RoleName as Ord>⟧.cmp }
    ensures roles { ComparesBy role_order ⟦<Role as PartialEq>⟧.eq ⟦<Role as PartialOrd>⟧.partial_cmp ⟦<Role as Ord>⟧.cmp }
    ensures entity_hash { (a : List ℕ) → ⟦<Entity as Hash>⟧.hash_input a ≡ fed.slice fed.u8 a }
    ensures role_name_hash { (a : List ℕ) → ⟦<RoleName as Hash>⟧.hash_input a ≡ fed.slice fed.u8 a }
    ensures role_hash { (r : AnyRole) → ⟦<Role as Hash>⟧.hash_input r ≡ fed.slice fed.u8 r.owner ++ fed.slice fed.u8 r.name }
{}
