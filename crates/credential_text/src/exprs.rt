ghost use Rattle.std.specs.Prelude.{◌≡◌, ◌++◌, IfOk, OnErr, fold};
ghost use Rattle.std.specs.List.{flat_map};
ghost use Rattle.std.specs.Hash as fed;

use crate::intersections::{Part, Parts, are_based_on};
use names::{Entity, Role, RoleName};
use std::alloc::AllocError;
use std::cmp::Ordering;
use std::hash::{Hash, Hasher};

/// What stands behind the arrow of a credential: who is given to the role in its head.
#[derive(PartialEq, Eq)]
pub enum Expr {
    /// An entity, whose one member is itself.
    Ent(Entity),
    /// A role, with its members.
    Rol(Role),
    /// A linked role: for each member of the base role, the members of that member's role of this name.
    Link(Role, RoleName),
    /// An intersection: who is in every part.
    Meet(Parts),
}

// By hand, so that who holds one drops it by one call, whose proof stands here.
impl Drop for Expr {
    fn drop(self) {
        match self {
            Expr::Ent(_entity) => {}
            Expr::Rol(_role) => {}
            Expr::Link(_base, _name) => {}
            Expr::Meet(_parts) => {}
        }
    }
}

impl Expr {
    ghost use Rattle.credential_text.specs.Expr.{HasPartsInRange, IsIntersection, expr_kind, expr_order, keeps_issuer};

    fn kind(&self) -> u8
        ensures { result ≡ expr_kind self.now }
    {
        match self {
            Expr::Ent(_entity) => 0,
            Expr::Rol(_role) => 1,
            Expr::Link(_base, _name) => 2,
            Expr::Meet(_parts) => 3,
        }
    }

    /// The order of expressions: by kind (entity, role, linked role, intersection), then by their names from left to
    /// right, intersections part by part, a prefix first.
    pub fn compare(&self, other: &Expr) -> Ordering
        ensures { result ≡ expr_order self.now other.now }
    {
        match (self, other) {
            (Expr::Ent(a), Expr::Ent(b)) => a.compare(b),
            (Expr::Rol(a), Expr::Rol(b)) => a.compare(b),
            (Expr::Link(a, m), Expr::Link(b, n)) => a.compare(b).then(m.compare(n)),
            (Expr::Meet(a), Expr::Meet(b)) => a.compare(b),
            _ => self.kind().cmp(&other.kind()),
        }
    }

    /// Whether every linked role in the body of a credential of this head is based on a role of its issuer.
    pub(crate) fn keeps_issuer(&self, head: &Role) -> bool
        ensures { result ≡ keeps_issuer head.now self.now }
    {
        match self {
            Expr::Ent(_entity) => true,
            Expr::Rol(_role) => true,
            Expr::Link(base, _name) => base.owner == head.owner,
            Expr::Meet(parts) => are_based_on(parts.as_slice(), &head.owner),
        }
    }

    /// A copy of the expression. Only the copy of an intersection takes memory.
    pub fn try_clone(&self) -> Result<Expr, AllocError>
        ensures same { IfOk result (λ e. e ≡ self.now) }
        ensures growth { OnErr result (IsIntersection self.now) }
        ensures range { HasPartsInRange self.now }
    {
        Ok(match self {
            Expr::Ent(entity) => Expr::Ent(*entity),
            Expr::Rol(role) => Expr::Rol(*role),
            Expr::Link(base, name) => Expr::Link(*base, *name),
            Expr::Meet(parts) => {
                let _parts = parts.as_slice();
                Expr::Meet(parts.try_clone()?)
            }
        })
    }
}

// By its names alone: how many there are tells an entity, a role and a linked role apart.
impl Hash for Expr {
    ghost use Rattle.std.specs.Hash.{same_Alike};
    ghost use Rattle.credential_text.specs.Expr.{plain_names, met_parts};
    ghost use Rattle.credential_text.specs.Equality.{exprs_decided};

    ghost hash_input = { λ e. flat_map (λ name. flat_map fed.u8 name ++ fed.u8 0) (plain_names e)
        ++ flat_map ⟦<Part as Hash>⟧.hash_input (met_parts e) };

    ghost respects_eq = { (same_Alike _ exprs_decided).fed };

    fn hash<H: Hasher>(&self, state: &mut H) {
        match self {
            Expr::Ent(who) => hash_name(who.bytes(), state),
            Expr::Rol(role) => hash_role(role, state),
            Expr::Link(base, name) => {
                hash_role(base, state);
                hash_name(name.bytes(), state);
            }
            Expr::Meet(parts) => Part::hash_slice(parts.as_slice(), state),
        }
    }
}

// Both names of the role.
fn hash_role<H: Hasher>(role: &Role, state: &mut H)
    ensures { state.new ≡ fold H.write state.old
        ((flat_map fed.u8 role.now.owner ++ fed.u8 0) ++ flat_map fed.u8 role.now.name ++ fed.u8 0) }
{
    hash_name(role.owner.bytes(), state);
    hash_name(role.name.bytes(), state);
}

// The bytes of the name, and a zero, which no name has. To hash its length would take as long as ten bytes.
fn hash_name<H: Hasher>(bytes: &[u8], state: &mut H)
    ensures { state.new ≡ fold H.write state.old (flat_map fed.u8 bytes.now ++ fed.u8 0) }
{
    u8::hash_slice(bytes, state);
    state.write_u8(0);
}
