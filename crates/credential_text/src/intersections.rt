ghost use Rattle.std.specs.Prelude.{◌≡◌, ◌↔◌, ◌≤◌, length, IsSome, IfSome, IfOk, OnErr};
ghost use Rattle.std.specs.List.{list_all};
ghost use Rattle.credential_text.specs.Part.{parts_order, is_based_on};

use crate::exprs::Expr;
use names::{Entity, Role, RoleName};
use std::alloc::{AllocError, Global};
use std::cmp::Ordering;
use std::hash::{Hash, Hasher};
use std::marker::Model;

/// What a body is made of: an entity, a role or a linked role.
#[derive(Clone, Copy, PartialEq, Eq, Hash)]
pub enum Part {
    /// An entity, whose one member is itself.
    Ent(Entity),
    /// A role, with its members.
    Rol(Role),
    /// A linked role: for each member of the base role, the members of that member's role of this name.
    Link(Role, RoleName),
}

impl Part {
    ghost use Rattle.credential_text.specs.Expr.{part_expr};
    ghost use Rattle.credential_text.specs.Part.{part_kind, part_order, is_based_on};

    /// The part as an expression.
    pub fn expr(&self) -> Expr
        ensures { result ≡ part_expr self.now }
    {
        match self {
            Part::Ent(entity) => Expr::Ent(*entity),
            Part::Rol(role) => Expr::Rol(*role),
            Part::Link(base, name) => Expr::Link(*base, *name),
        }
    }

    fn kind(&self) -> u8
        ensures { result ≡ part_kind self.now }
    {
        match self {
            Part::Ent(_entity) => 0,
            Part::Rol(_role) => 1,
            Part::Link(_base, _name) => 2,
        }
    }

    /// The order of parts: by kind (entity, role, linked role), then by their names from left to right.
    fn compare(&self, other: &Part) -> Ordering
        ensures { result ≡ part_order self.now other.now }
    {
        match (self, other) {
            (Part::Ent(a), Part::Ent(b)) => a.compare(b),
            (Part::Rol(a), Part::Rol(b)) => a.compare(b),
            (Part::Link(a, m), Part::Link(b, n)) => a.compare(b).then(m.compare(n)),
            _ => self.kind().cmp(&other.kind()),
        }
    }

    fn is_based_on(&self, issuer: &Entity) -> bool
        ensures { result ≡ is_based_on issuer.now self.now }
    {
        match self {
            Part::Ent(_entity) => true,
            Part::Rol(_role) => true,
            Part::Link(base, _name) => base.owner == *issuer,
        }
    }
}

/// Whether every linked role among the parts is based on a role of this issuer.
pub(crate) fn are_based_on(parts: &[Part], issuer: &Entity) -> bool
    ensures { result ≡ list_all (is_based_on issuer.now) parts.now }
{
    parts.iter().all(|part| part.is_based_on(issuer))
}

/// The order of lists of parts: part by part, a prefix first.
fn compare_parts(parts: &[Part], others: &[Part]) -> Ordering
    ensures { result ≡ parts_order parts.now others.now }
{
    for (i, part) in parts.iter().enumerate() {
        let Some(other) = others.get(i) else {
            return Ordering::Greater;
        };
        match part.compare(other) {
            Ordering::Equal => {}
            unequal => return unequal,
        }
    }
    parts.len().cmp(&others.len())
}

/// The most parts of an intersection.
pub(crate) const MOST_PARTS: usize = 8;

/// The parts of an intersection, 2 to 8, in order. The same part may stand there twice.
#[derive(Drop)]
pub struct Parts {
    parts: Vec<Part>,
}

impl Model for Parts {
    ghost use Rattle.std.specs.Prelude.{List, ◌≤◌, length};
    ghost use Rattle.credential_text.specs.declared.intersections.Part.{Part};

    ghost Value = { List Part };

    ghost view = { λ p. p.parts.items };

    ghost invariant = { λ p. (2 ≤ length p.parts.items) × (length p.parts.items ≤ 8) };
}

impl Parts {
    /// The parts in order, or `None` where they are not 2 to 8: then no memory is wanted.
    pub fn make(alloc: Global, parts: &[Part]) -> Result<Option<Parts>, AllocError>
        ensures made { IfOk result (λ made. IsSome made ↔ ((2 ≤ length parts.now) × (length parts.now ≤ 8))) }
        ensures parts { IfOk result (λ made. IfSome made (λ ps. ps ≡ parts.now)) }
        ensures growth { OnErr result ((2 ≤ length parts.now) × (length parts.now ≤ 8)) }
    {
        if parts.len() < 2 || parts.len() > MOST_PARTS {
            return Ok(None);
        }
        let parts = Vec::from_slice(alloc, parts)?;
        Ok(Some(Parts { parts }))
    }

    /// The parts as a slice.
    pub fn as_slice(&self) -> &[Part]
        ensures parts { result.now ≡ self.now }
        ensures several { 2 ≤ length self.now }
        ensures few { length self.now ≤ 8 }
    {
        self.parts.as_slice()
    }

    /// A copy of the parts.
    pub fn try_clone(&self) -> Result<Parts, AllocError>
        ensures { IfOk result (λ ps. ps ≡ self.now) }
    {
        let parts = self.parts.clone()?;
        Ok(Parts { parts })
    }

    /// The order of lists of parts: part by part, a prefix first.
    pub(crate) fn compare(&self, other: &Parts) -> Ordering
        ensures { result ≡ parts_order self.now other.now }
    {
        compare_parts(self.as_slice(), other.as_slice())
    }
}

impl PartialEq for Parts {
    ghost use Rattle.std.specs.Cmp.{partial_equiv_from_equiv};
    ghost use Rattle.credential_text.specs.Part.{same_parts};
    ghost use Rattle.credential_text.specs.PartOrder.{same_parts_equiv};

    ghost eq = { same_parts };

    ghost laws = { partial_equiv_from_equiv same_parts_equiv };

    fn eq(&self, other: &Parts) -> bool {
        self.compare(other).is_eq()
    }
}

impl Eq for Parts {
    ghost use Rattle.credential_text.specs.PartOrder.{same_parts_equiv};

    ghost laws = { same_parts_equiv };
}

impl Hash for Parts {
    ghost use Rattle.std.specs.Hash as fed;
    ghost use Rattle.credential_text.specs.PartOrder.{hashed_alike};

    ghost hash_input = { fed.slice ⟦<Part as Hash>⟧.hash_input };

    ghost respects_eq = { hashed_alike (fed.slice ⟦<Part as Hash>⟧.hash_input) };

    fn hash<H: Hasher>(&self, state: &mut H) {
        self.as_slice().hash(state);
    }
}
