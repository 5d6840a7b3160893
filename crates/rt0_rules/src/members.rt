ghost use Rattle.std.specs.Prelude.{ℕ, List, ◌≡◌, ◌++◌, IfOk, OnOk};
ghost use Rattle.std.specs.List.{flat_map};
ghost use Rattle.std.specs.List.Sorted.{IsStrictlySortedBy};
ghost use Rattle.std.specs.BTreeSet.{contains};
ghost use Rattle.names.specs.Name.{name_order};
ghost use Rattle.rt0_rules.specs.Membership.{AreMembers};
ghost use Rattle.rt0_rules.specs.Facts.{knows, entities_in_part, entities_in, all_entities, IsClosed, IsSound};

use crate::facts::{Fact, next_fact};
use credential_text::{Credential, Expr, Part};
use names::{Entity, Role};
use std::alloc::{AllocError, Global};
use std::collections::BTreeSet;

/// Appends the entities that stand in the parts.
fn push_part_entities(parts: &[Part], entities: &mut Vec<Entity>) -> Result<(), AllocError>
    ensures { OnOk result (entities.new.items ≡ entities.old.items ++ flat_map entities_in_part parts.now) }
{
    for part in parts {
        if let Part::Ent(entity) = part {
            entities.push(*entity)?;
        }
    }
    Ok(())
}

/// Appends the entities that stand in the expression.
fn push_entities(expr: &Expr, entities: &mut Vec<Entity>) -> Result<(), AllocError>
    ensures { OnOk result (entities.new.items ≡ entities.old.items ++ entities_in expr.now) }
{
    match expr {
        Expr::Ent(entity) => entities.push(*entity)?,
        Expr::Rol(_role) => {}
        Expr::Link(_base, _name) => {}
        Expr::Meet(parts) => push_part_entities(parts.as_slice(), entities)?,
    }
    Ok(())
}

/// The entities that stand in the bodies of the credentials; nobody else is a member of a role.
pub fn all_entities(alloc: Global, credentials: &[Credential]) -> Result<Vec<Entity>, AllocError>
    ensures { IfOk result (λ entities. entities.items ≡ all_entities credentials.now) }
{
    let mut entities = Vec::new(alloc);
    for credential in credentials {
        push_entities(&credential.body, &mut entities)?;
    }
    Ok(entities)
}

/// All memberships over these credentials, each once, in the order in which the rounds find them.
pub fn all_known(alloc: Global, credentials: &[Credential]) -> Result<Vec<Fact>, AllocError>
    ensures sound { IfOk result (λ facts. IsSound credentials.now facts.items) }
    ensures closed { IfOk result (λ facts. IsClosed credentials.now (all_entities credentials.now) facts.items) }
{
    let entities = all_entities(alloc, credentials)?;
    let mut facts = Vec::new(alloc);
    while let Some(fact) = next_fact(credentials, &entities, &facts) {
        facts.push(fact)?;
    }
    Ok(facts)
}

/// The entities that the facts have in the role.
fn members_known(alloc: Global, facts: &[Fact], role: &Role) -> Result<BTreeSet<Entity>, AllocError>
    ensures { IfOk result (λ members. (d : List ℕ) → contains name_order members d ≡ knows facts.now role.now d) }
{
    let mut members = BTreeSet::new(alloc);
    for fact in facts {
        if fact.role == *role {
            members.insert(fact.who)?;
        }
    }
    Ok(members)
}

/// The entities of the set, in order.
fn listed(alloc: Global, set: BTreeSet<Entity>) -> Result<Vec<Entity>, AllocError>
    ensures keys { IfOk result (λ list. list.items ≡ set.keys) }
    ensures in_order { IfOk result (λ list. IsStrictlySortedBy name_order list.items) }
{
    set.into_iter().collect(alloc)
}

/// The members of the role over these credentials, in order, each once: by plain rounds, each of which looks at
/// every credential and every entity.
pub fn members_plain(
    alloc: Global,
    credentials: &[Credential],
    role: &Role,
) -> Result<Vec<Entity>, AllocError>
    ensures { IfOk result (λ members. AreMembers credentials.now role.now members.items) }
{
    let facts = all_known(alloc, credentials)?;
    let members = members_known(alloc, &facts, role)?;
    listed(alloc, members)
}
