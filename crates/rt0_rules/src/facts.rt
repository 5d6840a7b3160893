ghost use Rattle.std.specs.Prelude.{◌≡◌, find, IfNone, IfSome};
ghost use Rattle.std.specs.List.{list_all};
ghost use Rattle.rt0_rules.specs.Facts.{knows, holds_link, holds_part, holds, is_owed, IsOwed, IsClosed};

use credential_text::{Credential, Expr, Part};
use names::{Entity, Role, RoleName};

/// A membership that was found: who is in the role.
#[derive(Clone, Copy)]
pub struct Fact {
    pub role: Role,
    pub who: Entity,
}

/// Whether the membership is among the facts.
pub fn knows(facts: &[Fact], role: &Role, who: &Entity) -> bool
    ensures { result ≡ knows facts.now role.now who.now }
{
    facts
        .iter()
        .any(|fact| fact.role == *role && fact.who == *who)
}

/// Whether somebody that the facts have in the base has the entity in its role of this name.
fn holds_link(facts: &[Fact], who: &Entity, base: &Role, name: &RoleName) -> bool
    ensures { result ≡ holds_link facts.now who.now base.now name.now }
{
    facts.iter().any(|fact| {
        let given = Role {
            owner: fact.who,
            name: *name,
        };
        fact.role == *base && knows(facts, &given, who)
    })
}

/// Whether one rule gives from the facts that the entity is in the part.
fn holds_part(facts: &[Fact], who: &Entity, part: &Part) -> bool
    ensures { result ≡ holds_part facts.now who.now part.now }
{
    match part {
        Part::Ent(entity) => *entity == *who,
        Part::Rol(role) => knows(facts, role, who),
        Part::Link(base, name) => holds_link(facts, who, base, name),
    }
}

/// Whether one rule gives from the facts that the entity is in each part.
fn holds_each(facts: &[Fact], who: &Entity, parts: &[Part]) -> bool
    ensures { result ≡ list_all (holds_part facts.now who.now) parts.now }
{
    parts.iter().all(|part| holds_part(facts, who, part))
}

/// Whether one rule gives from the facts that the entity is in the expression.
pub fn holds(facts: &[Fact], who: &Entity, expr: &Expr) -> bool
    ensures { result ≡ holds facts.now who.now expr.now }
{
    match expr {
        Expr::Ent(entity) => *entity == *who,
        Expr::Rol(role) => knows(facts, role, who),
        Expr::Link(base, name) => holds_link(facts, who, base, name),
        Expr::Meet(parts) => holds_each(facts, who, parts.as_slice()),
    }
}

/// Whether the credential gives the entity a membership that isn't known.
fn is_owed(facts: &[Fact], credential: &Credential, who: &Entity) -> bool
    ensures { result ≡ is_owed facts.now credential.now who.now }
{
    holds(facts, who, &credential.body) && !knows(facts, &credential.head, who)
}

/// The first entity to which the credential gives a membership that isn't known.
fn next_owed(facts: &[Fact], credential: &Credential, entities: &[Entity]) -> Option<Entity>
    ensures { result ≡ find (is_owed facts.now credential.now) entities.now }
{
    entities
        .iter()
        .copied()
        .find(|who| is_owed(facts, credential, who))
}

/// A membership that a credential gives to one of the entities and that isn't known, if there is one.
pub fn next_fact(credentials: &[Credential], entities: &[Entity], facts: &[Fact]) -> Option<Fact>
    ensures found { IfSome result (IsOwed credentials.now entities.now facts.now) }
    ensures closed { IfNone result (IsClosed credentials.now entities.now facts.now) }
{
    for credential in credentials {
        if let Some(who) = next_owed(facts, credential, entities) {
            let role = credential.head;
            return Some(Fact { role, who });
        }
    }
    None
}
