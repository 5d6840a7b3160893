ghost use Rattle.std.specs.Prelude.{◌≡◌, ◌++◌, OnOk, IfOk};
ghost use Rattle.std.specs.List.{flat_map};
ghost use Rattle.rt0_rules.specs.Asked.{body_asks, via_asks, base_ask, part_ask, part_asks, asks_from};

use crate::facts::{Fact, knows};
use credential_text::{Credential, Expr, Part, Parts};
use names::{Entity, Role, RoleName};
use std::alloc::{AllocError, Global};

/// Why one expression asks another.
#[derive(Clone, Copy, PartialEq, Eq)]
pub enum Why {
    /// A role asks the body of a credential.
    Body,
    /// A linked role asks its base.
    Base,
    /// A linked role asks the role of this member of its base.
    Via(Entity),
    /// An intersection asks the part at this place.
    Part(usize),
}

/// One expression asks another.
#[derive(Drop, PartialEq, Eq)]
pub struct Ask {
    pub asker: Expr,
    pub why: Why,
    pub asked: Expr,
}

/// Appends what a role asks: the bodies of its credentials.
fn push_bodies(
    credentials: &[Credential],
    role: &Role,
    asks: &mut Vec<Ask>,
) -> Result<(), AllocError>
    ensures { OnOk result (asks.new.items ≡ asks.old.items ++ flat_map (body_asks role.now) credentials.now) }
{
    for credential in credentials {
        if credential.head == *role {
            asks.push(Ask {
                asker: Expr::Rol(*role),
                why: Why::Body,
                asked: credential.body.try_clone()?,
            })?;
        }
    }
    Ok(())
}

/// Appends what a linked role asks: its base, and on behalf of each member of that the member's role.
fn push_link(
    facts: &[Fact],
    everyone: &[Entity],
    base: &Role,
    name: &RoleName,
    asks: &mut Vec<Ask>,
) -> Result<(), AllocError>
    ensures { OnOk result (asks.new.items ≡ asks.old.items ++ base_ask base.now name.now
        ++ flat_map (via_asks facts.now base.now name.now) everyone.now) }
{
    asks.push(Ask {
        asker: Expr::Link(*base, *name),
        why: Why::Base,
        asked: Expr::Rol(*base),
    })?;
    for who in everyone {
        if knows(facts, base, who) {
            let given = Role {
                owner: *who,
                name: *name,
            };
            asks.push(Ask {
                asker: Expr::Link(*base, *name),
                why: Why::Via(*who),
                asked: Expr::Rol(given),
            })?;
        }
    }
    Ok(())
}

/// What an intersection asks the part at this place.
fn part_ask(parts: &Parts, place: usize, part: &Part) -> Result<Ask, AllocError>
    ensures { IfOk result (λ ask. ask ≡ part_ask parts.now place part.now) }
{
    Ok(Ask {
        asker: Expr::Meet(parts.try_clone()?),
        why: Why::Part(place),
        asked: part.expr(),
    })
}

/// Appends what an intersection asks: each of its parts.
fn push_parts(parts: &Parts, asks: &mut Vec<Ask>) -> Result<(), AllocError>
    ensures { OnOk result (asks.new.items ≡ asks.old.items ++ part_asks parts.now 0 parts.now) }
{
    for (place, part) in parts.as_slice().iter().enumerate() {
        asks.push(part_ask(parts, place, part)?)?;
    }
    Ok(())
}

/// What the expression asks over these credentials, whose memberships the facts are.
pub fn asks_of(
    alloc: Global,
    credentials: &[Credential],
    facts: &[Fact],
    everyone: &[Entity],
    asker: &Expr,
) -> Result<Vec<Ask>, AllocError>
    ensures { IfOk result (λ asks. asks.items ≡ asks_from credentials.now facts.now everyone.now asker.now) }
{
    let mut asks = Vec::new(alloc);
    match asker {
        Expr::Ent(_entity) => {}
        Expr::Rol(role) => push_bodies(credentials, role, &mut asks)?,
        Expr::Link(base, name) => push_link(facts, everyone, base, name, &mut asks)?,
        Expr::Meet(parts) => push_parts(parts, &mut asks)?,
    }
    Ok(asks)
}
