//! Credentials that a row of numbers makes, each number from the one before by a linear congruence.
ghost use Rattle.std.specs.Prelude.{◌<◌};

use crate::tests_below::of_credential_text::made_of;
use credential_text::{CredFault, Credential, Expr, Part, Parts};
use names::{Entity, NameFault, Role, RoleName};
use std::alloc::{AllocError, Global};

/// The next number of the row, below so many.
fn below(state: &mut u64, bound: u64) -> u64
    requires { 0 < bound }
    ensures { result < bound }
{
    let low = *state % 2147483648;
    *state = low * 1103515245 + 12345;
    *state / 65536 % bound
}

/// The letters of entities and of roles.
static NAMES: [u8; 6] = *b"AABBCD";

static ROLE_NAMES: [u8; 3] = *b"rrs";

fn entity(state: &mut u64) -> Result<Entity, NameFault> {
    Entity::read(&[NAMES[below(state, 6) as usize]])
}

fn role_name(state: &mut u64) -> Result<RoleName, NameFault> {
    RoleName::read(&[ROLE_NAMES[below(state, 3) as usize]])
}

pub(super) fn role(state: &mut u64) -> Result<Role, NameFault> {
    Ok(Role {
        owner: entity(state)?,
        name: role_name(state)?,
    })
}

/// A part of an intersection: a name, a linked role over a role of that owner, or a role.
fn part(state: &mut u64, owner: Entity) -> Result<Part, NameFault> {
    Ok(match below(state, 5) {
        0 => Part::Ent(entity(state)?),
        1 => {
            let name = role_name(state)?;
            Part::Link(Role { owner, name }, role_name(state)?)
        }
        _ => Part::Rol(role(state)?),
    })
}

/// An intersection of two parts, which may be one part twice, or of three.
fn parts(alloc: Global, state: &mut u64, owner: Entity) -> Result<Parts, CredFault> {
    let mut many = [part(state, owner)?; 3];
    many[1] = part(state, owner)?;
    let mut count = 2;
    match below(state, 4) {
        0 => many[1] = many[0],
        1 => {
            many[2] = part(state, owner)?;
            count = 3;
        }
        _ => {}
    }
    made_of(alloc, &many[..count])
}

/// A credential of one of the four forms.
fn credential(alloc: Global, state: &mut u64) -> Result<Credential, CredFault> {
    let head = role(state)?;
    let body = match below(state, 6) {
        0 | 3 => Expr::Rol(role(state)?),
        1 => {
            let name = role_name(state)?;
            let owner = head.owner;
            Expr::Link(Role { owner, name }, role_name(state)?)
        }
        2 => Expr::Meet(parts(alloc, state, head.owner)?),
        _ => Expr::Ent(entity(state)?),
    };
    Credential::make(head, body).ok_or(CredFault::LinkBase)
}

fn has(credentials: &[Credential], one: &Credential) -> bool {
    for other in credentials {
        if other.compare(one).is_eq() {
            return true;
        }
    }
    false
}

/// Up to sixteen credentials, each once.
pub(super) fn credentials(alloc: Global, state: &mut u64) -> Result<Vec<Credential>, CredFault> {
    let mut all = Vec::new(alloc);
    for _ in 0..below(state, 17) {
        let made = credential(alloc, state)?;
        if !has(&all, &made) {
            all.push(made).map_err(AllocError::from)?;
        }
    }
    Ok(all)
}
