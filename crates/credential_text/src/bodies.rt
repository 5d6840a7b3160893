ghost use Rattle.std.specs.Prelude.{◌≡◌, ◌≢◌, ◌<◌, ◌≤◌, ◌||◌, not, nat_lt, length, take, Some, None, IfOk, IfErr, OnErr, IsErrOf};
ghost use Rattle.std.specs.List.{list_any};
ghost use Rattle.names.specs.Name.{IsName};
ghost use Rattle.names.specs.Fault.{name_fault, or_then};
ghost use Rattle.credential_text.specs.declared.faults.CredFault.TheVariants as faults;
ghost use Rattle.credential_text.specs.Expr.{expr_parts, HasPartsInRange};
ghost use Rattle.credential_text.specs.Refusal.{is_empty, part_texts, part_fault, first_part_fault, body_fault};
ghost use Rattle.credential_text.specs.Reading.{ReadsAs, ReadsParts, ReadsBody};

use crate::exprs::Expr;
use crate::faults::CredFault;
use crate::intersections::{MOST_PARTS, Part, Parts};
use names::texts::{cut, is_blank, trim};
use names::{Entity, NameFault, Role, RoleName};
use std::alloc::{AllocError, Global};

/// The role of these two names.
fn role_of(owner: &[u8], name: &[u8]) -> Result<Role, NameFault>
    ensures owner { IfOk result (λ r. IsName owner.now × (r.owner ≡ owner.now)) }
    ensures name { IfOk result (λ r. IsName name.now × (r.name ≡ name.now)) }
    ensures refused { IfErr result (λ f. or_then (name_fault owner.now) (name_fault name.now) ≡ Some f) }
{
    let owner = Entity::read(owner)?;
    let name = RoleName::read(name)?;
    Ok(Role { owner, name })
}

/// The part that the text spells in a credential whose head has this owner.
fn read_part(owner: &Entity, text: &[u8]) -> Result<Part, CredFault>
    ensures part { IfOk result (λ p. ReadsAs owner.now text.now p) }
    ensures refused { IfErr result (λ f. part_fault owner.now text.now ≡ Some f) }
{
    let (first, Some(others)) = cut(text, b'.') else {
        return Ok(Part::Ent(Entity::read(text)?));
    };
    let (second, Some(last)) = cut(others, b'.') else {
        return Ok(Part::Rol(role_of(first, others)?));
    };
    let (third, more) = cut(last, b'.');
    if more.is_some() {
        return Err(CredFault::Dots);
    }
    let base = role_of(first, second)?;
    let name = RoleName::read(third)?;
    if base.owner != *owner {
        return Err(CredFault::LinkBase);
    }
    Ok(Part::Link(base, name))
}

/// Whether the body has at most 8 parts, and none of them is empty.
fn are_parts(body: &[u8]) -> bool
    ensures { result ≡ not (nat_lt 8 (length (part_texts body.now)) || list_any is_empty (part_texts body.now)) }
{
    let mut count = 0;
    let mut left = Some(body);
    while let Some(text) = left {
        let (part, rest) = cut(text, b'&');
        if count == MOST_PARTS || trim(part).is_empty() {
            return false;
        }
        count += 1;
        left = rest;
    }
    true
}

/// Reads the parts of the body into the front of the array, and answers how many there are.
fn read_parts(
    owner: &Entity,
    body: &[u8],
    parts: &mut [Part; MOST_PARTS],
) -> Result<usize, CredFault>
    requires { length (part_texts body.now) ≤ 8 }
    ensures within { IfOk result (λ count. count ≤ 8) }
    ensures parts { IfOk result (λ count. ReadsParts owner.now (part_texts body.now) (take count parts.new)) }
    ensures refused { IfErr result (λ f. first_part_fault owner.now (part_texts body.now) ≡ Some f) }
{
    let mut count = 0;
    let mut left = Some(body);
    while let Some(text) = left {
        let (part, rest) = cut(text, b'&');
        parts[count] = read_part(owner, trim(part))?;
        count += 1;
        left = rest;
    }
    Ok(count)
}

/// The expression of these parts: one part itself, several as an intersection.
fn expr_of(alloc: Global, parts: &[Part]) -> Result<Expr, AllocError>
    requires some { 0 < length parts.now }
    requires few { length parts.now ≤ 8 }
    ensures parts { IfOk result (λ e. expr_parts e ≡ parts.now) }
    ensures range { IfOk result (λ e. HasPartsInRange e) }
    ensures growth { OnErr result (1 < length parts.now) }
{
    if let [part] = parts {
        return Ok(part.expr());
    }
    let parts = Parts::make(alloc, parts)?.unwrap();
    Ok(Expr::Meet(parts))
}

/// The expression that the text after the arrow spells in a credential whose head has this owner. The parts are all
/// read before any memory is taken, and one part takes none.
pub fn read_body(alloc: Global, owner: &Entity, body: &[u8]) -> Result<Expr, CredFault>
    ensures body { IfOk result (λ e. ReadsBody owner.now body.now e) }
    ensures refused { IfErr result (λ f. f ≢ faults.Memory → body_fault owner.now body.now ≡ Some f) }
    ensures memory_last { IsErrOf result faults.Memory → body_fault owner.now body.now ≡ None }
    ensures growth { IsErrOf result faults.Memory → 1 < length (part_texts body.now) }
{
    if is_blank(body) {
        return Err(CredFault::BodyEmpty);
    }
    if !are_parts(body) {
        return Err(CredFault::Parts);
    }
    let mut parts = [Part::Ent(*owner); MOST_PARTS];
    let count = read_parts(owner, body, &mut parts)?;
    let expr = expr_of(alloc, &parts[..count])?;
    Ok(expr)
}
