ghost use Rattle.std.specs.Prelude.{◌≡◌, ◌≤◌, ◌++◌, OnOk, OnErr, IsTrue, length, take, vec_capacity};
ghost use Rattle.std.specs.List.{list_all};
ghost use Rattle.names.specs.Name.{IsName};
ghost use Rattle.names.specs.Role.{role_text};
ghost use Rattle.credential_text.specs.Part.{has_names, part_text};
ghost use Rattle.credential_text.specs.Expr.{expr_parts, expr_text, parts_text, HasPartsInRange};
ghost use Rattle.credential_text.specs.Spelling.{Spells, canonical};

use crate::credentials::Credential;
use crate::exprs::Expr;
use crate::intersections::Part;
use names::Role;
use std::alloc::AllocError;

fn append_role(role: &Role, out: &mut Vec<u8>) -> Result<(), AllocError>
    ensures written { OnOk result (out.new.items ≡ out.old.items ++ role_text role.now) }
    ensures owner { OnOk result (IsName role.now.owner) }
    ensures name { OnOk result (IsName role.now.name) }
    ensures kept { take (length out.old.items) out.new.items ≡ out.old.items }
    ensures capacity { vec_capacity out.old ≤ vec_capacity out.new }
{
    out.extend_from_slice(role.owner.bytes())?;
    out.push(b'.')?;
    out.extend_from_slice(role.name.bytes())
}

fn append_part(part: &Part, out: &mut Vec<u8>) -> Result<(), AllocError>
    ensures written { OnOk result (out.new.items ≡ out.old.items ++ part_text part.now) }
    ensures names { OnOk result (IsTrue (has_names part.now)) }
    ensures kept { take (length out.old.items) out.new.items ≡ out.old.items }
    ensures capacity { vec_capacity out.old ≤ vec_capacity out.new }
{
    match part {
        Part::Ent(entity) => out.extend_from_slice(entity.bytes()),
        Part::Rol(role) => append_role(role, out),
        Part::Link(base, name) => {
            append_role(base, out)?;
            out.push(b'.')?;
            out.extend_from_slice(name.bytes())
        }
    }
}

fn append_parts(parts: &[Part], out: &mut Vec<u8>) -> Result<(), AllocError>
    ensures written { OnOk result (out.new.items ≡ out.old.items ++ parts_text parts.now) }
    ensures names { OnOk result (IsTrue (list_all has_names parts.now)) }
    ensures kept { take (length out.old.items) out.new.items ≡ out.old.items }
    ensures capacity { vec_capacity out.old ≤ vec_capacity out.new }
{
    let Some((first, others)) = parts.split_first() else {
        return Ok(());
    };
    append_part(first, out)?;
    for part in others {
        out.extend_from_slice(b" & ")?;
        append_part(part, out)?;
    }
    Ok(())
}

fn append_expr(expr: &Expr, out: &mut Vec<u8>) -> Result<(), AllocError>
    ensures written { OnOk result (out.new.items ≡ out.old.items ++ expr_text expr.now) }
    ensures names { OnOk result (IsTrue (list_all has_names (expr_parts expr.now))) }
    ensures range { HasPartsInRange expr.now }
    ensures kept { take (length out.old.items) out.new.items ≡ out.old.items }
    ensures capacity { vec_capacity out.old ≤ vec_capacity out.new }
{
    match expr {
        Expr::Ent(entity) => append_part(&Part::Ent(*entity), out),
        Expr::Rol(role) => append_part(&Part::Rol(*role), out),
        Expr::Link(base, name) => append_part(&Part::Link(*base, *name), out),
        Expr::Meet(parts) => append_parts(parts.as_slice(), out),
    }
}

fn append_credential(credential: &Credential, out: &mut Vec<u8>) -> Result<(), AllocError>
    ensures written { OnOk result (out.new.items ≡ out.old.items ++ canonical credential.now) }
    ensures spells { OnOk result (Spells (canonical credential.now) credential.now) }
    ensures kept { take (length out.old.items) out.new.items ≡ out.old.items }
    ensures capacity { vec_capacity out.old ≤ vec_capacity out.new }
{
    append_role(&credential.head, out)?;
    out.extend_from_slice(b" <- ")?;
    append_expr(&credential.body, out)
}

/// Takes back what a write that failed has appended behind the first `held` bytes.
fn cut_back(
    written: Result<(), AllocError>,
    held: usize,
    out: &mut Vec<u8>,
) -> Result<(), AllocError>
    ensures same { result ≡ written }
    ensures stays { OnOk written (out.new.items ≡ out.old.items) }
    ensures cut { OnErr written (out.new.items ≡ take held out.old.items) }
    ensures capacity { vec_capacity out.old ≤ vec_capacity out.new }
{
    if written.is_err() {
        out.truncate(held);
    }
    written
}

/// Appends the one canonical spelling of the expression.
pub fn write_expr(expr: &Expr, out: &mut Vec<u8>) -> Result<(), AllocError>
    ensures written { OnOk result (out.new.items ≡ out.old.items ++ expr_text expr.now) }
    ensures names { OnOk result (IsTrue (list_all has_names (expr_parts expr.now)) × HasPartsInRange expr.now) }
    ensures unchanged { OnErr result (out.new.items ≡ out.old.items) }
    ensures capacity { vec_capacity out.old ≤ vec_capacity out.new }
{
    let held = out.len();
    let written = append_expr(expr, out);
    cut_back(written, held, out)
}

/// Appends the one canonical spelling of the credential: one space on each side of the arrow and of each `&`, none at
/// either end.
pub fn write_credential(credential: &Credential, out: &mut Vec<u8>) -> Result<(), AllocError>
    ensures written { OnOk result (out.new.items ≡ out.old.items ++ canonical credential.now) }
    ensures spells { OnOk result (Spells (canonical credential.now) credential.now) }
    ensures unchanged { OnErr result (out.new.items ≡ out.old.items) }
    ensures capacity { vec_capacity out.old ≤ vec_capacity out.new }
{
    let held = out.len();
    let written = append_credential(credential, out);
    cut_back(written, held, out)
}
