ghost use Rattle.std.specs.Prelude.{◌≡◌, ◌+◌, ◌<◌, ◌≤◌, [], ◌++◌, codes, OnOk, OnErr, length, take, slice_get, vec_capacity};
ghost use Rattle.std.specs.Fmt.{decimal};
ghost use Rattle.std.specs.Option.{option_map_or};
ghost use Rattle.credential_text.specs.Expr.{expr_text};
ghost use Rattle.proof_trees.specs.Text.{numbers_text, rule_text, line_text, proof_text};

use crate::proofs::Proof;
use crate::steps::{Rule, Step};
use credential_text::{Expr, write_expr};
use std::alloc::AllocError;

/// Appends the number of the step at the place: in text, steps are counted from 1.
fn append_number(place: usize, out: &mut Vec<u8>) -> Result<(), AllocError>
    ensures written { OnOk result (out.new.items ≡ out.old.items ++ decimal (place + 1)) }
    ensures unchanged { OnErr result (out.new.items ≡ out.old.items) }
    ensures capacity { vec_capacity out.old ≤ vec_capacity out.new }
{
    let number = format!(in *out.allocator(); "{}", place as u128 + 1)?;
    out.extend_from_slice(number.as_bytes())
}

/// Appends the numbers of the steps at these places, with a space before each.
fn append_numbers(places: &[usize], out: &mut Vec<u8>) -> Result<(), AllocError>
    ensures written { OnOk result (out.new.items ≡ out.old.items ++ numbers_text places.now) }
    ensures kept { take (length out.old.items) out.new.items ≡ out.old.items }
    ensures capacity { vec_capacity out.old ≤ vec_capacity out.new }
{
    for place in places {
        out.push(b' ')?;
        append_number(*place, out)?;
    }
    Ok(())
}

/// Appends the credential of this head whose body the step at the place is about.
fn append_credential(
    steps: &[Step],
    head: &Expr,
    place: usize,
    out: &mut Vec<u8>,
) -> Result<(), AllocError>
    ensures written { OnOk result (out.new.items ≡ out.old.items ++ expr_text head.now ++ codes " <- "
        ++ option_map_or (λ s. expr_text s.claim) (slice_get steps.now place) []) }
    ensures kept { take (length out.old.items) out.new.items ≡ out.old.items }
    ensures capacity { vec_capacity out.old ≤ vec_capacity out.new }
{
    write_expr(head, out)?;
    out.extend_from_slice(b" <- ")?;
    match steps.get(place) {
        Some(body) => write_expr(&body.claim, out),
        None => Ok(()),
    }
}

/// Appends the rule that the step is by.
fn append_rule(steps: &[Step], step: &Step, out: &mut Vec<u8>) -> Result<(), AllocError>
    ensures written { OnOk result (out.new.items ≡ out.old.items ++ rule_text steps.now step.now.claim step.now.rule) }
    ensures kept { take (length out.old.items) out.new.items ≡ out.old.items }
    ensures capacity { vec_capacity out.old ≤ vec_capacity out.new }
{
    match &step.rule {
        Rule::Leaf => out.extend_from_slice(b"itself"),
        Rule::Cred(body) => {
            append_credential(steps, &step.claim, *body, out)?;
            out.extend_from_slice(b" from")?;
            append_numbers(&[*body], out)
        }
        Rule::Link(base, role) => {
            out.extend_from_slice(b"link from")?;
            append_numbers(&[*base, *role], out)
        }
        Rule::Parts(premises) => {
            out.extend_from_slice(b"parts from")?;
            append_numbers(premises.as_slice(), out)
        }
    }
}

/// Appends who the step at the place is about, and what the step claims that to be in.
fn append_claim(place: usize, step: &Step, out: &mut Vec<u8>) -> Result<(), AllocError>
    ensures written { OnOk result (out.new.items ≡ out.old.items
        ++ (decimal (place + 1) ++ codes " " ++ step.now.who ++ codes " in " ++ expr_text step.now.claim)) }
    ensures kept { take (length out.old.items) out.new.items ≡ out.old.items }
    ensures capacity { vec_capacity out.old ≤ vec_capacity out.new }
{
    append_number(place, out)?;
    out.push(b' ')?;
    out.extend_from_slice(step.who.bytes())?;
    out.extend_from_slice(b" in ")?;
    write_expr(&step.claim, out)
}

/// Appends the line of the step at the place, with a newline.
fn append_line(
    steps: &[Step],
    place: usize,
    step: &Step,
    out: &mut Vec<u8>,
) -> Result<(), AllocError>
    ensures written { OnOk result (out.new.items ≡ out.old.items ++ line_text steps.now (place + 1) step.now) }
    ensures kept { take (length out.old.items) out.new.items ≡ out.old.items }
    ensures capacity { vec_capacity out.old ≤ vec_capacity out.new }
{
    append_claim(place, step, out)?;
    out.extend_from_slice(b" by ")?;
    append_rule(steps, step, out)?;
    out.push(b'\n')?;
    Ok(())
}

/// Appends the lines of the steps.
fn append_lines(steps: &[Step], out: &mut Vec<u8>) -> Result<(), AllocError>
    ensures written { OnOk result (out.new.items ≡ out.old.items ++ proof_text steps.now) }
    ensures growth { OnErr result (0 < length steps.now) }
    ensures kept { take (length out.old.items) out.new.items ≡ out.old.items }
    ensures capacity { vec_capacity out.old ≤ vec_capacity out.new }
{
    for (place, step) in steps.iter().enumerate() {
        append_line(steps, place, step, out)?;
    }
    Ok(())
}

/// Appends a line for each step, with a newline behind it: the step's number, the entity, `in`, the expression, `by`
/// and the rule. A rule with premises names their steps behind `from`: a credential in its canonical spelling, `link`
/// or `parts`. Steps are counted from 1 here. A step that isn't there has a number, but no text of its own.
pub fn write_proof(proof: &Proof, out: &mut Vec<u8>) -> Result<(), AllocError>
    ensures written { OnOk result (out.new.items ≡ out.old.items ++ proof_text proof.now) }
    ensures growth { OnErr result (0 < length proof.now) }
    ensures unchanged { OnErr result (out.new.items ≡ out.old.items) }
    ensures capacity { vec_capacity out.old ≤ vec_capacity out.new }
{
    let held = out.len();
    if let Err(refused) = append_lines(proof.steps(), out) {
        out.truncate(held);
        return Err(refused);
    }
    Ok(())
}
