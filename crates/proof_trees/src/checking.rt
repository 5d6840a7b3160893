ghost use Rattle.std.specs.Prelude.{◌≡◌, ◌↔◌, List, IsTrue, slice_get, option_copied};
ghost use Rattle.credential_text.specs.declared.credentials.Credential.{Credential as AnyCredential};
ghost use Rattle.proof_trees.specs.Proof.{Claims, ClaimsEach, IsBy, AreByRules, IsProof};

use crate::listed_credentials::has_credential;
use crate::proofs::Proof;
use crate::steps::{Rule, Step};
use credential_text::{Credential, Expr, Part};
use names::{Entity, Role};

/// Whether the proof proves that the entity is in the role, from these credentials and no others. Takes no memory.
///
/// The credentials may stand in any order. Each step of a credential looks it up: by halving where they are sorted,
/// as those of a view are; only a credential that isn't found so is looked for one by one. So for sorted credentials
/// a proof is accepted in time linear in its length, but for the logarithm of their number, and refused in no more
/// than that and one walk over them. For others each look-up may be a walk.
pub fn check_proof(credentials: &[Credential], role: &Role, who: &Entity, proof: &Proof) -> bool
    ensures { IsTrue result ↔ IsProof credentials.now role.now who.now proof.now }
{
    let steps = proof.steps();
    let Some(last) = steps.len().checked_sub(1) else {
        return false;
    };
    claims(steps, last, who, &Expr::Rol(*role)) && are_by_rules(credentials, steps)
}

/// Whether each step is by its rule from earlier steps.
fn are_by_rules(credentials: &[Credential], steps: &[Step]) -> bool
    ensures { IsTrue result ↔ AreByRules credentials.now steps.now }
{
    for (i, step) in steps.iter().enumerate() {
        if !is_by_rule(credentials, &steps[..i], step) {
            return false;
        }
    }
    true
}

/// Whether the step is by its rule from the steps before it.
fn is_by_rule(credentials: &[Credential], before: &[Step], step: &Step) -> bool
    ensures { IsTrue result ↔ IsBy credentials.now before.now step.now.who step.now.claim step.now.rule }
{
    match &step.rule {
        Rule::Leaf => step.claim == Expr::Ent(step.who),
        Rule::Cred(body) => is_by_credential(credentials, before, step, *body),
        Rule::Link(base, role) => is_by_link(before, step, *base, *role),
        Rule::Parts(premises) => is_by_parts(before, step, premises.as_slice()),
    }
}

/// Whether a credential gives the claim from the step at this place.
fn is_by_credential(credentials: &[Credential], before: &[Step], step: &Step, place: usize) -> bool
    ensures { IsTrue result ↔ IsBy credentials.now before.now step.now.who step.now.claim (Rule.Cred place) }
{
    let Some(body) = step_at(before, place) else {
        return false;
    };
    match &step.claim {
        Expr::Rol(head) => {
            body.who == step.who && has_credential(credentials, head, &body.claim)
        }
        _ => false,
    }
}

/// Whether the claim is of a linked role, and the steps at these places are of its base and of the role of a member.
fn is_by_link(before: &[Step], step: &Step, base_place: usize, role_place: usize) -> bool
    ensures { (credentials : List AnyCredential) → (IsTrue result ↔
        IsBy credentials before.now step.now.who step.now.claim (Rule.Link base_place role_place)) }
{
    let Some(member) = step_at(before, base_place) else {
        return false;
    };
    match &step.claim {
        Expr::Link(base, name) => {
            let role = Role {
                owner: member.who,
                name: *name,
            };
            is_claim(member, &member.who, &Expr::Rol(*base))
                && claims(before, role_place, &step.who, &Expr::Rol(role))
        }
        _ => false,
    }
}

/// Whether the claim is of an intersection, and the steps at these places are of its parts.
fn is_by_parts(before: &[Step], step: &Step, places: &[usize]) -> bool
    ensures { (credentials : List AnyCredential) → (IsTrue result ↔
        IsBy credentials before.now step.now.who step.now.claim (Rule.Parts places.now)) }
{
    match &step.claim {
        Expr::Meet(parts) => claims_each(before, places, &step.who, parts.as_slice()),
        _ => false,
    }
}

/// Whether the steps at these places claim the entity in these parts.
fn claims_each(before: &[Step], places: &[usize], who: &Entity, parts: &[Part]) -> bool
    ensures { IsTrue result ↔ ClaimsEach before.now places.now who.now parts.now }
{
    if places.len() != parts.len() {
        return false;
    }
    for (i, part) in parts.iter().enumerate() {
        if !claims(before, places[i], who, &part.expr()) {
            return false;
        }
    }
    true
}

/// Whether the step at the place claims the entity in the expression.
fn claims(steps: &[Step], place: usize, who: &Entity, claim: &Expr) -> bool
    ensures { IsTrue result ↔ Claims steps.now place who.now claim.now }
{
    match step_at(steps, place) {
        Some(step) => is_claim(step, who, claim),
        None => false,
    }
}

/// Whether the step claims the entity in the expression.
fn is_claim(step: &Step, who: &Entity, claim: &Expr) -> bool
    ensures { IsTrue result ↔ ((step.now.who ≡ who.now) × (step.now.claim ≡ claim.now)) }
{
    step.who == *who && step.claim == *claim
}

/// The step at the place, where there is one.
fn step_at(steps: &[Step], place: usize) -> Option<&Step>
    ensures { option_copied result ≡ slice_get steps.now place }
{
    steps.get(place)
}
