//! The rule by which a draft gives a solution, for the reason that it was found by.
ghost use Rattle.std.specs.Prelude.{◌≡◌, ◌≤◌, All, IfOk, IfErr, length, take};
ghost use Rattle.credential_text.specs.Expr.{part_expr};
ghost use Rattle.cred_graph.specs.declared.solutions.Reason.TheVariants as reason;
ghost use Rattle.cred_graph.specs.Graph.{Known, Fits};
ghost use Rattle.proof_trees.specs.Proof.{ClaimsEach};
ghost use Rattle.proof_trees.specs.Draft.{IsDraft, IsMissingPart, IsMissingPremise, IsByReason};

use crate::drafts::Draft;
use crate::placed_solutions::PlacedSolution;
use crate::premises::{MOST_PREMISES, Premises};
use crate::steps::Rule;
use cred_graph::{Graph, NodeExpr, Reason, Solution};
use credential_text::{Expr, Part};
use names::{Entity, Role};
use std::alloc::Global;

/// The rule that gives the solution from the draft's steps; or the first of its premises, from left to right, that no
/// step claims yet.
pub(crate) fn rule_for(
    alloc: Global,
    graph: &Graph,
    draft: &Draft,
    solution: &Solution,
) -> Result<Rule, PlacedSolution>
    requires draft { IsDraft graph.now draft.now }
    requires fits { Fits graph.now solution.now.node solution.now.who solution.now.reason }
    ensures by_reason { IfOk result (IsByReason graph.now draft.now.steps solution.now.node solution.now.who solution.now.reason) }
    ensures missing { IfErr result (IsMissingPremise graph.now draft.now solution.now) }
{
    match solution.reason {
        Reason::Leaf => Ok(Rule::Leaf),
        Reason::Body(body) => Ok(Rule::Cred(draft.number(graph, body, &solution.who)?)),
        Reason::Via(member) => link_rule(graph, draft, solution.node, &member, &solution.who),
        Reason::Parts => parts_rule(alloc, graph, draft, solution.node, &solution.who),
    }
}

/// The rule of a solution by way of a member of the base, or the first premise that no step claims yet.
fn link_rule(
    graph: &Graph,
    draft: &Draft,
    node: u64,
    member: &Entity,
    who: &Entity,
) -> Result<Rule, PlacedSolution>
    requires draft { IsDraft graph.now draft.now }
    requires fits { Fits graph.now node who.now (reason.Via member.now) }
    ensures by_reason { IfOk result (IsByReason graph.now draft.now.steps node who.now (reason.Via member.now)) }
    ensures missing { IfErr result (IsMissingPremise graph.now draft.now
        (record { node = node; who = who.now; reason = reason.Via member.now })) }
{
    let NodeExpr::Link(base, name) = graph.expr(node) else {
        unreachable!()
    };
    let role = Role {
        owner: *member,
        name: *name,
    };
    let base_number = draft.number_in(graph, &Expr::Rol(*base), member)?;
    let role_number = draft.number_in(graph, &Expr::Rol(role), who)?;
    Ok(Rule::Link(base_number, role_number))
}

/// The rule of a solution by every part, or the first premise that no step claims yet.
fn parts_rule(
    alloc: Global,
    graph: &Graph,
    draft: &Draft,
    node: u64,
    who: &Entity,
) -> Result<Rule, PlacedSolution>
    requires draft { IsDraft graph.now draft.now }
    requires fits { Fits graph.now node who.now reason.Parts }
    ensures by_reason { IfOk result (IsByReason graph.now draft.now.steps node who.now reason.Parts) }
    ensures missing { IfErr result (IsMissingPremise graph.now draft.now
        (record { node = node; who = who.now; reason = reason.Parts })) }
{
    let NodeExpr::Meet(parts) = graph.expr(node) else {
        unreachable!()
    };
    let parts = parts.as_slice();
    let numbers = part_numbers(graph, draft, parts, who)?;
    match Premises::make(alloc, &numbers[..parts.len()]) {
        Some(premises) => Ok(Rule::Parts(premises)),
        None => unreachable!(),
    }
}

/// The numbers of the steps that claim the entity in these parts; or its solution of the first that no step claims.
fn part_numbers(
    graph: &Graph,
    draft: &Draft,
    parts: &[Part],
    who: &Entity,
) -> Result<[usize; MOST_PREMISES], PlacedSolution>
    requires draft { IsDraft graph.now draft.now }
    requires few { length parts.now ≤ 8 }
    requires known { All (λ p. Known graph.now who.now (part_expr p)) parts.now }
    ensures claims { IfOk result (λ numbers. ClaimsEach draft.now.steps (take (length parts.now) numbers) who.now parts.now) }
    ensures missing { IfErr result (IsMissingPart graph.now draft.now parts.now who.now) }
{
    let _found: Option<(Solution, Reason)> = None;
    let mut numbers = [0; MOST_PREMISES];
    for (i, part) in parts.iter().enumerate() {
        let number = draft.number_in(graph, &part.expr(), who)?;
        numbers[i] = number;
    }
    Ok(numbers)
}
