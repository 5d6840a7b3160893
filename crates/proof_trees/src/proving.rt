ghost use Rattle.std.specs.Prelude.{◌≡◌, List, IfOk, IfErr, OnOk, MatchOption};
ghost use Rattle.credential_text.specs.declared.credentials.Credential.{Credential};
ghost use Rattle.credential_text.specs.declared.exprs.Expr.{Expr};
ghost use Rattle.credential_text.specs.declared.exprs.Expr.TheVariants.{Rol};
ghost use Rattle.rt0_rules.specs.FixedPoint.{IsExact};
ghost use Rattle.cred_graph.specs.Graph.{IsNode, Known, IsGraph};
ghost use Rattle.search.specs.Search.{IsCompleted, asked_role, rows_of};
ghost use Rattle.search.specs.Net.{IsJustified};
ghost use Rattle.proof_trees.specs.Proof.{AreByRules, Concludes, IsProof};
ghost use Rattle.proof_trees.specs.Lean.{IsLean};
ghost use Rattle.proof_trees.specs.PlacedSolution.{Stands, AreByRows};
ghost use Rattle.proof_trees.specs.Fault.{WhyRefused, IsAsked, IsNoMember};

use crate::drafts::Draft;
use crate::faults::ProofFault;
use crate::placed_solutions::{PlacedSolution, placed_solution};
use crate::proofs::Proof;
use crate::rules::rule_for;
use cred_graph::Graph;
use names::Entity;
use search::Search;
use std::alloc::{AllocError, Global};

/// The node of the asked role, which is the first of a search's graph.
const ASKED_NODE: u64 = 0;

/// A proof that the entity is in the role that the search is for, from the credentials that the search reads.
///
/// It follows the reasons for which the search found what it found: each claim stands once, at its first need, and its
/// premises stand before it, from left to right. Its cost is as the proof is long, but for the look-ups of claims in
/// tables. However deep the proof is, no call is nested.
pub fn proof_of(alloc: Global, search: &Search, who: &Entity) -> Result<Proof, ProofFault>
    ensures proof { IfOk result (IsProof (rows_of search.now) (asked_role search.now.query) who.now) }
    ensures lean { IfOk result IsLean }
    ensures completed { OnOk result (IsCompleted search.now.stage) }
    ensures refused { IfErr result (WhyRefused search.now who.now) }
{
    if !search.is_completed() {
        return Err(ProofFault::NotDone);
    }
    let Some(asked) = asked_solution(search, who) else {
        return Err(ProofFault::NoProof);
    };
    let proof = written(alloc, search.graph(), asked)?;
    Ok(proof)
}

/// That the entity is in the asked role, where the search found it.
fn asked_solution(search: &Search, who: &Entity) -> Option<PlacedSolution>
    requires completed { IsCompleted search.now.stage }
    requires exact { IsExact (rows_of search.now) (asked_role search.now.query) (Known search.now.graph) }
    ensures found { MatchOption result (IsNoMember search.now who.now) (IsAsked search.now who.now) }
    ensures justified { IsJustified (rows_of search.now) (asked_role search.now.query) search.now.graph }
{
    placed_solution(search.graph(), ASKED_NODE, who)
}

/// The proof of the solution, by the reasons that the graph keeps.
fn written(alloc: Global, graph: &Graph, asked: PlacedSolution) -> Result<Proof, AllocError>
    requires graph { IsGraph graph.now }
    requires stands { Stands graph.now asked }
    ensures by_rules { IfOk result (λ proof. (rows : List Credential) → AreByRows rows graph.now → AreByRules rows proof) }
    ensures concludes { IfOk result (λ proof. (e : Expr)
        → IsNode graph.now asked.solution.node e → Concludes proof asked.solution.who e) }
    ensures lean { IfOk result IsLean }
{
    let mut draft = Draft::new(alloc);
    // Each finding supports the one below it.
    let mut needed = Vec::new(alloc);
    needed.push(asked)?;
    while let Some(found) = needed.pop() {
        match rule_for(alloc, graph, &draft, &found.solution) {
            Ok(rule) => draft.add(graph, &found, rule)?,
            Err(premise) => {
                needed.push(found)?;
                needed.push(premise)?;
            }
        }
    }
    Ok(draft.into_proof())
}
