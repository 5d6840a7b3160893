ghost use Rattle.std.specs.Prelude.{◌≡◌, [], IfOk, IfErr, OnOk, Contains, MatchResult};
ghost use Rattle.cred_graph.specs.Graph.{IsNode, IsSolution, Known};
ghost use Rattle.proof_trees.specs.Proof.{Claims};
ghost use Rattle.proof_trees.specs.PlacedSolution.{Stands};

use crate::placed_solutions::{PlacedSolution, placed_solution};
use crate::proofs::Proof;
use crate::steps::{Rule, Step};
use cred_graph::Graph;
use credential_text::Expr;
use indexmap::IndexSet;
use names::Entity;
use std::alloc::{AllocError, Global};
use std::marker::Model;

/// A proof in the making: its steps so far, and the place of the solution that each claims.
pub(crate) struct Draft {
    places: IndexSet<u64>,
    proof: Proof,
}

// By hand, so that who holds one drops it by one call, whose proof stands here.
impl Drop for Draft {
    fn drop(self) {
        let _proof = self.into_proof();
    }
}

impl Model for Draft {
    ghost use Rattle.proof_trees.specs.Draft.{DraftState};

    ghost Value = { DraftState };

    ghost view = { λ d. record { places = d.places.keys; steps = d.proof } };
}

impl Draft {
    ghost use Rattle.proof_trees.specs.Draft.{IsDraft, IsMissing, IsStepped};

    /// No step yet.
    pub(crate) fn new(alloc: Global) -> Self
        ensures { result ≡ record { places = []; steps = [] } }
    {
        Draft {
            places: IndexSet::new(alloc),
            proof: Proof::new(alloc),
        }
    }

    /// The number of the step that claims the solution of the node, or the solution where none does.
    pub(crate) fn number(
        &self,
        graph: &Graph,
        node: u64,
        who: &Entity,
    ) -> Result<usize, PlacedSolution>
        requires draft { IsDraft graph.now self.now }
        requires solution { IsSolution graph.now node who.now }
        ensures claims { IfOk result (λ number. (e : Expr) → IsNode graph.now node e → Claims self.now.steps number who.now e) }
        ensures missing { IfErr result (λ f. (f.solution.node ≡ node) × IsMissing graph.now self.now who.now f) }
    {
        let Some(found) = placed_solution(graph, node, who) else {
            unreachable!()
        };
        match self.places.get_index_of(&found.place) {
            Some(number) => Ok(number),
            None => Err(found),
        }
    }

    /// The number of the step that claims the entity in this expression, or its solution there where none does.
    pub(crate) fn number_in(
        &self,
        graph: &Graph,
        expr: &Expr,
        who: &Entity,
    ) -> Result<usize, PlacedSolution>
        requires draft { IsDraft graph.now self.now }
        requires known { Known graph.now who.now expr.now }
        ensures claims { IfOk result (λ number. Claims self.now.steps number who.now expr.now) }
        ensures missing { IfErr result (λ f. IsNode graph.now f.solution.node expr.now × IsMissing graph.now self.now who.now f) }
    {
        let Some(node) = graph.node(expr) else {
            unreachable!()
        };
        self.number(graph, node, who)
    }

    /// Adds the step that claims the solution by the rule. A draft to which it can't be added is of no more use.
    pub(crate) fn add(
        &mut self,
        graph: &Graph,
        found: &PlacedSolution,
        rule: Rule,
    ) -> Result<(), AllocError>
        requires draft { IsDraft graph.now self.old }
        requires stands { Stands graph.now found.now }
        requires absent { Contains self.old.places found.now.place → ⊥ }
        ensures { OnOk result (IsStepped graph.now self.old self.new found.now rule) }
    {
        let PlacedSolution { place, solution } = *found;
        let claim = graph.expr(solution.node).to_expr()?;
        let _is_new = self.places.insert(place)?;
        self.proof.push(Step {
            who: solution.who,
            claim,
            rule,
        })
    }

    /// The steps as a proof.
    pub(crate) fn into_proof(self) -> Proof
        ensures { result ≡ self.steps }
    {
        let Draft {
            places: _places,
            proof,
        } = self;
        proof
    }
}
