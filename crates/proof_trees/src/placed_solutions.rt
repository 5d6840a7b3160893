ghost use Rattle.std.specs.Prelude.{◌≡◌, MatchOption};
ghost use Rattle.cred_graph.specs.Graph.{IsSolution};
ghost use Rattle.proof_trees.specs.PlacedSolution.{Stands};

use cred_graph::{Graph, Solution};
use names::Entity;

/// A solution that a search found, and its place among all of them, in order of finding.
#[derive(Clone, Copy)]
pub struct PlacedSolution {
    pub place: u64,
    pub solution: Solution,
}

/// The solution of the node, where the entity is one.
pub(crate) fn placed_solution(graph: &Graph, node: u64, who: &Entity) -> Option<PlacedSolution>
    ensures { MatchOption result (IsSolution graph.now node who.now → ⊥)
        (λ f. Stands graph.now f × (f.solution.node ≡ node) × (f.solution.who ≡ who.now)) }
{
    match graph.reason(node, who) {
        Some((place, reason)) => Some(PlacedSolution {
            place,
            solution: Solution {
                node,
                who: *who,
                reason,
            },
        }),
        None => None,
    }
}
