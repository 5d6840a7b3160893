//! The members of the asked role, in order.
ghost use Rattle.std.specs.Prelude.{◌≡◌, ◌<◌, ◌↔◌, ℕ, List, IfOk, Contains, length};
ghost use Rattle.std.specs.List.Sorted.{IsStrictlySortedBy};
ghost use Rattle.names.specs.Name.{name_order};
ghost use Rattle.cred_graph.specs.Graph.{members_of};

use cred_graph::Graph;
use names::Entity;
use std::alloc::{AllocError, Global};

/// The solutions of the asked role's node, the first, in order, each once.
pub(crate) fn solutions_in_order(alloc: Global, graph: &Graph) -> Result<Vec<Entity>, AllocError>
    requires { 0 < length graph.now.nodes }
    ensures in_order { IfOk result (λ list. IsStrictlySortedBy name_order list.items) }
    ensures exact { IfOk result (λ list. (d : List ℕ) → Contains list.items d ↔ Contains (members_of graph.now 0) d) }
{
    let count = graph.solutions(0);
    let mut list = Vec::with_capacity(alloc, count as usize)?;
    for place in 0..count {
        list.push_reserved(graph.solution(0, place));
    }
    list.sort_unstable();
    Ok(list)
}
