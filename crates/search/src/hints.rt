//! What a letter needs to be finished, and whether a hint is right.
ghost use Rattle.std.specs.Prelude.{◌≡◌, ◌<◌, ◌↔◌, length, option_copied, IsTrue};
ghost use Rattle.credential_text.specs.declared.exprs.Expr.{Expr};
ghost use Rattle.cred_graph.specs.Graph.{IsNode};
ghost use Rattle.search.specs.Finish.{need_for, need_of, right_hint};

use crate::letters::{Held, Load};
use crate::queries::Hint;
use cred_graph::{Graph, NodeExpr};
use names::Role;
use snapshots::Snapshot;

// The role whose rows are needed: a letter that asks a role needs its rows, and no other letter needs any.
#[inline(always)]
pub(crate) fn role_needed<'a>(graph: &'a Graph, held: &Held<Load<u32>>) -> Option<&'a Role>
    requires { held.now.to < length graph.now.nodes }
    ensures { (e : Expr) × IsNode graph.now held.now.to e
        × (need_for (option_copied result) ≡ need_of e held.now.load) }
{
    let expr = graph.expr(held.to);
    if let Load::Tell(_port, _who) = held.load {
        return None;
    }
    match expr {
        NodeExpr::Rol(role) => Some(role),
        _ => None,
    }
}

// Whether the hint is the one that the letter needs.
pub(crate) fn hint_is_right(
    graph: &Graph,
    snapshot: &Snapshot,
    held: &Held<Load<u32>>,
    hint: &Hint,
) -> bool
    requires { held.now.to < length graph.now.nodes }
    ensures { IsTrue result
        ↔ ((e : Expr) → IsNode graph.now held.now.to e
        → hint.now ≡ right_hint snapshot.now.vaults (need_of e held.now.load)) }
{
    match role_needed(graph, held) {
        Some(role) => match hint {
            Hint::Rows(span) => snapshot.finds(role, *span),
            Hint::Nothing => false,
        },
        None => match hint {
            Hint::Rows(_span) => false,
            Hint::Nothing => true,
        },
    }
}
