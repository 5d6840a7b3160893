//! The tables of a search that was ended, for the next one.

use crate::findings::Findings;
use crate::stages::Stage;
use cred_graph::Graph;
use std::alloc::Global;
use std::collections::VecDeque;
use std::marker::Model;

/// Empty tables of a search with the memory that they have taken, as a small search takes it and no more. A search that is
/// opened in them is the same as any other, and takes less memory anew.
#[derive(Drop)]
pub struct Tables {
    pub(crate) found: Findings,
    // Its letters, where it was completed.
    pub(crate) stage: Stage,
}

impl Model for Tables {
    ghost use Rattle.std.specs.Prelude.{◌≡◌, []};
    ghost use Rattle.cred_graph.specs.Graph.{empty_graph};
    ghost use Rattle.search.specs.Answers.{progress};

    ghost Value = { Unit {0} };

    ghost view = { λ t. tt };

    ghost invariant = { λ t. t.found ≡ progress empty_graph [] [] };
}

impl Tables {
    /// Tables that have taken no memory.
    pub fn new(alloc: Global) -> Tables {
        Tables {
            found: Findings {
                graph: Graph::new(alloc),
                monitors: Vec::new(alloc),
                outs: VecDeque::new(alloc),
            },
            stage: Stage::Spent,
        }
    }
}
