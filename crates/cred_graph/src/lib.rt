//! The graph of one search: a node for each expression, who listens to which node, and who is a solution of which node
//! and why.
//!
//! Contracts see a `Graph` as the lists of its nodes, listeners and solutions (`specs/Graph.antt`); each call adds one element
//! to one of them, or tells that it is there. A reason cites earlier solutions alone (`specs/Graph.antt`), so proofs that are
//! read off the graph are well-founded. The calls by number spare the look-up of a name.
//! Why so: docs/DECISIONS.md#cred_graph.
#![tactic(auto)]

mod graphs;
mod kept_exprs;
mod listeners;
mod node_exprs;
mod node_lists;
mod nodes;
mod solutions;
mod solved_hashes;
mod table_space;
mod tables;

pub use graphs::Graph;
pub use listeners::{Listening, Port};
pub use node_exprs::NodeExpr;
pub use solutions::{Reason, Solution};
