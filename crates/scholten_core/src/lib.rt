//! The termination detection of Dijkstra and Scholten (1980): letters, signals, the tree of engaged nodes, and the test
//! that nothing is outstanding.
//!
//! `Diffusion` is what programs hold. Contracts see it as a `Computation` (`specs/Computation.antt`), what a call does
//! to it is in `specs/Step.antt`, and what holds of each one is `IsSound` (`specs/Sound.antt`): deficits count what is
//! outstanding, and the engaged nodes are a tree. So `is_complete` answers yes exactly where no letter and no signal is left.
//! Why so: docs/DECISIONS.md#scholten_core.
#![tactic(auto)]

mod diffusions;
mod engagement;
mod letter_tables;
mod letters;
mod parents;
mod signals;
mod slots;

pub use diffusions::Diffusion;
pub use letters::Letter;
pub use parents::Parent;
