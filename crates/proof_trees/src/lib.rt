//! Proofs of membership: lists of steps, each by one of RT0's rules (Li, Winsborough and Mitchell 2003) from earlier
//! steps; the checker that accepts them, and their text.
//!
//! `IsProof` (`specs/Proof.antt`) says what a proof is. `proof_of` reads one off a completed search, or tells that the entity is no
//! member; `check_proof` accepts exactly the proofs. The laws (`specs/Laws.antt`): what has a proof is a member, and the credentials
//! that a proof cites are canonical.
//! Why so: docs/DECISIONS.md#proof_trees.
#![tactic(auto)]

mod checking;
mod drafts;
mod faults;
mod laws;
mod listed_credentials;
mod placed_solutions;
mod premises;
mod proofs;
mod proving;
mod rules;
mod steps;
#[cfg(test)]
mod tests_below;
mod writing;

pub use checking::check_proof;
pub use faults::ProofFault;
pub use laws::{cited_credentials_are_canonical, proofs_are_sound};
pub use premises::Premises;
pub use proofs::Proof;
pub use proving::proof_of;
pub use steps::{Rule, Step};
pub use writing::write_proof;
