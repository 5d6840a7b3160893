ghost use Rattle.std.specs.Prelude.{◌≡◌};
ghost use Rattle.proof_trees.specs.declared.faults.ProofFault.TheVariants as faults;

use std::alloc::AllocError;
use thiserror::Error;

/// Why a search gives no proof.
#[derive(Clone, Copy, Debug, PartialEq, Eq, Error)]
pub enum ProofFault {
    /// The search isn't completed: it is working, or it ended without an answer.
    #[error("not done")]
    NotDone,
    /// The search is completed, and the entity is no member of the asked role.
    #[error("no proof")]
    NoProof,
    /// There is no memory for the proof.
    #[error("memory")]
    Memory,
}

impl ProofFault {
    ghost use Rattle.proof_trees.specs.Fault.{proof_fault_number};

    /// The number under which a reply names this fault: 52, 53 or 90.
    pub fn number(self) -> u64
        ensures { result ≡ proof_fault_number self }
    {
        match self {
            ProofFault::NotDone => 52,
            ProofFault::NoProof => 53,
            ProofFault::Memory => 90,
        }
    }
}

impl From<AllocError> for ProofFault {
    ghost from_gives = { λ _ e. e ≡ faults.Memory };

    fn from(_fault: AllocError) -> ProofFault {
        ProofFault::Memory
    }
}
