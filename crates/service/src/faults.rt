//! Why a script or a service ended early.
use std::alloc::AllocError;
use thiserror::Error;

/// Why a script ended before the end of its input.
#[derive(Clone, Copy, Debug, PartialEq, Eq, Error)]
pub enum ScriptFault {
    /// The input begins with no roster. One line on the writer says so.
    #[error("roster")]
    Roster,
    /// The reader failed, or was read too often.
    #[error("read")]
    Read,
    /// The writer failed, or took no byte.
    #[error("write")]
    Write,
    /// There was no memory for the roster, a line and a reply. Nothing was written.
    #[error("memory")]
    Memory,
}

/// Why a service ended before it had answered all its connections, or ended without the line that says so.
#[derive(Clone, Copy, Debug, PartialEq, Eq, Error)]
pub enum ServeFault {
    /// The listener failed.
    #[error("socket")]
    Socket,
    /// A thread couldn't be started.
    #[error("no thread")]
    NoThread,
    /// The writer failed, or took no byte.
    #[error("write")]
    Write,
    /// There was no memory for the service, or for a letter that a worker took.
    #[error("memory")]
    Memory,
}

impl From<AllocError> for ScriptFault {
    ghost use Rattle.std.specs.Prelude.{◌≡◌};
    ghost use Rattle.service.specs.declared.faults.ScriptFault.TheVariants.{Memory};

    ghost from_gives = { λ _ fault. fault ≡ Memory };

    fn from(_fault: AllocError) -> ScriptFault {
        ScriptFault::Memory
    }
}
