ghost use Rattle.std.specs.Prelude.{◌≡◌};
ghost use Rattle.credential_text.specs.declared.faults.CredFault.TheVariants as faults;

use names::NameFault;
use std::alloc::AllocError;
use thiserror::Error;

/// Why a text spells no credential, or couldn't be read.
#[derive(Clone, Copy, Debug, Error)]
pub enum CredFault {
    /// The text has more than 4,096 bytes.
    #[error("credential too long")]
    Long,
    /// There is no `<-` in the text.
    #[error("no arrow")]
    NoArrow,
    /// What stands before the arrow hasn't exactly one dot.
    #[error("head")]
    Head,
    /// Nothing but spaces stands after the arrow.
    #[error("empty body")]
    BodyEmpty,
    /// A part has more than two dots.
    #[error("too many dots")]
    Dots,
    /// The base of a linked role is a role of another owner than the head's.
    #[error("link base")]
    LinkBase,
    /// There are more than 8 parts, or one of several is empty.
    #[error("parts")]
    Parts,
    /// A name in the text is none.
    #[error("{0}")]
    Name(NameFault),
    /// There is no memory for the credential.
    #[error("memory")]
    Memory,
}

impl CredFault {
    ghost use Rattle.credential_text.specs.Fault.{cred_fault_number};

    /// The number under which a reply names this fault: 21 to 27, 90, or the one of the name's fault.
    pub fn number(self) -> u64
        ensures { result ≡ cred_fault_number self }
    {
        match self {
            CredFault::Long => 27,
            CredFault::NoArrow => 21,
            CredFault::Head => 22,
            CredFault::BodyEmpty => 23,
            CredFault::Dots => 24,
            CredFault::LinkBase => 25,
            CredFault::Parts => 26,
            CredFault::Name(fault) => fault.number(),
            CredFault::Memory => 90,
        }
    }
}

impl From<NameFault> for CredFault {
    ghost from_gives = { λ fault e. e ≡ faults.Name fault };

    fn from(fault: NameFault) -> CredFault {
        CredFault::Name(fault)
    }
}

impl From<AllocError> for CredFault {
    ghost from_gives = { λ _ e. e ≡ faults.Memory };

    fn from(_error: AllocError) -> CredFault {
        CredFault::Memory
    }
}
