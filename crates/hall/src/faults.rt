ghost use Rattle.std.specs.Prelude.{◌≡◌};
ghost use Rattle.hall.specs.Fault.{fault_number, vault_fault, quota_fault, proof_fault};
ghost use Rattle.hall.specs.declared.faults.Fault.TheVariants.{Memory};

use proof_trees::ProofFault;
use quotas::QuotaFault;
use std::alloc::{AllocError, AllocFailed};
use thiserror::Error;
use vaults::VaultFault;

/// Why a request is refused.
#[derive(Clone, Copy, Debug, PartialEq, Eq, Error)]
pub enum Fault {
    /// The tenant isn't the issuer of the credential.
    #[error("not issuer")]
    NotIssuer = 31,
    /// The tenant holds the credential that it uploads.
    #[error("already held")]
    AlreadyHeld = 32,
    /// The tenant doesn't hold the credential that it withdraws.
    #[error("not held")]
    NotHeld = 33,
    /// The grant stands already: to the reader, or to every tenant.
    #[error("already granted")]
    AlreadyGranted = 34,
    /// No such grant stands that could be revoked: to the reader, or to every tenant.
    #[error("not granted")]
    NotGranted = 35,
    /// The tenant grants itself, who reads its own vault anyway.
    #[error("grant self")]
    GrantSelf = 36,
    /// The tenant holds as many credentials as it may.
    #[error("creds limit")]
    Creds = 41,
    /// As many grants of the tenant stand as may, one to every tenant counting as one.
    #[error("grants limit")]
    Grants = 42,
    /// The tenant has as many searches that it has not ended as it may.
    #[error("searches limit")]
    Searches = 43,
    /// The tenant has made as many changes as it may.
    #[error("changes limit")]
    Changes = 44,
    /// The tenant has opened as many searches as it may.
    #[error("opens limit")]
    Opens = 45,
    /// The tenant has no search of this number that it has not ended.
    #[error("no such search")]
    NoSuchSearch = 51,
    /// The search has no answer that could be proved.
    #[error("not done")]
    NotDone = 52,
    /// The entity is no member, so there is no proof that it is.
    #[error("no proof")]
    NoProof = 53,
    /// The name doesn't stand in the roster.
    #[error("bad hello")]
    NoTenant = 62,
    /// There is no memory for the request.
    #[error("memory")]
    Memory = 90,
}

impl Fault {
    /// The number under which a reply names this fault.
    pub fn number(self) -> u64
        ensures { result ≡ fault_number self }
    {
        self as u64
    }
}

impl From<VaultFault> for Fault {
    ghost from_gives = { λ f fault. fault ≡ vault_fault f };

    fn from(fault: VaultFault) -> Fault {
        match fault {
            VaultFault::NotIssuer => Fault::NotIssuer,
            VaultFault::AlreadyHeld => Fault::AlreadyHeld,
            VaultFault::NotHeld => Fault::NotHeld,
            VaultFault::AlreadyGranted => Fault::AlreadyGranted,
            VaultFault::NotGranted => Fault::NotGranted,
            VaultFault::GrantSelf => Fault::GrantSelf,
            VaultFault::Memory => Fault::Memory,
        }
    }
}

impl From<QuotaFault> for Fault {
    ghost from_gives = { λ f fault. fault ≡ quota_fault f };

    fn from(fault: QuotaFault) -> Fault {
        match fault {
            QuotaFault::Creds => Fault::Creds,
            QuotaFault::Grants => Fault::Grants,
            QuotaFault::Searches => Fault::Searches,
            QuotaFault::Changes => Fault::Changes,
            QuotaFault::Opens => Fault::Opens,
        }
    }
}

impl From<ProofFault> for Fault {
    ghost from_gives = { λ f fault. fault ≡ proof_fault f };

    fn from(fault: ProofFault) -> Fault {
        match fault {
            ProofFault::NotDone => Fault::NotDone,
            ProofFault::NoProof => Fault::NoProof,
            ProofFault::Memory => Fault::Memory,
        }
    }
}

impl From<AllocError> for Fault {
    ghost from_gives = { λ _ fault. fault ≡ Memory };

    fn from(_fault: AllocError) -> Fault {
        Fault::Memory
    }
}

impl<T: Drop> From<AllocFailed<T>> for Fault {
    ghost from_gives = { λ _ fault. fault ≡ Memory };

    fn from(_fault: AllocFailed<T>) -> Fault {
        Fault::Memory
    }
}
