ghost use Rattle.std.specs.Prelude.{◌≡◌};
ghost use Rattle.vaults.specs.declared.faults.VaultFault.TheVariants as faults;

use std::alloc::AllocError;
use thiserror::Error;

/// Why a change is refused.
#[derive(Clone, Copy, Debug, Error)]
pub enum VaultFault {
    /// The tenant isn't the issuer of the credential.
    #[error("not issuer")]
    NotIssuer,
    /// The tenant holds the credential that it uploads.
    #[error("already held")]
    AlreadyHeld,
    /// The tenant doesn't hold the credential that it withdraws.
    #[error("not held")]
    NotHeld,
    /// What the tenant grants, to one reader or to all, stands already.
    #[error("already granted")]
    AlreadyGranted,
    /// What the tenant revokes, from one reader or from all, isn't granted.
    #[error("not granted")]
    NotGranted,
    /// The tenant grants itself, who reads its own vault anyway.
    #[error("grant self")]
    GrantSelf,
    /// There is no memory for the change.
    #[error("memory")]
    Memory,
}

impl VaultFault {
    ghost use Rattle.vaults.specs.Fault.{vault_fault_number};

    /// The number under which a reply names this fault: 31 to 36, or 90.
    pub fn number(self) -> u64
        ensures { result ≡ vault_fault_number self }
    {
        match self {
            VaultFault::NotIssuer => 31,
            VaultFault::AlreadyHeld => 32,
            VaultFault::NotHeld => 33,
            VaultFault::AlreadyGranted => 34,
            VaultFault::NotGranted => 35,
            VaultFault::GrantSelf => 36,
            VaultFault::Memory => 90,
        }
    }
}

impl From<AllocError> for VaultFault {
    ghost from_gives = { λ _ e. e ≡ faults.Memory };

    fn from(_fault: AllocError) -> VaultFault {
        VaultFault::Memory
    }
}
