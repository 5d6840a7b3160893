ghost use Rattle.std.specs.Prelude.{◌≡◌};

use thiserror::Error;

/// Which limit of a tenant is reached.
#[derive(Clone, Copy, Debug, PartialEq, Eq, Error)]
pub enum QuotaFault {
    /// The tenant holds as many credentials as it may.
    #[error("creds limit")]
    Creds,
    /// As many grants of the tenant stand as may.
    #[error("grants limit")]
    Grants,
    /// The tenant has as many searches that it has not ended as it may.
    #[error("searches limit")]
    Searches,
    /// The tenant has made as many changes as it may.
    #[error("changes limit")]
    Changes,
    /// The tenant has opened as many searches as it may.
    #[error("opens limit")]
    Opens,
}

impl QuotaFault {
    ghost use Rattle.quotas.specs.Fault.{quota_fault_number};

    /// The number under which a reply names this fault: 41 to 45.
    pub fn number(self) -> u64
        ensures { result ≡ quota_fault_number self }
    {
        match self {
            QuotaFault::Creds => 41,
            QuotaFault::Grants => 42,
            QuotaFault::Searches => 43,
            QuotaFault::Changes => 44,
            QuotaFault::Opens => 45,
        }
    }
}
