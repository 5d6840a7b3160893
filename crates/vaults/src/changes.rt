ghost use Rattle.std.specs.Prelude.{◌≡◌, false, IfOk, OnErr};

use credential_text::Credential;
use names::Entity;
use std::alloc::AllocError;

/// A change that a tenant makes to its own vault, or to who may read it.
pub enum Change {
    /// The tenant holds the credential from now on.
    Upload(Credential),
    /// The tenant holds the credential no longer.
    Withdraw(Credential),
    /// The reader may read the tenant's vault from now on.
    Grant(Entity),
    /// The reader's grant ends.
    Revoke(Entity),
    /// Every tenant may read the tenant's vault from now on.
    GrantAll,
    /// The tenant's vault is public no longer; what it granted single readers stands.
    RevokeAll,
}

// By hand, so that who holds one drops it by one call, whose proof stands here.
impl Drop for Change {
    fn drop(self) {
        match self {
            Change::Upload(_credential) | Change::Withdraw(_credential) => {}
            Change::Grant(_) | Change::Revoke(_) | Change::GrantAll | Change::RevokeAll => {}
        }
    }
}

impl Change {
    ghost use Rattle.vaults.specs.Journal.{revokes};
    ghost use Rattle.vaults.specs.Kept.{kind_of};
    ghost use Rattle.vaults.specs.Owed.{gives};

    /// A copy of the change. A revocation is copied without memory.
    pub fn try_clone(&self) -> Result<Change, AllocError>
        ensures copy { IfOk result (λ copy. copy ≡ self.now) }
        ensures memory { OnErr result (revokes self.now ≡ false) }
    {
        Ok(match self {
            Change::Upload(credential) => Change::Upload(credential.try_clone()?),
            Change::Withdraw(credential) => Change::Withdraw(credential.try_clone()?),
            Change::Grant(reader) => Change::Grant(*reader),
            Change::Revoke(reader) => Change::Revoke(*reader),
            Change::GrantAll => Change::GrantAll,
            Change::RevokeAll => Change::RevokeAll,
        })
    }

    /// The number of its kind.
    pub(crate) fn kind(&self) -> u8
        ensures { result ≡ kind_of self.now }
    {
        match self {
            Change::Upload(_) => 0,
            Change::Withdraw(_) => 1,
            Change::Grant(_) => 2,
            Change::Revoke(_) => 3,
            Change::GrantAll => 4,
            Change::RevokeAll => 5,
        }
    }

    /// Whether it gives what another change takes back.
    pub(crate) fn gives(&self) -> bool
        ensures { result ≡ gives self.now }
    {
        match self {
            Change::Upload(_) | Change::Grant(_) | Change::GrantAll => true,
            Change::Withdraw(_) | Change::Revoke(_) | Change::RevokeAll => false,
        }
    }
}

/// An accepted change and the tenant that made it.
#[derive(Drop)]
pub struct Entry {
    pub tenant: Entity,
    pub change: Change,
}
