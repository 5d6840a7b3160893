ghost use Rattle.std.specs.Prelude.{◌≡◌};
ghost use Rattle.std.specs.List.Sorted.{IsStrictlySortedBy};
ghost use Rattle.credential_text.specs.Credential.{credential_order};
ghost use Rattle.vaults.specs.Version.{version_rows};
ghost use Rattle.vaults.specs.Blocks.{rows_in};

use names::Entity;
use std::marker::Model;
use std::sync::Arc;
use vaults::{Rows, Version};

/// An owner and the version of its vault, none where the vault is empty. Seen as a vault of a view.
#[derive(Drop)]
pub struct Holding {
    owner: Entity,
    version: Option<Arc<Version>>,
}

impl Model for Holding {
    ghost use Rattle.vaults.specs.Version.{version_rows};
    ghost use Rattle.vaults.specs.Journal.{Vault};

    ghost Value = { Vault };

    ghost view = { λ h. record { owner = h.owner; rows = version_rows h.version } };
}

impl Holding {
    pub fn new(owner: Entity, version: Option<Arc<Version>>) -> Holding
        ensures { result ≡ record { owner = owner; rows = version_rows version } }
    {
        Holding { owner, version }
    }

    pub fn owner(&self) -> Entity
        ensures { result ≡ self.now.owner }
    {
        self.owner
    }

    /// The rows of the vault, in order.
    pub fn rows(&self) -> Rows<'_>
        ensures rows { rows_in result ≡ self.now.rows }
        ensures ordered { IsStrictlySortedBy credential_order self.now.rows }
    {
        match &self.version {
            Some(version) => version.rows(),
            None => Rows::none(),
        }
    }
}
