//! The lists that a reply holds.
ghost use Rattle.std.specs.Prelude.{◌≡◌};
ghost use Rattle.vaults.specs.Version.{version_rows};
ghost use Rattle.vaults.specs.Blocks.{rows_in};

use names::Entity;
use std::marker::Model;
use std::sync::Arc;
use vaults::{Rows as Lent, Seen, Version};

/// Credentials, as a reply tells them: the rows of a vault, which are shared and not copied. Seen as their list.
#[derive(Drop)]
pub struct Rows {
    version: Option<Arc<Version>>,
}

impl Model for Rows {
    ghost use Rattle.std.specs.Prelude.{List};
    ghost use Rattle.vaults.specs.Version.{version_rows};
    ghost use Rattle.credential_text.specs.declared.credentials.Credential.{Credential};

    ghost Value = { List Credential };

    ghost view = { λ r. version_rows r.version };
}

impl Rows {
    /// The rows of a version of a vault, or no row.
    pub(crate) fn new(version: Option<Arc<Version>>) -> Rows
        ensures { result ≡ version_rows version }
    {
        Rows { version }
    }

    /// The rows, in order, to be read.
    pub fn lent(&self) -> Lent<'_>
        ensures { rows_in result ≡ self.now }
    {
        match &self.version {
            Some(version) => version.rows(),
            None => Lent::none(),
        }
    }
}

/// Names of entities, as a reply tells them.
pub type Names = Listed<Entity>;

/// Names whose vaults a tenant reads, each with the mark whether every tenant reads it, as a reply tells them.
pub type Sights = Listed<Seen>;

/// What a reply lists, in order.
#[derive(Drop)]
pub struct Listed<T> {
    items: Vec<T>,
}

impl<T> Model for Listed<T> {
    ghost use Rattle.std.specs.Prelude.{List};

    ghost Value = { List T };

    ghost view = { λ l. l.items.items };
}

impl<T> Listed<T> {
    /// The items of a vector.
    pub fn new(items: Vec<T>) -> Listed<T>
        ensures { result ≡ items.items }
    {
        Listed { items }
    }

    /// The items, in order.
    pub fn as_slice(&self) -> &[T]
        ensures { result.now ≡ self.now }
    {
        &self.items
    }
}
