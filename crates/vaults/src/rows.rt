ghost use Rattle.std.specs.Prelude.{◌≡◌, ℕ, ◌<◌, ◌≤◌, length, IsTrue, IfOk, OnErr};
ghost use Rattle.std.specs.Arc.{arc_value};
ghost use Rattle.std.specs.Prelude.{get_or};
ghost use Rattle.std.specs.declared.cmp.Ordering.TheVariants.{Less};
ghost use Rattle.credential_text.specs.declared.credentials.Credential.{Credential as AnyCredential};
ghost use Rattle.std.specs.Vec.{vec_capacity};
ghost use Rattle.std.specs.BTreeSet.{insert_key};
ghost use Rattle.std.specs.List.Sorted.{IsStrictlySortedBy};
ghost use Rattle.names.specs.Role.{role_order};
ghost use Rattle.credential_text.specs.Expr.{IsIntersection, keeps_issuer};
ghost use Rattle.credential_text.specs.Credential.{credential_order};
ghost use Rattle.vaults.specs.InOrder.{without, IsPlace};

use credential_text::{Credential, Expr};
use names::{Entity, Role, RoleName};
use std::alloc::{AllocError, Global};
use std::cmp::Ordering;
use std::marker::Model;
use std::sync::Arc;

/// The role in the head of rows, whose owner's name the heads of other roles may share.
#[derive(Drop)]
struct Head {
    owner: Arc<Entity>,
    name: RoleName,
}

impl Model for Head {
    ghost use Rattle.std.specs.Arc.{arc_value};
    ghost use Rattle.names.specs.declared.roles.Role.{Role};

    ghost Value = { Role };

    ghost view = { λ h. record { owner = arc_value h.owner; name = h.name } };
}

/// A credential as a row holds it, whose head other rows of the role may share.
#[derive(Drop)]
struct HeldRow {
    head: Arc<Head>,
    body: Expr,
    ghost issuer_kept: { IsTrue (keeps_issuer (arc_value head) body) },
}

/// A row of a vault: a credential that moves as one address, and that the versions which have it share. Seen as the credential.
#[derive(Drop)]
pub struct Row {
    held: Arc<HeldRow>,
}

impl Model for Row {
    ghost use Rattle.std.specs.Arc.{arc_value};
    ghost use Rattle.credential_text.specs.declared.credentials.Credential.{Credential};

    ghost Value = { Credential };

    ghost view = { λ r. record {
      head = arc_value (arc_value r.held).head;
      body = (arc_value r.held).body;
      issuer_kept = (arc_value r.held).issuer_kept;
    } };
}

impl Row {
    /// A row with a copy of the credential. It shares the head of the row beside it where that is the same, or else its
    /// owner's name.
    pub(crate) fn of(
        alloc: Global,
        beside: Option<&Row>,
        credential: &Credential,
    ) -> Result<Row, AllocError>
        ensures { IfOk result (λ r. r ≡ credential.now) }
    {
        let head = head_of(alloc, beside, &credential.head)?;
        let body = credential.body.try_clone()?;
        let held = Arc::new(alloc, HeldRow { head, body })?;
        Ok(Row { held })
    }

    /// Whose role the credential's head is.
    pub fn owner(&self) -> &Entity
        ensures { result.now ≡ self.now.head.owner }
    {
        &self.held.head.owner
    }

    /// The name of the role in the credential's head.
    pub fn name(&self) -> &RoleName
        ensures { result.now ≡ self.now.head.name }
    {
        &self.held.head.name
    }

    /// The credential's body.
    pub fn body(&self) -> &Expr
        ensures { result.now ≡ self.now.body }
    {
        &self.held.body
    }

    /// A copy of the credential. Only the copy of an intersection takes memory.
    pub fn to_credential(&self) -> Result<Credential, AllocError>
        ensures same { IfOk result (λ c. c ≡ self.now) }
        ensures growth { OnErr result (IsIntersection self.now.body) }
    {
        let head = Role {
            owner: *self.owner(),
            name: *self.name(),
        };
        let body = self.body().try_clone()?;
        Ok(Credential { head, body })
    }

    /// How the credential's head stands to the role, in the order of roles.
    pub fn compare_head(&self, role: &Role) -> Ordering
        ensures { result ≡ role_order self.now.head role.now }
    {
        match self.owner().compare(&role.owner) {
            Ordering::Equal => self.name().compare(&role.name),
            unequal => unequal,
        }
    }

    /// How the row stands to the credential, in the order of credentials.
    pub fn compare(&self, credential: &Credential) -> Ordering
        ensures { result ≡ credential_order self.now credential.now }
    {
        match self.compare_head(&credential.head) {
            Ordering::Equal => self.body().compare(&credential.body),
            unequal => unequal,
        }
    }
}

/// This role, to be held: the head of the row beside it where that is the same, or else one that shares its owner's name, where
/// that is the same.
fn head_of(alloc: Global, beside: Option<&Row>, role: &Role) -> Result<Arc<Head>, AllocError>
    ensures { IfOk result (λ head. arc_value head ≡ role.now) }
{
    let owner = match beside {
        Some(row) if *row.owner() == role.owner => {
            let held = &row.held.head;
            if held.name == role.name {
                return Arc::try_clone(held);
            }
            Arc::try_clone(&held.owner)?
        }
        _ => Arc::new(alloc, role.owner)?,
    };
    let head = Head {
        owner,
        name: role.name,
    };
    Ok(Arc::new(alloc, head)?)
}

/// The row once more: the credential isn't copied.
impl Clone for Row {
    ghost is_clone = { λ row copy. copy ≡ row };

    fn clone(&self) -> Result<Row, AllocError> {
        let held = Arc::try_clone(&self.held)?;
        Ok(Row { held })
    }
}

/// Where the credential stands among the rows, or would stand.
pub fn place_of(rows: &[Row], credential: &Credential) -> Result<usize, usize>
    requires { IsStrictlySortedBy credential_order rows.now }
    ensures { IsPlace credential_order rows.now credential.now result }
{
    rows.binary_search_by(|row| row.compare(credential))
}

/// The same among some rows for one that is to be put there. It is held against the last row first, since what is put in
/// order goes behind that.
pub fn place_to_put(rows: &[Row], credential: &Credential) -> Result<usize, usize>
    requires some { 0 < length rows.now }
    requires in_order { IsStrictlySortedBy credential_order rows.now }
    ensures { IsPlace credential_order rows.now credential.now result }
{
    let last = rows.len() - 1;
    if rows[last].compare(credential).is_lt() {
        return Err(rows.len());
    }
    place_of(rows, credential)
}
