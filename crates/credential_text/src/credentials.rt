ghost use Rattle.std.specs.Prelude.{◌≡◌, ◌↔◌, IsTrue, IsSome, IfSome, IfOk, OnErr};
ghost use Rattle.credential_text.specs.Expr.{IsIntersection, keeps_issuer};

use crate::exprs::Expr;
use names::Role;
use std::alloc::AllocError;
use std::cmp::Ordering;

/// A credential, written `HEAD <- BODY`: who is in the body is in the head. Its issuer is the owner of its head, and
/// each linked role in its body is based on a role of the issuer.
#[derive(Drop)]
pub struct Credential {
    pub head: Role,
    pub body: Expr,
    pub ghost issuer_kept: { IsTrue (keeps_issuer head body) },
}

impl Credential {
    ghost use Rattle.credential_text.specs.Credential.{credential_order};

    /// The credential of this head and body, or `None` where a linked role in the body is based on a role of another
    /// owner.
    pub fn make(head: Role, body: Expr) -> Option<Credential>
        ensures made { IsSome result ↔ IsTrue (keeps_issuer head body) }
        ensures credential { IfSome result (λ c. (c.head ≡ head) × (c.body ≡ body)) }
    {
        if body.keeps_issuer(&head) {
            Some(Credential { head, body })
        } else {
            None
        }
    }

    /// The order of credentials: by head, then by body.
    pub fn compare(&self, other: &Credential) -> Ordering
        ensures { result ≡ credential_order self.now other.now }
    {
        self.head
            .compare(&other.head)
            .then_with(|| self.body.compare(&other.body))
    }

    /// A copy of the credential. Only the copy of an intersection takes memory.
    pub fn try_clone(&self) -> Result<Credential, AllocError>
        ensures same { IfOk result (λ c. c ≡ self.now) }
        ensures growth { OnErr result (IsIntersection self.now.body) }
    {
        let body = self.body.try_clone()?;
        Ok(Credential {
            head: self.head,
            body,
        })
    }
}
