ghost use Rattle.std.specs.Prelude.{◌≡◌, ◌↔◌, IsTrue, Contains};
ghost use Rattle.credential_text.specs.declared.credentials.Credential.{Credential as AnyCredential};

use credential_text::{Credential, Expr};
use names::Role;

/// Whether the credential of this head and body is among these. Where they are sorted, one that is there is found by
/// halving; a credential that this doesn't find is looked for one by one.
pub(crate) fn has_credential(credentials: &[Credential], head: &Role, body: &Expr) -> bool
    ensures { IsTrue result ↔ ((c : AnyCredential) × Contains credentials.now c × (c.head ≡ head.now) × (c.body ≡ body.now)) }
{
    if let Ok(place) = credentials.binary_search_by(|other| other
        .head
        .compare(head)
        .then(other.body.compare(body)))
        && is_credential(&credentials[place], head, body)
    {
        return true;
    }
    for credential in credentials {
        if is_credential(credential, head, body) {
            return true;
        }
    }
    false
}

/// Whether the credential has this head and body.
fn is_credential(credential: &Credential, head: &Role, body: &Expr) -> bool
    ensures { IsTrue result ↔ ((credential.now.head ≡ head.now) × (credential.now.body ≡ body.now)) }
{
    credential.head == *head && credential.body == *body
}
