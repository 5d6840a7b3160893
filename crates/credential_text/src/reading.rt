ghost use Rattle.std.specs.Prelude.{◌≡◌, ◌≢◌, ◌≤◌, length, Some, None, IfOk, IfErr, IsErrOf, IsTrue, MatchOption};
ghost use Rattle.names.specs.Role.{SpellsRole};
ghost use Rattle.credential_text.specs.declared.faults.CredFault.TheVariants as faults;
ghost use Rattle.credential_text.specs.Spelling.{Spells};
ghost use Rattle.credential_text.specs.Refusal.{split_arrow, head_fault, refusal, has_parts};

use crate::bodies::read_body;
use crate::credentials::Credential;
use crate::faults::CredFault;
use names::texts::trim;
use names::{NameFault, Role};
use std::alloc::Global;

/// The most bytes of a credential's text.
const MOST_BYTES: usize = 4096;

/// What stands before the first `<-` of the text and what stands after it, if there is one.
fn round_arrow(text: &[u8]) -> Option<(&[u8], &[u8])>
    ensures { MatchOption result (split_arrow text.now ≡ None) (λ p. split_arrow text.now ≡ Some (p.0.now, p.1.now)) }
{
    for i in 0..text.len() {
        if let Some(after) = text[i..].strip_prefix(b"<-") {
            return Some((&text[..i], after));
        }
    }
    None
}

fn read_head(head: &[u8]) -> Result<Role, CredFault>
    ensures head { IfOk result (λ r. SpellsRole head.now r) }
    ensures refused { IfErr result (λ f. head_fault head.now ≡ Some f) }
{
    match Role::read(head) {
        Ok(role) => Ok(role),
        Err(NameFault::NotRole) => Err(CredFault::Head),
        Err(fault) => Err(CredFault::Name(fault)),
    }
}

/// The credential that the text spells, or the first fault of the text. Want of memory comes last, and only where the body has
/// several parts.
pub fn read_credential(alloc: Global, text: &[u8]) -> Result<Credential, CredFault>
    ensures read { IfOk result (λ c. Spells text.now c × (length text.now ≤ 4096)) }
    ensures refused { IfErr result (λ f. f ≢ faults.Memory → refusal text.now ≡ Some f) }
    ensures memory_last { IsErrOf result faults.Memory → refusal text.now ≡ None }
    ensures growth { IsErrOf result faults.Memory → IsTrue (has_parts text.now) }
{
    if text.len() > MOST_BYTES {
        return Err(CredFault::Long);
    }
    let Some((before, after)) = round_arrow(text) else {
        return Err(CredFault::NoArrow);
    };
    let head = read_head(trim(before))?;
    let body = read_body(alloc, &head.owner, after)?;
    Ok(Credential { head, body })
}
