ghost use Rattle.std.specs.Prelude.{◌≡◌, ℕ, List, [], ◌∷◌, ◌++◌, ◌<◌, ◌^◌, IfOk, IfErr, OnErr, Some, None, MatchOption, length};
ghost use Rattle.vaults.specs.declared.changes.Entry.{Entry as AnyEntry};
ghost use Rattle.vaults.specs.Kept.{Kept, AreKept, kind_of, subject_of, framed, entry_bytes, IsNamed};
ghost use Rattle.vaults.specs.KeptOnce.{kept_prop};

use crate::changes::{Change, Entry};
use crate::faults::VaultFault;
use credential_text::read_credential;
use names::Entity;
use std::alloc::{AllocError, Global};
use std::marker::Model;

/// Accepted changes that are still to be read, the oldest first. Seen as their list.
#[derive(Drop)]
pub struct Entries<'a> {
    alloc: Global,
    bytes: &'a [u8],
    ghost kept: { Kept bytes.now } by { kept_prop bytes.now },
}

impl<'a> Model for Entries<'a> {
    ghost use Rattle.std.specs.Prelude.{List};
    ghost use Rattle.vaults.specs.declared.changes.Entry.{Entry};

    ghost Value = { List Entry };

    ghost view = { λ entries. entries.kept.0 };
}

/// An entry as it is kept, and the bytes behind it.
#[derive(Drop)]
struct Cut<'a> {
    kind: u8,
    tenant: &'a [u8],
    subject: &'a [u8],
    behind: &'a [u8],
}

impl<'a> Entries<'a> {
    /// The entries that the bytes are.
    pub(crate) fn new(alloc: Global, bytes: &'a [u8]) -> Entries<'a>
        requires { Kept bytes.now }
        ensures { (entries : List AnyEntry) → AreKept bytes.now entries → result ≡ entries }
    {
        Entries { alloc, bytes }
    }

    /// The next one, and none behind the last. For want of memory it isn't read, and may be read again.
    pub fn next(&mut self) -> Result<Option<Entry>, VaultFault>
        ensures next { IfOk result (λ next. MatchOption next ((self.old ≡ []) × (self.new ≡ [])) (λ entry. self.old ≡ entry ∷ self.new)) }
        ensures unchanged { OnErr result (self.new ≡ self.old) }
        ensures only_memory { IfErr result (λ f. f ≡ VaultFault.Memory) }
    {
        let Some(cut) = cut_entry(self.bytes) else {
            return Ok(None);
        };
        match read_entry(self.alloc, cut.kind, cut.tenant, cut.subject) {
            Ok(entry) => {
                self.bytes = cut.behind;
                Ok(entry)
            }
            Err(lack) => Err(lack.into()),
        }
    }
}

/// The first entry of the bytes, if they begin with one: the number of its kind, its tenant, what it is about, and the bytes
/// behind it.
fn cut_entry(bytes: &[u8]) -> Option<Cut<'_>>
    ensures nothing { bytes.now ≡ [] → result ≡ None }
    ensures entry { (e : AnyEntry) (rest : List ℕ) → bytes.now ≡ entry_bytes e ++ rest →
        MatchOption result ⊥ (λ cut. (cut.kind ≡ kind_of e.change) × (cut.tenant.now ≡ e.tenant)
        × (cut.subject.now ≡ subject_of e.change) × (cut.behind.now ≡ rest)) }
{
    let [kind, behind @ ..] = bytes else {
        return None;
    };
    let Some((tenant, behind)) = cut_framed(behind) else {
        return None;
    };
    let Some((subject, behind)) = cut_framed(behind) else {
        return None;
    };
    Some(Cut {
        kind: *kind,
        tenant,
        subject,
        behind,
    })
}

/// The text that the bytes begin with, behind its length, and the bytes behind it.
fn cut_framed(bytes: &[u8]) -> Option<(&[u8], &[u8])>
    ensures { (text rest : List ℕ) → bytes.now ≡ framed text ++ rest
        → MatchOption result ⊥ (λ cut. (cut.0.now ≡ text) × (cut.1.now ≡ rest)) }
{
    let [high, low, behind @ ..] = bytes else {
        return None;
    };
    behind.split_at_checked(*high as usize * 256 + *low as usize)
}

/// The tenant's entry of this kind about this subject, if there is one. Where the text is the one that is written, only memory
/// may lack.
fn read_entry(
    alloc: Global,
    kind: u8,
    tenant: &[u8],
    subject: &[u8],
) -> Result<Option<Entry>, AllocError>
    ensures { (e : AnyEntry) → IsNamed e → kind ≡ kind_of e.change → tenant.now ≡ e.tenant → subject.now ≡ subject_of e.change →
        IfOk result (λ read. read ≡ Some e) }
{
    let Ok(tenant) = Entity::read(tenant) else {
        return Ok(None);
    };
    let change = match kind {
        0 | 1 => {
            let Ok(credential) = read_credential(alloc, subject) else {
                return Err(AllocError);
            };
            if kind == 0 {
                Change::Upload(credential)
            } else {
                Change::Withdraw(credential)
            }
        }
        2 | 3 => {
            let Ok(reader) = Entity::read(subject) else {
                return Ok(None);
            };
            if kind == 2 {
                Change::Grant(reader)
            } else {
                Change::Revoke(reader)
            }
        }
        4 => Change::GrantAll,
        5 => Change::RevokeAll,
        _ => return Ok(None),
    };
    Ok(Some(Entry { tenant, change }))
}
