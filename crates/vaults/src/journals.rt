ghost use Rattle.std.specs.Prelude.{◌≡◌, ℕ, List, [], ◌∷◌, ◌++◌, ◌+◌, ◌-◌, ◌<◌, ◌≤◌, ◌^◌, true, false, None, ◌⊎◌, IsOk, OnOk, OnErr, IfOk};
ghost use Rattle.std.specs.Prelude.{length, vec_len, vec_capacity, if◌then◌else◌};
ghost use Rattle.vaults.specs.Kept.{Kept, kind_of, subject_of, drafted, framed, row_bytes, HasNames};
ghost use Rattle.vaults.specs.KeptOnce.{kept_prop};
ghost use Rattle.vaults.specs.Journal.{refusal, revokes};
ghost use Rattle.vaults.specs.Owed.{owed, gives, has_text, IsPrepared, LacksRoom};

use crate::changes::Change;
use crate::entries::Entries;
use credential_text::write_credential;
use names::Entity;
use std::alloc::{AllocError, Global};

/// Accepted changes, the oldest first, kept as bytes: each behind the other, a change by the number of its kind, its
/// tenant and what it is about, in the one spelling that is written. In a draft stands the text of a credential that is
/// about to be entered. Behind the bytes there is room for the entries that take back what stands.
#[derive(Drop)]
pub struct Journal {
    bytes: Vec<u8>,
    draft: Vec<u8>,
    count: usize,
    room: usize,
    ghost kept: { Kept bytes.items } by { kept_prop bytes.items },
    ghost counted: { count ≡ length kept.0 },
    ghost owes: { owed kept.0 ≤ room },
    ghost has_room: { vec_len bytes + room ≤ vec_capacity bytes },
}

impl Journal {
    /// A journal with no entry.
    pub fn new(alloc: Global) -> Journal
        ensures { result.kept.0 ≡ [] }
    {
        Journal {
            bytes: Vec::new(alloc),
            draft: Vec::new(alloc),
            count: 0,
            room: 0,
        }
    }

    /// How many entries there are.
    pub fn len(&self) -> usize
        ensures { result ≡ length self.now.kept.0 }
    {
        self.count
    }

    /// Takes the memory that the tenant's change needs in the journal. One that gives something takes as much again, for
    /// what takes it back. What takes something back has its room, so only the text of a credential may lack memory.
    pub fn prepare(&mut self, who: &Entity, change: &Change) -> Result<(), AllocError>
        ensures same { self.new.kept.0 ≡ self.old.kept.0 }
        ensures prepared { OnOk result
            (IsPrepared who.now change.now self.new.draft.items self.new.room (vec_len self.new.bytes) (vec_capacity self.new.bytes)) }
        ensures revocable { revokes change.now ≡ true → IsOk result }
        ensures growth { OnErr result ((has_text change.now ≡ true)
            ⊎ LacksRoom who.now change.now self.old.room (vec_len self.old.bytes) (vec_capacity self.old.bytes)) }
    {
        let subject = draft_subject(&mut self.draft, change)?;
        let row = who.bytes().len() + subject + 5;
        if change.gives() {
            self.bytes.try_reserve(self.room + 2 * row)?;
        }
        Ok(())
    }

    /// Enters a change that was prepared and that nothing refuses.
    pub fn enter(&mut self, who: &Entity, change: &Change)
        requires prepared { IsPrepared who.now change.now self.old.draft.items self.old.room
            (vec_len self.old.bytes) (vec_capacity self.old.bytes) }
        requires accepted { refusal self.old.kept.0 who.now change.now ≡ None }
        ensures { self.new.kept.0 ≡ self.old.kept.0 ++ record { tenant = who.now; change = change.now } ∷ [] }
    {
        let subject = subject(&self.draft, change);
        let tenant = who.bytes();
        let row = tenant.len() + subject.len() + 5;
        append_row(&mut self.bytes, change.kind(), tenant, subject);
        self.count += 1;
        self.room = room_after(self.room, row, change.gives());
    }

    /// The entries, to be read from the first on.
    pub fn entries(&self, alloc: Global) -> Entries<'_>
        ensures { result ≡ self.now.kept.0 }
    {
        Entries::new(alloc, &self.bytes)
    }
}

/// Puts the text of the change's credential into the draft, if it has one, and answers how long the text is that the
/// change is about.
fn draft_subject(draft: &mut Vec<u8>, change: &Change) -> Result<usize, AllocError>
    ensures subject { OnOk result (drafted change.now draft.new.items ≡ subject_of change.now) }
    ensures names { OnOk result (HasNames change.now) }
    ensures size { IfOk result (λ n. n ≡ length (subject_of change.now)) }
    ensures revocable { revokes change.now ≡ true → IsOk result }
    ensures growth { OnErr result (has_text change.now ≡ true) }
{
    match change {
        Change::Upload(credential) | Change::Withdraw(credential) => {
            draft.clear();
            write_credential(credential, draft)?;
            Ok(draft.len())
        }
        Change::Grant(reader) | Change::Revoke(reader) => Ok(reader.bytes().len()),
        Change::GrantAll | Change::RevokeAll => Ok(0),
    }
}

/// What the change is about, where the text of its credential is in the draft.
fn subject<'a>(draft: &'a [u8], change: &'a Change) -> &'a [u8]
    ensures { result.now ≡ drafted change.now draft.now }
{
    match change {
        Change::Upload(_) | Change::Withdraw(_) => draft,
        Change::Grant(reader) | Change::Revoke(reader) => reader.bytes(),
        Change::GrantAll | Change::RevokeAll => &[],
    }
}

/// Appends an entry, where there is room for it.
fn append_row(bytes: &mut Vec<u8>, kind: u8, tenant: &[u8], subject: &[u8])
    requires tenant { length tenant.now < 2 ^ 16 }
    requires subject { length subject.now < 2 ^ 16 }
    requires room { vec_len bytes.old + (length tenant.now + length subject.now + 5) ≤ vec_capacity bytes.old }
    ensures appended { bytes.new.items ≡ bytes.old.items ++ row_bytes kind tenant.now subject.now }
    ensures len { vec_len bytes.new ≡ vec_len bytes.old + (length tenant.now + length subject.now + 5) }
    ensures capacity { vec_capacity bytes.old ≤ vec_capacity bytes.new }
{
    bytes.push_reserved(kind);
    append_framed(bytes, tenant);
    append_framed(bytes, subject);
}

/// The room that is kept once a row is entered: more by the row where it gives something, and else less by it.
fn room_after(room: usize, row: usize, given: bool) -> usize
    requires more { given ≡ true → room + row < 2 ^ 64 }
    requires less { given ≡ false → row ≤ room }
    ensures { result ≡ (if given then room + row else room - row) }
{
    if given { room + row } else { room - row }
}

/// Appends a text behind its length, where there is room for it.
fn append_framed(bytes: &mut Vec<u8>, text: &[u8])
    requires short { length text.now < 2 ^ 16 }
    requires room { vec_len bytes.old + (length text.now + 2) ≤ vec_capacity bytes.old }
    ensures appended { bytes.new.items ≡ bytes.old.items ++ framed text.now }
    ensures len { vec_len bytes.new ≡ vec_len bytes.old + (length text.now + 2) }
    ensures capacity { vec_capacity bytes.old ≤ vec_capacity bytes.new }
{
    bytes.push_reserved((text.len() / 256) as u8);
    bytes.push_reserved((text.len() % 256) as u8);
    bytes.extend_from_slice(text).unwrap();
}
