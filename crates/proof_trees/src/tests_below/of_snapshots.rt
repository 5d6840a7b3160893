ghost use Rattle.std.specs.Prelude.{◌≡◌, ◌<◌};

use credential_text::{Credential, read_credential};
use names::{Entity, Role};
use snapshots::{Snapshot, Span, Steps};
use std::alloc::Global;
use std::marker::Brand;
use std::sync::ledger::{Blank, Ledger};
use std::test::Fail;
use vaults::{Book, Change, VaultFault};

/// What `A` holds.
static HELD: [&[u8]; 3] = [b"A.r <- D", b"A.r <- E", b"A.t <- D"];

/// `A` comes to hold three credentials and to read the empty vault of `C`.
fn fill(alloc: Global, book: &mut Book, a: Entity, c: Entity) -> Result<(), Fail> {
    for text in &HELD {
        let upload = Change::Upload(read_credential(alloc, text)?);
        book.change(a, upload)?;
    }
    book.change(c, Change::Grant(a))?;
    Ok(())
}

/// Whether the role's span is this one: vault, first row and last row.
fn finds(snapshot: &Snapshot, text: &[u8], told: &[u64; 3]) -> bool {
    match Role::read(text) {
        Ok(role) => {
            let span = snapshot.find(&role);
            [span.vault, span.lo, span.hi] == *told
        }
        Err(_) => false,
    }
}

/// Whether each role's span is this one.
fn finds_all(snapshot: &Snapshot, rows: &[(&[u8], [u64; 3])]) -> bool {
    for (text, told) in rows {
        if !finds(snapshot, text, told) {
            return false;
        }
    }
    true
}

/// Whether the snapshot takes the span for the role's, or not, as is expected.
fn judges_one<L: Ledger>(
    snapshot: &Snapshot,
    steps: &mut Steps<L>,
    text: &[u8],
    span: Span,
    expected: bool,
) -> bool {
    match Role::read(text) {
        Ok(role) => {
            snapshot.span_is(&role, span, steps) == expected
                && snapshot.finds(&role, span) == expected
        }
        Err(_) => false,
    }
}

/// Whether the snapshot takes each span for the role's: role, vault, first row, last row and answer.
fn judges_all<L: Ledger>(
    snapshot: &Snapshot,
    steps: &mut Steps<L>,
    rows: &[(&[u8], [u64; 3], bool)],
) -> bool {
    for (text, numbers, expected) in rows {
        let [vault, lo, hi] = *numbers;
        let span = Span { vault, lo, hi };
        if !judges_one(snapshot, steps, text, span, *expected) {
            return false;
        }
    }
    true
}

/// Whether the snapshot takes each span for the role's, with comparisons that are counted from none.
fn judges<L: Ledger>(snapshot: &Snapshot, blank: Blank, rows: &[(&[u8], [u64; 3], bool)]) -> bool
    requires name { blank.name ≡ L.name }
    requires parts { blank.parts ≡ L.parts }
    requires some { 0 < blank.parts }
{
    let (book, share) = blank.open::<L>();
    judges_all(snapshot, &mut Steps::new(book, share), rows)
}

static FOUND: [(&[u8], [u64; 3]); 8] = [
    (b"A.r", [0, 0, 2]),
    (b"A.s", [0, 2, 2]),
    (b"A.t", [0, 2, 3]),
    (b"B.r", [1, 0, 0]),
    (b"C.r", [1, 0, 0]),
    (b"D.r", [2, 0, 0]),
    (b"A.a", [0, 0, 0]),
    (b"A.z", [0, 3, 3]),
];

static JUDGED: [(&[u8], [u64; 3], bool); 4] = [
    (b"A.r", [0, 0, 2], true),
    (b"A.r", [0, 0, 1], false),
    (b"B.r", [1, 0, 0], true),
    (b"B.r", [0, 0, 0], false),
];

/// Whether the spans of roles that are there and of others are found and judged.
fn find_spans(snapshot: &Snapshot) -> bool {
    finds_all(snapshot, &FOUND) && judges::<Brand>(snapshot, Blank::new(1), &JUDGED)
}

static FOUND_BY_C: [(&[u8], [u64; 3]); 3] = [
    (b"A.r", [0, 0, 0]),
    (b"C.r", [0, 0, 0]),
    (b"D.r", [1, 0, 0]),
];

/// Whether the tenant sees its own vault alone, which is empty.
fn sees_nothing(alloc: Global, book: &mut Book, who: Entity) -> Result<bool, VaultFault> {
    let snapshot = Snapshot::take(alloc, book, who)?;
    Ok(snapshot.asker() == who && finds_all(&snapshot, &FOUND_BY_C))
}

/// Whether the snapshot has both rows of the role, the second of which is this credential.
fn has_both(snapshot: &Snapshot, role: Role, second: &Credential) -> bool {
    let span = snapshot.find(&role);
    span.hi == 2 && span.lo == 0 && snapshot.row(span, 1).compare(second).is_eq()
}

/// Takes the credential out of its issuer's vault.
fn withdraw(book: &mut Book, credential: &Credential) -> Result<(), VaultFault> {
    let withdrawal = Change::Withdraw(credential.try_clone()?);
    book.change(credential.head.owner, withdrawal)?;
    Ok(())
}

/// Whether `A` sees what it held when it took the snapshot, before a withdrawal.
fn stays(alloc: Global, book: &mut Book, snapshot: &Snapshot) -> Result<bool, Fail> {
    let second = read_credential(alloc, b"A.r <- E")?;
    withdraw(book, &second)?;
    Ok(has_both(snapshot, second.head, &second))
}

/// Whether spans are found and judged in what `A` sees, and what it sees stays.
fn sees_spans(alloc: Global, book: &mut Book, a: Entity) -> Result<bool, Fail> {
    let snapshot = Snapshot::take(alloc, book, a)?;
    Ok(find_spans(&snapshot) && stays(alloc, book, &snapshot)?)
}

/// Whether snapshots of the book of these two are right.
fn all_is_seen(alloc: Global, book: &mut Book, a: Entity, c: Entity) -> Result<bool, Fail> {
    fill(alloc, book, a, c)?;
    Ok(sees_nothing(alloc, book, c)? && sees_spans(alloc, book, a)?)
}

#[test]
fn snapshots_have_their_spans_and_stay(rt: HostRuntime) -> Result<(), Fail> {
    let (a, c) = (Entity::read(b"A")?, Entity::read(b"C")?);
    let mut book = Book::new(rt.alloc());
    assert!(rt; all_is_seen(rt.alloc(), &mut book, a, c)?);
    Ok(())
}
