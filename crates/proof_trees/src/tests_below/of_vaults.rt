use super::is_text;
use super::of_credential_text::longest_text;
use credential_text::{CredFault, Credential, read_credential};
use names::Entity;
use std::alloc::{AllocError, Global};
use vaults::{Book, Change, Entries, Entry, Row, Rows, Seen, VaultFault, Version};

/// A change, by the spelling of its credential or the name of its reader.
#[derive(Clone, Copy)]
enum Word<'a> {
    Put(&'a [u8]),
    Drop(&'a [u8]),
    Grant(&'a [u8]),
    Revoke(&'a [u8]),
    GrantAll,
    RevokeAll,
}

use Word::{Drop, Grant, GrantAll, Put, Revoke, RevokeAll};

fn change_of(alloc: Global, word: &Word) -> Result<Change, CredFault> {
    Ok(match word {
        Put(text) => Change::Upload(read_credential(alloc, text)?),
        Drop(text) => Change::Withdraw(read_credential(alloc, text)?),
        Grant(reader) => Change::Grant(Entity::read(reader)?),
        Revoke(reader) => Change::Revoke(Entity::read(reader)?),
        GrantAll => Change::GrantAll,
        RevokeAll => Change::RevokeAll,
    })
}

/// The count of an accepted change, or the number of its refusal.
fn number_of(answer: Result<u64, VaultFault>) -> u64 {
    match answer {
        Ok(count) => count,
        Err(fault) => fault.number(),
    }
}

/// What the book answers. Where memory is refused the same change is tried again, so that a test sees that the refusal
/// changed nothing.
fn told(book: &mut Book, who: Entity, change: &Change) -> u64 {
    match book.enter(who, change) {
        Err(VaultFault::Memory) => number_of(book.enter(who, change)),
        told => number_of(told),
    }
}

/// Whether the book answers the tenant's change so.
fn answers(
    alloc: Global,
    book: &mut Book,
    who: Entity,
    word: &Word,
    expected: u64,
) -> Result<bool, CredFault> {
    let change = change_of(alloc, word)?;
    Ok(told(book, who, &change) == expected)
}

/// Whether the text spells this credential.
fn is_spelled(alloc: Global, credential: &Credential, text: &[u8]) -> Result<bool, CredFault> {
    Ok(credential.compare(&read_credential(alloc, text)?).is_eq())
}

/// Whether the word stands for this change.
fn is_meant(alloc: Global, change: &Change, word: &Word) -> Result<bool, CredFault> {
    match (change, word) {
        (Change::Upload(credential), Put(text)) | (Change::Withdraw(credential), Drop(text)) => {
            is_spelled(alloc, credential, text)
        }
        (Change::Grant(reader), Grant(name)) | (Change::Revoke(reader), Revoke(name)) => {
            Ok(reader.bytes() == *name)
        }
        (Change::GrantAll, GrantAll) | (Change::RevokeAll, RevokeAll) => Ok(true),
        _ => Ok(false),
    }
}

/// Whether the entry is this change of this tenant.
fn is_entry(alloc: Global, entry: &Entry, who: &[u8], word: &Word) -> Result<bool, CredFault> {
    if entry.tenant.bytes() == who {
        is_meant(alloc, &entry.change, word)
    } else {
        Ok(false)
    }
}

/// Whether the next accepted change is this one of this tenant.
fn reads_next(
    alloc: Global,
    entries: &mut Entries,
    who: &[u8],
    word: &Word,
) -> Result<bool, CredFault> {
    match entries.next() {
        Ok(Some(entry)) => is_entry(alloc, &entry, who, word),
        Ok(None) => Ok(false),
        Err(_) => Err(CredFault::Memory),
    }
}

/// Whether no accepted change is left to be read.
fn is_read(entries: &mut Entries) -> bool {
    matches!(entries.next(), Ok(None))
}

/// Whether these are the accepted changes that are still to be read.
fn reads_all(
    alloc: Global,
    entries: &mut Entries,
    rows: &[(&[u8], Word)],
) -> Result<bool, CredFault> {
    for (who, word) in rows {
        if !reads_next(alloc, entries, who, word)? {
            return Ok(false);
        }
    }
    Ok(is_read(entries))
}

/// Whether these are the accepted changes, read from the oldest on.
fn reads_back(alloc: Global, book: &Book, rows: &[(&[u8], Word)]) -> Result<bool, CredFault> {
    let mut entries = book.entries();
    reads_all(alloc, &mut entries, rows)
}

/// Whether the text spells this row.
fn is_row(alloc: Global, row: &Row, text: &[u8]) -> Result<bool, CredFault> {
    Ok(row.compare(&read_credential(alloc, text)?).is_eq())
}

/// Whether these are the rows, in this order.
fn are_rows(alloc: Global, rows: &Rows<'_>, texts: &[&[u8]]) -> Result<bool, CredFault> {
    for (place, text) in texts.iter().enumerate() {
        if place >= rows.len() || !is_row(alloc, rows.row(place), text)? {
            return Ok(false);
        }
    }
    Ok(rows.len() == texts.len())
}

/// Whether these are the names, in this order, and whether their vaults are public.
fn are_seen(seen: &[Seen], names: &[(&[u8], bool)]) -> bool {
    let mut rest = names;
    for seen in seen {
        let [(name, to_all), behind @ ..] = rest else {
            return false;
        };
        if seen.name.bytes() != *name || seen.to_all != *to_all {
            return false;
        }
        rest = behind;
    }
    rest.is_empty()
}

fn reads(book: &Book, who: Entity, names: &[(&[u8], bool)]) -> Result<bool, CredFault> {
    match book.owners_read_by(who) {
        Ok(seen) => Ok(are_seen(&seen, names)),
        Err(_) => Err(CredFault::Memory),
    }
}

fn digit(number: u64) -> u8 {
    b'0' + (number % 10) as u8
}

/// The spelling of the credential of that number: from `A.r <- E000` on.
fn numbered(number: u64) -> [u8; 11] {
    let (hundreds, tens, ones) = (digit(number / 100), digit(number / 10), digit(number));
    [
        b'A', b'.', b'r', b' ', b'<', b'-', b' ', b'E', hundreds, tens, ones,
    ]
}

/// Whether the book accepts each of 900 uploads of the tenant in no order.
fn accepts_uploads(alloc: Global, book: &mut Book, who: Entity) -> Result<bool, CredFault> {
    for place in 0..900u64 {
        let text = numbered(place * 389 % 900);
        if !answers(alloc, book, who, &Put(&text), place + 1)? {
            return Ok(false);
        }
    }
    Ok(true)
}

/// Whether the book accepts that each second one of the 900 is withdrawn in no order.
fn accepts_withdrawals(alloc: Global, book: &mut Book, who: Entity) -> Result<bool, CredFault> {
    for place in 0..450u64 {
        let text = numbered((2 * place + 1) * 389 % 900);
        if !answers(alloc, book, who, &Drop(&text), place + 901)? {
            return Ok(false);
        }
    }
    Ok(true)
}

/// Whether the rows are `A.r <- E000` and each second one on to the 899th.
fn are_even(alloc: Global, rows: &Rows<'_>) -> Result<bool, CredFault> {
    for place in 0..rows.len() {
        if !is_row(
            alloc,
            rows.row(place),
            &numbered((place as u64).wrapping_mul(2)),
        )? {
            return Ok(false);
        }
    }
    Ok(rows.len() == 450)
}

/// Whether the one credential of the tenant's vault comes and goes 500 times, from its second change on.
fn comes_and_goes(alloc: Global, book: &mut Book, who: Entity) -> Result<bool, CredFault> {
    for round in 1..=500u64 {
        if !answers(alloc, book, who, &Drop(b"B.s <- D"), 2 * round)?
            || !answers(alloc, book, who, &Put(b"B.s <- D"), 2 * round + 1)?
        {
            return Ok(false);
        }
    }
    Ok(true)
}

/// What is done with a book or asked of it, and what it is to answer the tenant.
enum Act {
    /// A change: its count where it is accepted, and else the number of its refusal.
    Change(Word<'static>, u64),
    /// 900 uploads in no order.
    Uploads,
    /// Each second one of them is withdrawn, in no order.
    Withdrawals,
    /// The one credential of the vault comes and goes, 500 times.
    ComeAndGo,
    /// The credentials of the vault, in order.
    Vault(&'static [&'static [u8]]),
    /// The names that the tenant reads, in order, and whether their vaults are public.
    Reads(&'static [(&'static [u8], bool)]),
    /// Whether the tenant reads the vault of this one.
    Readable(&'static [u8], bool),
    /// How many credentials the tenant holds, how many of its grants stand, and how many of its changes were accepted.
    Uses([u64; 3]),
    /// The number of all accepted changes.
    Entries(u64),
    /// The accepted changes, from the oldest on.
    ReadBack(&'static [(&'static [u8], Word<'static>)]),
    /// The vault has no version.
    NoVersion,
    /// A version of the vault is each second one of the 900.
    EvenVersion,
}

/// A tenant, and what concerns it.
type Line = (&'static [u8], Act);

/// Whether a version of the vault is each second one of the 900.
fn has_even_rows(alloc: Global, book: &mut Book, who: Entity) -> Result<bool, CredFault> {
    match book.version_of(who) {
        Ok(Some(version)) => are_even(alloc, &version.rows()),
        Ok(None) => Ok(false),
        Err(_) => Err(CredFault::Memory),
    }
}

/// Whether the vault has no version.
fn has_no_version(book: &mut Book, who: Entity) -> bool {
    matches!(book.version_of(who), Ok(None))
}

/// Whether these are the rows of the vault, in this order.
fn has_rows(
    alloc: Global,
    book: &mut Book,
    who: Entity,
    texts: &[&[u8]],
) -> Result<bool, CredFault> {
    match book.version_of(who) {
        Ok(Some(version)) => are_rows(alloc, &version.rows(), texts),
        Ok(None) => Ok(texts.is_empty()),
        Err(_) => Err(CredFault::Memory),
    }
}

/// Whether the book answers as it is to.
fn is_so(alloc: Global, book: &mut Book, who: Entity, act: &Act) -> Result<bool, CredFault> {
    match act {
        Act::Change(word, told) => answers(alloc, book, who, word, *told),
        Act::Uploads => accepts_uploads(alloc, book, who),
        Act::Withdrawals => accepts_withdrawals(alloc, book, who),
        Act::ComeAndGo => comes_and_goes(alloc, book, who),
        Act::Vault(texts) => has_rows(alloc, book, who, texts),
        Act::Reads(names) => reads(book, who, names),
        Act::Readable(owner, told) => Ok(book.readable(who, Entity::read(owner)?) == *told),
        Act::Uses(told) => {
            let used = book.used_by(&who);
            Ok([used.creds, used.grants, used.changes] == *told)
        }
        Act::Entries(count) => Ok(book.journal_len() == *count),
        Act::ReadBack(rows) => reads_back(alloc, book, rows),
        Act::NoVersion => Ok(has_no_version(book, who)),
        Act::EvenVersion => has_even_rows(alloc, book, who),
    }
}

fn all_so(alloc: Global, book: &mut Book, lines: &[Line]) -> Result<bool, CredFault> {
    for (who, act) in lines {
        if !is_so(alloc, book, Entity::read(who)?, act)? {
            return Ok(false);
        }
    }
    Ok(true)
}

/// Whether a book that has no entry yet answers each line as it is to.
fn all_so_anew(alloc: Global, lines: &[Line]) -> Result<bool, CredFault> {
    let mut book = Book::new(alloc);
    all_so(alloc, &mut book, lines)
}

/// The lines of each book, from the first on.
static BOOKS: [&[Line]; 8] = [
    // Each refusal, and what the book has come to.
    &[
        (b"A", Act::Change(Put(b"B.r <- D"), 31)),
        (b"A", Act::Change(Put(b"A.r <- D"), 1)),
        (b"A", Act::Change(Put(b"A.r <- D"), 32)),
        (b"A", Act::Change(Drop(b"B.r <- D"), 31)),
        (b"A", Act::Change(Drop(b"A.r <- E"), 33)),
        (b"A", Act::Change(Grant(b"A"), 36)),
        (b"A", Act::Change(Grant(b"B"), 2)),
        (b"A", Act::Change(Grant(b"B"), 34)),
        (b"A", Act::Change(Revoke(b"C"), 35)),
        (b"A", Act::Change(Revoke(b"A"), 35)),
        (b"A", Act::Change(Drop(b"A.r <- D"), 3)),
        (b"A", Act::Change(Drop(b"A.r <- D"), 33)),
        (b"A", Act::Change(Revoke(b"B"), 4)),
        (b"A", Act::Change(Revoke(b"B"), 35)),
        (b"A", Act::Vault(&[])),
        (b"A", Act::Entries(4)),
    ],
    // Changes of every kind, and the journal that they leave.
    &[
        (b"A", Act::ReadBack(&[])),
        (b"A", Act::Change(Put(b"A.r <- D"), 1)),
        (b"Bob", Act::Change(Put(b"Bob.r <- A.r"), 1)),
        (b"A", Act::Change(Grant(b"Bob"), 2)),
        (b"A", Act::Change(Put(b"B.r <- D"), 31)),
        (b"A", Act::Change(GrantAll, 3)),
        (b"A", Act::Change(Revoke(b"Bob"), 4)),
        (b"A", Act::Change(RevokeAll, 5)),
        (b"Bob", Act::Change(Drop(b"Bob.r <- A.r"), 2)),
        (
            b"A",
            Act::ReadBack(&[
                (b"A", Put(b"A.r <- D")),
                (b"Bob", Put(b"Bob.r <- A.r")),
                (b"A", Grant(b"Bob")),
                (b"A", GrantAll),
                (b"A", Revoke(b"Bob")),
                (b"A", RevokeAll),
                (b"Bob", Drop(b"Bob.r <- A.r")),
            ]),
        ),
    ],
    // Uploads out of order, into the vaults of two tenants.
    &[
        (b"A", Act::Change(Put(b"A.s <- D"), 1)),
        (b"A", Act::Change(Put(b"A.r- <- D"), 2)),
        (b"B", Act::Change(Put(b"B.s <- D"), 1)),
        (b"A", Act::Change(Put(b"A.r <- B.s"), 3)),
        (b"A", Act::Change(Put(b"A.r <- E"), 4)),
        (b"A", Act::Change(Put(b"A.q <- E"), 5)),
        (b"A", Act::Change(Drop(b"A.r- <- D"), 6)),
        (
            b"A",
            Act::Vault(&[b"A.q <- E", b"A.r <- E", b"A.r <- B.s", b"A.s <- D"]),
        ),
        (b"B", Act::Vault(&[b"B.s <- D"])),
        (b"C", Act::Vault(&[])),
    ],
    // 900 credentials come and go in no order, and what stays is in order.
    &[
        (b"A", Act::Uploads),
        (b"A", Act::Withdrawals),
        (b"A", Act::Change(Put(b"A.r <- E000"), 32)),
        (b"A", Act::Change(Put(b"A.r <- E450"), 32)),
        (b"A", Act::Change(Put(b"A.r <- E898"), 32)),
        (b"A", Act::Change(Drop(b"A.r <- E001"), 33)),
        (b"A", Act::Change(Drop(b"A.r <- E449"), 33)),
        (b"A", Act::Change(Drop(b"A.r <- E899"), 33)),
        (b"A", Act::Uses([450, 0, 1_350])),
        (b"A", Act::EvenVersion),
        (b"A", Act::Change(Put(b"A.r <- E451"), 1_351)),
        (b"A", Act::Change(Drop(b"A.r <- E451"), 1_352)),
        (b"A", Act::EvenVersion),
    ],
    // Grants, and who reads whom by them.
    &[
        (b"C", Act::Change(Grant(b"B"), 1)),
        (b"A", Act::Change(Grant(b"B"), 1)),
        (b"A", Act::Change(Grant(b"Z"), 2)),
        (b"B", Act::Readable(b"A", true)),
        (b"A", Act::Readable(b"B", false)),
        (b"A", Act::Readable(b"A", true)),
        (
            b"B",
            Act::Reads(&[(b"A", false), (b"B", false), (b"C", false)]),
        ),
        (b"Z", Act::Reads(&[(b"A", false), (b"Z", false)])),
        (b"A", Act::Uses([0, 2, 2])),
    ],
    // A grant that is revoked, beside one that stands.
    &[
        (b"A", Act::Change(Grant(b"B"), 1)),
        (b"C", Act::Change(Grant(b"B"), 1)),
        (b"A", Act::Change(Revoke(b"B"), 2)),
        (b"B", Act::Readable(b"A", false)),
        (b"B", Act::Reads(&[(b"B", false), (b"C", false)])),
        (b"A", Act::Uses([0, 0, 2])),
        (b"B", Act::Uses([0, 0, 0])),
    ],
    // A vault is public, to one reader too, and in the end to nobody.
    &[
        (b"B", Act::Change(Put(b"B.s <- D"), 1)),
        (b"B", Act::Change(GrantAll, 2)),
        (b"A", Act::Reads(&[(b"A", false), (b"B", true)])),
        (b"B", Act::Reads(&[(b"B", true)])),
        (b"C", Act::Reads(&[(b"B", true), (b"C", false)])),
        (b"B", Act::Change(GrantAll, 34)),
        (b"B", Act::Change(Revoke(b"A"), 35)),
        (b"B", Act::Change(Grant(b"A"), 3)),
        (b"B", Act::Uses([1, 2, 3])),
        (b"B", Act::Change(Revoke(b"A"), 4)),
        (b"A", Act::Reads(&[(b"A", false), (b"B", true)])),
        (b"B", Act::Change(RevokeAll, 5)),
        (b"A", Act::Reads(&[(b"A", false)])),
        (b"B", Act::Change(RevokeAll, 35)),
        (b"B", Act::Uses([1, 0, 5])),
    ],
    // Grants to one reader and to all, and the order in which vaults are seen by them.
    &[
        (b"F", Act::Change(GrantAll, 1)),
        (b"A", Act::Change(GrantAll, 1)),
        (b"D", Act::Change(GrantAll, 1)),
        (b"B", Act::Change(Grant(b"D"), 1)),
        (b"F", Act::Change(Grant(b"D"), 2)),
        (b"E", Act::Change(Grant(b"D"), 1)),
        (
            b"D",
            Act::Reads(&[
                (b"A", true),
                (b"B", false),
                (b"D", true),
                (b"E", false),
                (b"F", true),
            ]),
        ),
        (b"F", Act::Change(RevokeAll, 3)),
        (
            b"D",
            Act::Reads(&[
                (b"A", true),
                (b"B", false),
                (b"D", true),
                (b"E", false),
                (b"F", false),
            ]),
        ),
        (
            b"G",
            Act::Reads(&[(b"A", true), (b"D", true), (b"G", false)]),
        ),
    ],
];

/// A vault comes to its first row.
static FIRST_ROW: [Line; 2] = [
    (b"B", Act::NoVersion),
    (b"B", Act::Change(Put(b"B.s <- D"), 1)),
];

/// That row comes and goes, and is gone in the end.
static ROW_GONE: [Line; 3] = [
    (b"B", Act::ComeAndGo),
    (b"B", Act::Change(Drop(b"B.s <- D"), 1_002)),
    (b"B", Act::Vault(&[])),
];

/// Each fault with its number and its text.
static FAULTS: [(VaultFault, u64, &str); 7] = [
    (VaultFault::NotIssuer, 31, "not issuer"),
    (VaultFault::AlreadyHeld, 32, "already held"),
    (VaultFault::NotHeld, 33, "not held"),
    (VaultFault::AlreadyGranted, 34, "already granted"),
    (VaultFault::NotGranted, 35, "not granted"),
    (VaultFault::GrantSelf, 36, "grant self"),
    (VaultFault::Memory, 90, "memory"),
];

/// Whether each fault has its number and its text.
fn all_faults_so(alloc: Global) -> Result<bool, AllocError> {
    for (fault, number, text) in &FAULTS {
        if fault.number() != *number || !is_text(alloc, fault, text)? {
            return Ok(false);
        }
    }
    Ok(true)
}

#[test]
fn each_book_answers_its_lines_and_faults(rt: HostRuntime) -> Result<(), CredFault> {
    for lines in &BOOKS {
        assert!(rt; all_so_anew(rt.alloc(), lines)?);
    }
    assert!(rt; all_faults_so(rt.alloc())?);
    Ok(())
}

/// Whether a version of the vault of `B` stays while that vault is changed.
fn stays(alloc: Global, book: &mut Book, version: &Version) -> Result<bool, CredFault> {
    Ok(all_so(alloc, book, &ROW_GONE)? && are_rows(alloc, &version.rows(), &[b"B.s <- D"])?)
}

/// Whether a version of the vault of `B` with its first row stays while that vault is changed.
fn stays_from_its_first_row(alloc: Global, book: &mut Book) -> Result<bool, CredFault> {
    if !all_so(alloc, book, &FIRST_ROW)? {
        return Ok(false);
    }
    match book.version_of(Entity::read(b"B")?) {
        Ok(Some(version)) => stays(alloc, book, &version),
        Ok(None) => Ok(false),
        Err(_) => Err(CredFault::Memory),
    }
}

/// The same of a book that has no entry yet.
fn version_stays(alloc: Global) -> Result<bool, CredFault> {
    let mut book = Book::new(alloc);
    stays_from_its_first_row(alloc, &mut book)
}

#[test]
fn a_held_version_stays(rt: HostRuntime) -> Result<(), CredFault> {
    assert!(rt; version_stays(rt.alloc())?);
    Ok(())
}

/// Whether the credential of this text is entered, and read back.
fn is_kept(alloc: Global, book: &mut Book, text: &[u8]) -> Result<bool, CredFault> {
    let owner = [b'x'; 64];
    let is_entered = answers(alloc, book, Entity::read(&owner)?, &Put(text), 1)?;
    Ok(is_entered && reads_back(alloc, book, &[(&owner, Put(text))])?)
}

/// Whether the longest one is.
fn longest_is_kept(alloc: Global) -> Result<bool, CredFault> {
    let text = longest_text(alloc)?;
    let mut book = Book::new(alloc);
    Ok(text.len() == 1_706 && is_kept(alloc, &mut book, &text)?)
}

#[test]
fn the_longest_credential_is_read_back(rt: HostRuntime) -> Result<(), CredFault> {
    assert!(rt; longest_is_kept(rt.alloc())?);
    Ok(())
}
