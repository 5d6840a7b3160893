//! Whole searches: stepped in three orders, driven, letter by letter, and compared with the plain programs.
mod drives;
mod letters;
mod numbers;
mod plain;
mod refusals;

use credential_text::{CredFault, Credential, read_credential};
use names::{Entity, Role};
use search::{Finished, Hint, Need, Query, Search, Status};
use snapshots::Snapshot;
use std::alloc::{AllocError, Global};
use std::sync::Arc;
use std::test::Fail;
use vaults::{Book, Change, VaultFault};

#[derive(Clone, Copy)]
enum Order {
    First,
    Last,
    InTurn,
}

/// Each order of letters, with signals before them and after them; and none, where the search is driven.
static WAYS: [Option<(Order, bool)>; 7] = [
    Some((Order::First, true)),
    Some((Order::First, false)),
    Some((Order::Last, true)),
    Some((Order::Last, false)),
    Some((Order::InTurn, true)),
    Some((Order::InTurn, false)),
    None,
];

// The place of the letter that is taken next.
fn next_place(order: Order, waiting: u64, turn: u64) -> u64 {
    let last = waiting.saturating_sub(1);
    match order {
        Order::First => 0,
        Order::Last => last,
        Order::InTurn => { if turn % 2 == 0 { 0 } else { last } }
    }
}

fn look_up(search: &Search, need: Need) -> Hint {
    match need {
        Need::Rows(role) => Hint::Rows(search.snapshot().find(&role)),
        Need::Nothing => Hint::Nothing,
    }
}

// A step of the search, and whether there was one to make; signals go before letters, or after all letters.
fn step(search: &mut Search, order: Order, signals_first: bool, turn: u64) -> bool {
    if signals_first && search.signal(0) {
        return true;
    }
    let place = next_place(order, search.waiting(), turn);
    let Some((letter, need)) = search.take_letter(place) else {
        return search.signal(0);
    };
    let hint = look_up(search, need);
    let _finished = search.finish(letter, hint);
    true
}

// Steps the search until nothing is left to do.
fn run(search: &mut Search, order: Order, signals_first: bool) {
    for turn in 0..10000 {
        if !step(search, order, signals_first, turn) {
            return;
        }
    }
}

// What the search has come to; where it is broken, want of memory.
pub(super) fn ending(search: &Search) -> Result<Status, AllocError> {
    match search.status() {
        Status::Broken => Err(AllocError),
        status => Ok(status),
    }
}

// Carries the search on this way until nothing is left to do. What it has come to.
fn come_to(search: &mut Search, way: Option<(Order, bool)>) -> Result<Status, AllocError> {
    match way {
        Some((order, signals_first)) => run(search, order, signals_first),
        None => search.drive(),
    }
    ending(search)
}

// How the finish went; where it broke the search, want of memory.
fn finished(search: &mut Search, letter: u64, hint: Hint) -> Result<Finished, AllocError> {
    match search.finish(letter, hint) {
        Finished::Broken => Err(AllocError),
        finished => Ok(finished),
    }
}

// Whether the search has found these members, where it was asked for them and is completed.
fn has_members(search: &Search, expected: &[Entity]) -> Result<bool, AllocError> {
    match search.status() {
        Status::Members => Ok(search.members()?.as_slice() == expected),
        _ => Ok(true),
    }
}

/// The credentials that the texts spell.
pub(super) fn credentials(alloc: Global, texts: &[&[u8]]) -> Result<Vec<Credential>, CredFault> {
    let mut all = Vec::new(alloc);
    for text in texts {
        all.push(read_credential(alloc, text)?)
            .map_err(AllocError::from)?;
    }
    Ok(all)
}

static OTHERS: [&[u8]; 3] = [b"B", b"C", b"D"];

// Puts the credentials into the vaults of their issuers.
fn upload(book: &mut Book, credentials: &[Credential]) -> Result<(), Fail> {
    for credential in credentials {
        let upload = Change::Upload(credential.try_clone()?);
        book.change(credential.head.owner, upload)?;
    }
    Ok(())
}

// Grants the vaults of the three others to `A`, and those of all who hold one of the credentials.
fn grant(book: &mut Book, credentials: &[Credential]) -> Result<(), Fail> {
    let a = Entity::read(b"A")?;
    for owner in &OTHERS {
        book.change(Entity::read(owner)?, Change::Grant(a))?;
    }
    for credential in credentials {
        let owner = credential.head.owner;
        if !book.readable(a, owner) {
            book.change(owner, Change::Grant(a))?;
        }
    }
    Ok(())
}

// What the tenant reads.
fn seen_by(alloc: Global, book: &mut Book, who: Entity) -> Result<Arc<Snapshot>, VaultFault> {
    let snapshot = Snapshot::take(alloc, book, who)?;
    match Arc::new(alloc, snapshot) {
        Ok(snapshot) => Ok(snapshot),
        Err(_refused) => Err(VaultFault::Memory),
    }
}

// What `A` reads.
pub(super) fn seen(alloc: Global, book: &mut Book) -> Result<Arc<Snapshot>, Fail> {
    let a = Entity::read(b"A")?;
    Ok(seen_by(alloc, book, a)?)
}

// What `A` reads, where each holds its credentials and has granted them to `A`, and so have `B`, `C` and `D`.
fn snapshot_over(alloc: Global, credentials: &[Credential]) -> Result<Arc<Snapshot>, Fail> {
    let mut book = Book::new(alloc);
    upload(&mut book, credentials)?;
    grant(&mut book, credentials)?;
    seen(alloc, &mut book)
}

fn snapshot_of(alloc: Global, texts: &[&[u8]]) -> Result<Arc<Snapshot>, Fail> {
    let all = credentials(alloc, texts)?;
    snapshot_over(alloc, &all)
}

pub(super) fn opened(
    alloc: Global,
    texts: &[&[u8]],
    query: Query,
    work: u64,
) -> Result<Search, Fail> {
    let snapshot = snapshot_of(alloc, texts)?;
    Ok(Search::open(alloc, snapshot, query, work.max(1))?)
}

// A search over a snapshot that others may search too.
pub(super) fn opened_over(
    alloc: Global,
    snapshot: &Arc<Snapshot>,
    query: Query,
    work: u64,
) -> Result<Search, AllocError> {
    Search::open(alloc, snapshot.clone()?, query, work.max(1))
}

// Whether `D` is in `A.r`.
fn is_member() -> Result<Query, Fail> {
    Ok(Query::Ask(Role::read(b"A.r")?, Entity::read(b"D")?))
}
