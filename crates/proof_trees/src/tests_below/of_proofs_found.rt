//! Proofs of what whole searches found.
use super::of_proof_trees::{Wanted, is_wanted};
use super::of_search::{ending, opened, opened_over, seen};
use crate::{Proof, ProofFault, check_proof, proof_of};
use credential_text::{Credential, read_credential};
use names::{Entity, Role};
use search::{Query, Search, Status};
use std::alloc::{AllocError, Global};
use std::test::Fail;
use vaults::{Book, Change, Rows};

const WORK: u64 = 1000000;

// Drives the search to its end, and proves that the entity is a member. Where the search is broken then, want of memory.
fn proof_at_end(alloc: Global, search: &mut Search, who: &Entity) -> Result<Proof, Fail> {
    search.drive();
    let _ended = ending(search)?;
    Ok(proof_of(alloc, search, who)?)
}

// Whether the search proves no member before its end, and then D as its member and not E.
fn proves_at_its_end(alloc: Global, search: &mut Search) -> Result<bool, Fail> {
    let (member, other) = (Entity::read(b"D")?, Entity::read(b"E")?);
    let early = proof_of(alloc, search, &member).err();
    let _proof = proof_at_end(alloc, search, &member)?;
    Ok(
        early == Some(ProofFault::NotDone)
            && search.status() == Status::Members
            && proof_of(alloc, search, &other).err() == Some(ProofFault::NoProof),
    )
}

#[test]
fn no_proof_before_the_end_and_none_of_others(rt: HostRuntime) -> Result<(), Fail> {
    let query = Query::Who(Role::read(b"A.r")?);
    let mut search = opened(rt.alloc(), &[b"A.r <- D"], query, WORK)?;
    assert!(rt; proves_at_its_end(rt.alloc(), &mut search)?);
    Ok(())
}

/// A role of who is in eight linked roles, each with its base and one more link.
const EIGHT_LINKED: &[&[u8]] = &[
    b"A.r <- A.a.h & A.b.g & A.c.f & A.d.e & A.e.d & A.f.c & A.g.b & A.h.a",
    b"A.a <- I",
    b"A.b <- J",
    b"A.c <- K",
    b"A.d <- L",
    b"A.e <- M",
    b"A.f <- N",
    b"A.g <- O",
    b"A.h <- P",
    b"I.h <- D",
    b"J.g <- D",
    b"K.f <- D",
    b"L.e <- D",
    b"M.d <- D",
    b"N.c <- D",
    b"O.b <- D",
    b"P.a <- D",
];

const OVER_ITS_OWN_HEAD: &[&[u8]] = &[b"A.r <- A", b"A.r <- D", b"A.r <- A.r.r"];

/// Credentials, who is in A.r by them, and what is wanted of the proof. Premises come from left to right, each once.
static FOUND: [(&[&[u8]], &[u8], Wanted); 9] = [
    (
        &[b"A.r <- D"],
        b"D",
        Wanted::Lines(
            b"a proof:\n\
              1 D in D by itself\n\
              2 D in A.r by A.r <- D from 1\n",
        ),
    ),
    (
        &[b"A.s <- B", b"A.r <- A.s.t", b"B.t <- D"],
        b"D",
        Wanted::Lines(
            b"a proof:\n\
              1 B in B by itself\n\
              2 B in A.s by A.s <- B from 1\n\
              3 D in D by itself\n\
              4 D in B.t by B.t <- D from 3\n\
              5 D in A.s.t by link from 2 4\n\
              6 D in A.r by A.r <- A.s.t from 5\n",
        ),
    ),
    (
        &[
            b"A.r <- C.t & B.s & D & B.s",
            b"B.s <- D",
            b"C.t <- C.u & B.s",
            b"C.u <- D",
        ],
        b"D",
        Wanted::Lines(
            b"a proof:\n\
              1 D in D by itself\n\
              2 D in C.u by C.u <- D from 1\n\
              3 D in B.s by B.s <- D from 1\n\
              4 D in C.u & B.s by parts from 2 3\n\
              5 D in C.t by C.t <- C.u & B.s from 4\n\
              6 D in C.t & B.s & D & B.s by parts from 5 3 1 3\n\
              7 D in A.r by A.r <- C.t & B.s & D & B.s from 6\n",
        ),
    ),
    (OVER_ITS_OWN_HEAD, b"A", Wanted::By(OVER_ITS_OWN_HEAD, true)),
    (
        OVER_ITS_OWN_HEAD,
        b"A",
        Wanted::By(&[b"A.r <- A", b"A.r <- A.r.r"], true),
    ),
    (OVER_ITS_OWN_HEAD, b"D", Wanted::By(OVER_ITS_OWN_HEAD, true)),
    (
        OVER_ITS_OWN_HEAD,
        b"D",
        Wanted::By(&[b"A.r <- A", b"A.r <- A.r.r"], false),
    ),
    (EIGHT_LINKED, b"D", Wanted::By(EIGHT_LINKED, true)),
    // For each part: its member in itself and in the base, D in the member's role and in the part.
    (EIGHT_LINKED, b"D", Wanted::Steps(1 + 8 * 4 + 2)),
];

// Whether what a whole search finds of the entity is as is wanted.
fn finds(alloc: Global, texts: &[&[u8]], name: &[u8], wanted: &Wanted) -> Result<bool, Fail> {
    let who = Entity::read(name)?;
    let mut search = opened(alloc, texts, Query::Who(Role::read(b"A.r")?), WORK)?;
    let proof = proof_at_end(alloc, &mut search, &who)?;
    Ok(is_wanted(alloc, &proof, &who, wanted)?)
}

#[test]
fn proofs_of_members(rt: HostRuntime) -> Result<(), Fail> {
    for (texts, name, wanted) in &FOUND {
        assert!(rt; finds(rt.alloc(), texts, name, wanted)?);
    }
    Ok(())
}

fn upload(alloc: Global, book: &mut Book, text: &[u8]) -> Result<(), Fail> {
    let Credential { head, body } = read_credential(alloc, text)?;
    let owner = head.owner;
    book.change(owner, Change::Upload(Credential { head, body }))?;
    Ok(())
}

fn link_all(alloc: Global, book: &mut Book) -> Result<(), Fail> {
    for number in 0..10000 {
        let text = format!(in alloc; "A.r{:05} <- A.r{:05}", number, number + 1)?;
        upload(alloc, book, text.as_bytes())?;
    }
    upload(alloc, book, b"A.r10000 <- D")
}

/// Appends copies of the credentials.
fn copy_rows(rows: &Rows<'_>, copy: &mut Vec<Credential>) -> Result<(), AllocError> {
    for place in 0..rows.len() {
        copy.push(rows.row(place).to_credential()?)?;
    }
    Ok(())
}

/// Appends copies of the credentials that the tenant issues and holds, in order.
fn copy_vault(book: &mut Book, who: Entity, copy: &mut Vec<Credential>) -> Result<(), Fail> {
    if let Some(version) = book.version_of(who)? {
        copy_rows(&version.rows(), copy)?;
    }
    Ok(())
}

/// A copy of the credentials that the tenant issues and holds, in order.
fn vault_of(alloc: Global, book: &mut Book, who: Entity) -> Result<Vec<Credential>, Fail> {
    let mut copy = Vec::new(alloc);
    copy_vault(book, who, &mut copy)?;
    Ok(copy)
}

fn proves_the_whole_chain(alloc: Global, book: &mut Book) -> Result<bool, Fail> {
    let role = Role::read(b"A.r00000")?;
    let who = Entity::read(b"D")?;
    let view = vault_of(alloc, book, role.owner)?;
    let mut search = opened_over(alloc, &seen(alloc, book)?, Query::Who(role), WORK)?;
    let proof = proof_at_end(alloc, &mut search, &who)?;
    Ok(proof.steps().len() == 10002 && check_proof(&view, &role, &who, &proof))
}

fn chain_is_proved(alloc: Global) -> Result<bool, Fail> {
    let mut book = Book::new(alloc);
    link_all(alloc, &mut book)?;
    proves_the_whole_chain(alloc, &mut book)
}

#[test]
fn a_chain_of_inclusions(rt: HostRuntime) -> Result<(), Fail> {
    assert!(rt; chain_is_proved(rt.alloc())?);
    Ok(())
}
