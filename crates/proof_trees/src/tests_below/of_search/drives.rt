use super::{Order, WAYS, come_to, is_member, opened};
use search::Status;
use std::alloc::Global;
use std::test::Fail;

/// What a search for `D` in `A.r` over these comes to, carried on this way.
fn ended(
    alloc: Global,
    texts: &[&[u8]],
    work: u64,
    way: Option<(Order, bool)>,
) -> Result<Status, Fail> {
    let mut search = opened(alloc, texts, is_member()?, work)?;
    Ok(come_to(&mut search, way)?)
}

/// Whether the search comes to this, whichever way it is carried on.
fn ends_so(alloc: Global, texts: &[&[u8]], work: u64, status: Status) -> Result<bool, Fail> {
    for way in &WAYS {
        if ended(alloc, texts, work, *way)? != status {
            return Ok(false);
        }
    }
    Ok(true)
}

/// Whether the search comes to this by this work, and by less is spent.
fn takes_work(alloc: Global, texts: &[&[u8]], work: u64, status: Status) -> Result<bool, Fail> {
    if work > 1 && !ends_so(alloc, texts, work - 1, Status::Spent)? {
        return Ok(false);
    }
    ends_so(alloc, texts, work, status)
}

/// Credentials, the work of a search for `D` in `A.r` over them, and what it comes to.
static SEARCHES: [(&[&[u8]], u64, Status); 7] = [
    (&[b"A.r <- D"], 3, Status::Yes),
    (&[], 1, Status::No),
    (&[b"A.r <- B.s", b"B.s <- A.r"], 3, Status::No),
    (&[b"A.r <- A.r", b"A.r <- D"], 5, Status::Yes),
    (
        &[b"A.r <- A", b"A.r <- D", b"A.r <- A.r.r"],
        15,
        Status::Yes,
    ),
    (&[b"A.r <- B.s & B.s", b"B.s <- D"], 9, Status::Yes),
    (
        &[b"A.s <- B", b"A.r <- A.s.t", b"B.t <- D"],
        11,
        Status::Yes,
    ),
];

#[test]
fn table_of_searches(rt: HostRuntime) -> Result<(), Fail> {
    for (texts, work, status) in &SEARCHES {
        assert!(rt; takes_work(rt.alloc(), texts, *work, *status)?);
    }
    Ok(())
}
