use super::{ending, finished, is_member, opened};
use search::{Finished, Hint, Need, Search, Status};
use snapshots::Span;
use std::alloc::{AllocError, Global};
use std::test::Fail;

/// What is done with a search, and how it goes.
enum Act {
    /// The first waiting letter is taken: it has this number, and needs rows or nothing.
    Take(u64, bool),
    Finish(u64, Hint, Finished),
    /// The letter is put back, where it is held.
    PutBack(u64, bool),
    /// The oldest signal is delivered, where there is one.
    Signal(bool),
    /// The search is driven until nothing moves.
    Drive,
    /// So many letters wait, so many signals are under way, and the search has come to this.
    Look(u64, u64, Status),
}

/// Whether rows are needed.
fn needs_rows(need: &Need) -> bool {
    match need {
        Need::Rows(_) => true,
        Need::Nothing => false,
    }
}

/// The letter of that number is taken, for rows or for nothing.
fn takes(search: &mut Search, number: u64, rows: bool) -> Result<bool, AllocError> {
    match search.take(0)? {
        Some(task) => Ok(task.letter == number && needs_rows(&task.need) == rows),
        None => Ok(false),
    }
}

/// The search is driven until nothing moves.
fn drives(search: &mut Search) -> bool {
    search.drive();
    search.is_quiet()
}

/// So many letters wait, so many signals are under way, and the search has come to this.
fn looks(search: &Search, waiting: u64, signals: u64, status: Status) -> Result<bool, AllocError> {
    let works = status == Status::Working;
    let counts = [search.waiting(), search.signals()] == [waiting, signals];
    Ok(ending(search)? == status && counts && search.is_outstanding() == works)
}

/// Whether the act goes as it says.
fn goes(search: &mut Search, act: &Act) -> Result<bool, AllocError> {
    match act {
        Act::Take(number, rows) => takes(search, *number, *rows),
        Act::Finish(number, hint, outcome) => Ok(finished(search, *number, *hint)? == *outcome),
        Act::PutBack(number, held) => Ok(search.put_back(*number) == *held),
        Act::Signal(there) => Ok(search.signal(0) == *there),
        Act::Drive => Ok(drives(search)),
        Act::Look(waiting, signals, status) => looks(search, *waiting, *signals, *status),
    }
}

/// Whether each act goes as it says.
fn all_go(search: &mut Search, acts: &[Act]) -> Result<bool, AllocError> {
    for act in acts {
        if !goes(search, act)? {
            return Ok(false);
        }
    }
    Ok(true)
}

/// Whether each act goes as it says with a search that is just opened.
fn all_go_anew(alloc: Global, acts: &[Act]) -> Result<bool, Fail> {
    let mut search = opened(alloc, &[b"A.r <- D"], is_member()?, 3)?;
    Ok(all_go(&mut search, acts)?)
}

// The rows of `A.r`, and spans that are one off.
const RIGHT: Hint = Hint::Rows(Span {
    vault: 0,
    lo: 0,
    hi: 1,
});

const OTHER_VAULT: Hint = Hint::Rows(Span {
    vault: 1,
    lo: 0,
    hi: 1,
});

const LATE: Hint = Hint::Rows(Span {
    vault: 0,
    lo: 1,
    hi: 1,
});

const SHORT: Hint = Hint::Rows(Span {
    vault: 0,
    lo: 0,
    hi: 0,
});

const LONG: Hint = Hint::Rows(Span {
    vault: 0,
    lo: 0,
    hi: 2,
});

/// What is done with a search each time, from its opening on.
static SCRIPTS: [&[Act]; 3] = [
    // One member, found letter by letter; the last letter is put back once.
    &[
        Act::Look(1, 0, Status::Working),
        Act::Take(1, true),
        Act::Look(0, 0, Status::Working),
        Act::Finish(1, RIGHT, Finished::Done),
        Act::Take(2, false),
        Act::Finish(2, Hint::Nothing, Finished::Done),
        Act::Take(3, false),
        Act::PutBack(3, true),
        Act::PutBack(3, false),
        Act::Take(3, false),
        Act::Finish(3, Hint::Nothing, Finished::Done),
        Act::Look(0, 1, Status::Working),
        Act::Signal(true),
        Act::Signal(true),
        Act::Look(0, 1, Status::Working),
        Act::Signal(true),
        Act::Look(0, 0, Status::Yes),
        Act::Signal(false),
        Act::Look(0, 0, Status::Yes),
    ],
    // With a wrong hint a letter waits again; each number of the span is off by one in turn.
    &[
        Act::Take(1, true),
        Act::Finish(1, OTHER_VAULT, Finished::BadHint),
        Act::Finish(1, RIGHT, Finished::NotHeld),
        Act::Look(1, 0, Status::Working),
        Act::Take(1, true),
        Act::Finish(1, LATE, Finished::BadHint),
        Act::Take(1, true),
        Act::Finish(1, SHORT, Finished::BadHint),
        Act::Take(1, true),
        Act::Finish(1, LONG, Finished::BadHint),
        Act::Take(1, true),
        Act::Finish(1, Hint::Nothing, Finished::BadHint),
        Act::Take(1, true),
        Act::Finish(1, RIGHT, Finished::Done),
        Act::Take(2, false),
        Act::Finish(2, RIGHT, Finished::BadHint),
        Act::Drive,
        Act::Look(0, 0, Status::Yes),
    ],
    // A drive leaves a held letter, and goes on once it is finished or put back.
    &[
        Act::Take(1, true),
        Act::Drive,
        Act::Look(0, 0, Status::Working),
        Act::Finish(1, RIGHT, Finished::Done),
        Act::Take(2, false),
        Act::Drive,
        Act::Look(0, 0, Status::Working),
        Act::PutBack(2, true),
        Act::Drive,
        Act::Look(0, 0, Status::Yes),
    ],
];

#[test]
fn letter_by_letter(rt: HostRuntime) -> Result<(), Fail> {
    for acts in &SCRIPTS {
        assert!(rt; all_go_anew(rt.alloc(), acts)?);
    }
    Ok(())
}
