ghost use Rattle.std.specs.Prelude.{◌≡◌, map};
ghost use Rattle.service.specs.Roster.{names_of, tenant_of};

use super::*;
use crate::fakes::{Drips, NEVER, Refuses, Trickles, roster_of};
use pool::{Authority, Desk, NoGate, Unnamed, run_workers};
use std::alloc::AllocError;
use std::marker::Brand;
use std::thread;
use std::thread::Threads;

static ROSTER: &[u8] = b"tenant A a\ntenant B bb\nbegin\n";

/// A session of A at a desk of its own, and what comes of it.
#[derive(Drop)]
struct Case<'a> {
    said: &'a [u8],
    /// After how many bytes its reader fails.
    reads: u64,
    told: &'a [u8],
    /// How its writer refuses what comes behind that.
    refuses: Option<Refuses>,
    end: SessionEnd,
    /// How many changes are accepted.
    changes: u64,
    /// How many bytes are left unread.
    unread: usize,
}

/// One whose input ends without `quit`.
const UNENDED: Case<'static> = Case {
    said: b"",
    reads: NEVER,
    told: b"",
    refuses: None,
    end: SessionEnd::EndOfInput,
    changes: 0,
    unread: 0,
};

/// Whether so many changes were accepted, and no pass is still out.
fn has_accepted<L: Naming, R: Wait>(rt: &R, alloc: Global, desk: &Desk<L>, changes: u64) -> bool {
    match desk.gather(rt, Vec::new(alloc)) {
        Ok(gathered) => gathered.length == changes,
        Err(_) => false,
    }
}

/// Whether a session at a desk of this roster, without workers, ends so after so many changes.
fn ends_at<L: Naming, R: Wait>(
    rt: &R,
    alloc: Global,
    roster: &Roster,
    unnamed: Unnamed,
    case: &Case<'_>,
    reader: &mut Drips<'_>,
    writer: &mut Trickles<'_>,
) -> bool
    requires roster { map tenant_of roster.now ≡ L.roster }
    requires named { unnamed ≡ record { ledger = L.name; parts = L.parts; table = L.table; letters = L.letters; rights = L.rights } }
{
    let Ok((desk, authority)) = roster.desk::<L>(alloc, unnamed) else {
        return false;
    };
    let admission = authority.admission();
    let end = serve_session(rt, alloc, &desk, admission, roster, reader, writer);
    end == case.end && has_accepted(rt, alloc, &desk, case.changes)
}

/// Whether that comes of the session.
fn comes_of<R: Wait>(rt: &R, alloc: Global, case: &Case<'_>) -> bool {
    let mut reader = Drips {
        rest: case.said,
        before_fault: case.reads,
    };
    let mut writer = Trickles::new(case.told, case.refuses);
    let (Ok(roster), Ok(unnamed)) = (roster_of(alloc, ROSTER), Unnamed::make(alloc)) else {
        return false;
    };
    ends_at::<Brand, _>(rt, alloc, &roster, unnamed, case, &mut reader, &mut writer)
        && writer.is_content()
        && reader.rest.len() == case.unread
        && case.said.ends_with(reader.rest)
}

static CASES: [Case<'static>; 6] = [
    // From its hello to bye.
    Case {
        said: b"vault\nhello A x\nhello Z a\nhello A a\nput A.r <- D\nvault\nsees\nask A.r D\npoll 1\nend 7\n\
            look\nquit\nvault\nquit\n",
        told: b"error 61 no hello\nerror 62 bad hello\nerror 62 bad hello\nhello A\nok 1\n\
            vault 1\nA.r <- D\nsees A\nsearch 1\nworking\nerror 51 no such search\n\
            error 64 command\nbye\n",
        end: SessionEnd::Quit,
        changes: 1,
        unread: 11,
        ..UNENDED
    },
    // Without `quit`.
    UNENDED,
    Case {
        said: b"hello A a",
        told: b"hello A\n",
        ..UNENDED
    },
    Case {
        said: b"hello A a\r\nput A.r <- D",
        told: b"hello A\nok 1\n",
        changes: 1,
        ..UNENDED
    },
    Case {
        said: b"hello A a\nput A.r <-",
        told: b"hello A\nerror 23 empty body\n",
        ..UNENDED
    },
    Case {
        said: b"hello A a\nput A.",
        told: b"hello A\nerror 21 no arrow\n",
        ..UNENDED
    },
];

#[test]
fn sessions_from_hello_to_their_end(rt: HostRuntime) {
    for case in &CASES {
        assert!(rt; comes_of(&rt, rt.alloc(), case));
    }
}

/// What a peer says and is told.
type Talk = (&'static [u8], &'static [u8]);

const NO_HELLO: &[u8] = b"error 61 no hello\n";

const BAD_HELLO: &[u8] = b"error 62 bad hello\n";

const NO_COMMAND: &[u8] = b"error 64 command\n";

/// What one line is answered before a hello, which is taken after it.
static BEFORE_A_HELLO: [(&[u8], &[u8]); 24] = [
    (b"", b""),
    (b"   ", b""),
    (b"put A.r <- D", NO_HELLO),
    (b"put A.r", NO_HELLO),
    (b"sees", NO_HELLO),
    (b"wait 1", NO_HELLO),
    (b"look", NO_HELLO),
    (b"A: sees", NO_HELLO),
    (b"quit now", NO_HELLO),
    (b"Hello A a", NO_HELLO),
    (b"tenant A a", NO_HELLO),
    (b"hello", NO_COMMAND),
    (b"hello A", NO_COMMAND),
    (b"hello A a a", NO_COMMAND),
    (b"hello Z a", BAD_HELLO),
    (b"hello A b", BAD_HELLO),
    (b"hello A aa", BAD_HELLO),
    (b"hello A bb", BAD_HELLO),
    (b"hello B b", BAD_HELLO),
    (b"hello B bbb", BAD_HELLO),
    (b"hello B bc", BAD_HELLO),
    (b"hello a a", BAD_HELLO),
    (b"hello A. a", BAD_HELLO),
    (b"hello \t a", b"error 66 not ascii\n"),
];

/// What one line is answered after a hello of A, who stays the one that speaks.
static AFTER_A_HELLO: [(&[u8], &[u8]); 11] = [
    (b" ", b""),
    (b"hello A a", NO_COMMAND),
    (b"hello B bb", NO_COMMAND),
    (b"hello B b", NO_COMMAND),
    (b"hello B", NO_COMMAND),
    (b"quit now", NO_COMMAND),
    (b"A: sees", NO_COMMAND),
    (b"put B.r <- D", b"error 31 not issuer\n"),
    (b"grant **", b"error 12 name start\n"),
    (b"revoke *", b"error 35 not granted\n"),
    (b"\x7f", b"error 66 not ascii\n"),
];

/// What a peer says and is told before a line, and behind it.
struct Place {
    before: Talk,
    behind: Talk,
}

/// Before a hello, which is taken after the line.
static FIRST: Place = Place {
    before: (b"", b""),
    behind: (b"\nhello A a\nsees\n", b"hello A\nsees A\n"),
};

/// With no hello at all.
static ALONE: Place = Place {
    before: (b"", b""),
    behind: (b"\nlook", NO_HELLO),
};

/// After a hello of A, who stays the one that speaks.
static LATER: Place = Place {
    before: (b"hello A a\n", b"hello A\n"),
    behind: (b"\nsees", b"sees A\n"),
};

/// The text between those two.
fn joined(alloc: Global, front: &[u8], middle: &[u8], back: &[u8]) -> Result<Vec<u8>, AllocError> {
    let mut all = Vec::from_slice(alloc, front)?;
    all.extend_from_slice(middle)?;
    all.extend_from_slice(back)?;
    Ok(all)
}

/// Whether the line is told this at this place.
fn is_told<R: Wait>(
    rt: &R,
    alloc: Global,
    place: &Place,
    line: &[u8],
    told: &[u8],
) -> Result<bool, AllocError> {
    let said = joined(alloc, place.before.0, line, place.behind.0)?;
    let told = joined(alloc, place.before.1, told, place.behind.1)?;
    let case = Case {
        said: &said,
        told: &told,
        ..UNENDED
    };
    Ok(comes_of(rt, alloc, &case))
}

/// Whether so many of this byte, of which the one at 2000 is changed to the other, are told to be too long a line, before a
/// hello and after it.
fn is_too_long<R: Wait>(
    rt: &R,
    alloc: Global,
    byte: u8,
    count: usize,
    other: u8,
) -> Result<bool, AllocError> {
    let told: &[u8] = b"error 65 line too long\n";
    let mut line = vec![in alloc; byte; count]?;
    if let Some(changed) = line.get_mut(2000) {
        *changed = other;
    }
    Ok(is_told(rt, alloc, &ALONE, &line, told)? && is_told(rt, alloc, &LATER, &line, told)?)
}

// Each line that is too long has more bytes than there is room for, the second also one outside 32 to 126.
#[test]
fn lines_before_and_after_a_hello(rt: HostRuntime) {
    for (line, told) in &BEFORE_A_HELLO {
        assert!(rt; is_told(&rt, rt.alloc(), &FIRST, *line, *told) == Ok(true));
    }
    for (line, told) in &AFTER_A_HELLO {
        assert!(rt; is_told(&rt, rt.alloc(), &LATER, *line, *told) == Ok(true));
    }
    assert!(rt; is_too_long(&rt, rt.alloc(), b' ', 4097, b' ') == Ok(true));
    assert!(rt; is_too_long(&rt, rt.alloc(), b'x', 5000, 200) == Ok(true));
}

const SAID: &[u8] = b"hello A a\nput A.r <- D\nsees\nquit\nvault\n";

const TOLD: &[u8] = b"hello A\nok 1\nsees A\nbye\n";

/// Whether a session ends as it should whose reader fails after so many bytes.
fn ends_at_a_read<R: Wait>(rt: &R, alloc: Global, read: usize) -> bool {
    let (told, changes): (&[u8], u64) = match read {
        0..10 => (b"", 0),
        10..23 => (b"hello A\n", 0),
        23..28 => (b"hello A\nok 1\n", 1),
        _ => (b"hello A\nok 1\nsees A\n", 1),
    };
    let case = Case {
        said: SAID,
        reads: read as u64,
        told,
        end: SessionEnd::Read,
        changes,
        unread: SAID.len().saturating_sub(read),
        ..UNENDED
    };
    comes_of(rt, alloc, &case)
}

/// Whether a session ends as it should whose writer refuses what is behind this front of `TOLD`. What is behind the line whose
/// reply wasn't taken is left unread.
fn ends_at_a_write<R: Wait>(rt: &R, alloc: Global, told: &[u8], refuses: Refuses) -> bool {
    let (unread, changes) = match told.len() {
        0..8 => (29, 0),
        8..13 => (16, 1),
        13..20 => (11, 1),
        _ => (6, 1),
    };
    let case = Case {
        said: SAID,
        told,
        refuses: Some(refuses),
        end: SessionEnd::Write,
        changes,
        unread,
        ..UNENDED
    };
    comes_of(rt, alloc, &case)
}

// The line `quit` ends at byte 33, and nothing is read behind it.
#[test]
fn readers_and_writers_that_fail(rt: HostRuntime) {
    for read in 0..33usize {
        assert!(rt; ends_at_a_read(&rt, rt.alloc(), read));
    }
    for written in 0..TOLD.len() {
        let told = &TOLD[..written];
        assert!(rt; ends_at_a_write(&rt, rt.alloc(), told, Refuses::WithAnError));
        assert!(rt; ends_at_a_write(&rt, rt.alloc(), told, Refuses::ByTakingNothing));
    }
}

/// While workers run: B's session, and those of A, whose first one ends without `quit`.
static BESIDE_WORKERS: [Talk; 3] = [
    (
        b"hello B bb\nput B.t <- D\ngrant A\nsees\nquit\n",
        b"hello B\nok 1\nok 2\nsees B\nbye\n",
    ),
    (
        b"hello A a\nput A.s <- B\nput A.r <- A.s.t\nsees\nwho A.r\nwait 1\nproof 1 D\nproof 1 E",
        b"hello A\nok 1\nok 2\nsees A B\nsearch 1\nmembers D\n\
            proof 6\n1 B in B by itself\n2 B in A.s by A.s <- B from 1\n3 D in D by itself\n\
            4 D in B.t by B.t <- D from 3\n5 D in A.s.t by link from 2 4\n\
            6 D in A.r by A.r <- A.s.t from 5\nerror 53 no proof\n",
    ),
    (
        b"hello A a\npoll 1\nask A.r D\nwait 2\nask A.r E\nwait 3\npoll 3\nend 1\nend 2\nwait 2\n\
            revoke B\ndrop A.s <- B\nvault\nquit\n",
        b"hello A\nmembers D\nsearch 2\nyes\nsearch 3\nno\nno\nended\nended\n\
            error 51 no such search\nerror 35 not granted\nok 3\nvault 1\nA.r <- A.s.t\nbye\n",
    ),
];

/// After the stop. What searches were told stays, and nobody goes on with a new one.
static AFTER_THE_STOP: [Talk; 2] = [
    (
        b"hello A a\nwait 3\nask A.r D\nwait 4\npoll 4\nproof 4 D\nend 4\nquit\n",
        b"hello A\nno\nsearch 4\nworking\nworking\nerror 52 not done\nended\nbye\n",
    ),
    (
        b"hello B bb\nput B.t <- E\nvault\npoll 1\nquit\n",
        b"hello B\nok 3\nvault 2\nB.t <- D\nB.t <- E\nerror 51 no such search\nbye\n",
    ),
];

/// Whether these sessions, one after the other, are told what they should be.
fn are_told<L: Naming, R: Wait>(
    rt: &R,
    alloc: Global,
    desk: &Desk<L>,
    authority: &Authority<L>,
    roster: &Roster,
    talks: &[Talk],
) -> bool
    requires { desk.now ≡ names_of roster.now }
{
    for (said, told) in talks {
        let mut writer = Trickles::new(*told, None);
        serve_session(
            rt,
            alloc,
            desk,
            authority.admission(),
            roster,
            *said,
            &mut writer,
        );
        if !writer.is_content() {
            return false;
        }
    }
    true
}

/// Whether the sessions at this desk are told what they should be, beside workers and after these are stopped.
fn are_all_told<L: Naming + Send + Sync, R: Threads + Wait + Sync>(
    rt: &R,
    alloc: Global,
    desk: &Desk<L>,
    authority: &Authority<L>,
    roster: &Roster,
) -> bool
    requires { desk.now ≡ names_of roster.now }
{
    let (worked, beside) = thread::join(
        rt,
        || {
            let worked = run_workers(rt, desk, authority, 2, &NoGate);
            desk.stop(rt, authority);
            worked.is_ok()
        },
        || {
            let beside = are_told(rt, alloc, desk, authority, roster, &BESIDE_WORKERS);
            desk.stop(rt, authority);
            beside
        },
    );
    worked
        && beside
        && are_told(rt, alloc, desk, authority, roster, &AFTER_THE_STOP)
        && has_accepted(rt, alloc, desk, 6)
}

/// Whether the sessions at a desk of this roster are told what they should be.
fn are_told_at<L: Naming + Send + Sync, R: Threads + Wait + Sync>(
    rt: &R,
    alloc: Global,
    roster: &Roster,
    unnamed: Unnamed,
) -> bool
    requires roster { map tenant_of roster.now ≡ L.roster }
    requires named { unnamed ≡ record { ledger = L.name; parts = L.parts; table = L.table; letters = L.letters; rights = L.rights } }
{
    let Ok((desk, authority)) = roster.desk::<L>(alloc, unnamed) else {
        return false;
    };
    are_all_told(rt, alloc, &desk, &authority, roster)
}

#[test]
fn sessions_beside_workers_and_after_the_stop(rt: HostRuntime) {
    let alloc = rt.alloc();
    let (Ok(roster), Ok(unnamed)) = (roster_of(alloc, ROSTER), Unnamed::make(alloc)) else {
        assert!(rt; false);
        return;
    };
    assert!(rt; are_told_at::<Brand, _>(&rt, alloc, &roster, unnamed));
}
