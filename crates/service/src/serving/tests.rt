ghost use Rattle.std.specs.Prelude.{◌≤◌};

use super::*;
use crate::fakes::{Refuses, Trickles, roster_of};
use std::io::{self, Read};
use std::net::{Net, TcpStream};
use std::time::Duration;

static ROSTER: &[u8] = b"tenant A a\nbegin\n";

/// What happens while a service answers.
#[derive(Clone, Copy)]
enum Meanwhile {
    /// And the listener waits for nobody.
    NobodyComes,
    OneComesAndCloses,
    /// One says what stands in `WORKED`.
    OneSaysAll,
    /// One is greeted, and then the listener no longer waits for others.
    TheListenerFails,
    /// One says nothing, and one stops within its second line.
    TwoFallSilent,
}

/// A service, and what comes of it.
#[derive(Drop)]
struct Case<'a> {
    options: ServeOptions,
    meanwhile: Meanwhile,
    end: Result<u64, ServeFault>,
    /// What is written behind the line that tells where it listens.
    then: &'a str,
    /// How many bytes of all that are taken at most.
    most: usize,
    /// How the writer refuses what comes behind them.
    refuses: Option<Refuses>,
}

/// One that its only peer leaves.
const LEFT: Case<'static> = Case {
    options: ServeOptions {
        workers: 2,
        sessions: 1,
        accept: Some(1),
        idle_seconds: None,
    },
    meanwhile: Meanwhile::OneComesAndCloses,
    end: Ok(1),
    then: "served 1\n",
    most: usize::MAX,
    refuses: None,
};

static CASES: [Case<'static>; 4] = [
    Case {
        meanwhile: Meanwhile::OneSaysAll,
        ..LEFT
    },
    // Nobody has come when it is to accept, and it may not wait.
    Case {
        meanwhile: Meanwhile::NobodyComes,
        end: Err(ServeFault::Socket),
        then: "",
        ..LEFT
    },
    Case {
        options: ServeOptions {
            workers: 2,
            sessions: 8,
            accept: Some(1_000_000),
            idle_seconds: None,
        },
        meanwhile: Meanwhile::TheListenerFails,
        end: Err(ServeFault::Socket),
        then: "",
        ..LEFT
    },
    Case {
        options: ServeOptions {
            workers: 1,
            sessions: 2,
            accept: Some(2),
            idle_seconds: Some(1),
        },
        meanwhile: Meanwhile::TwoFallSilent,
        end: Ok(2),
        then: "served 2\n",
        ..LEFT
    },
];

/// What a peer says, and what it is told.
static WORKED: [(&[u8], &[u8]); 10] = [
    (b"vault\n", b"error 61 no hello\n"),
    (b"hello A x\n", b"error 62 bad hello\n"),
    (b"hello Z a\n", b"error 62 bad hello\n"),
    (b"hello A a\n", b"hello A\n"),
    (b"put A.r <- D\n", b"ok 1\n"),
    (b"vault\n", b"vault 1\nA.r <- D\n"),
    (b"sees\n", b"sees A\n"),
    (b"end 7\n", b"error 51 no such search\n"),
    (b"look\n", b"error 64 command\n"),
    (b"quit\n", b"bye\n"),
];

/// Whether a peer that says this is told that next. It reads no further than to the first byte that is another.
fn is_answered(mut stream: &TcpStream, said: &[u8], told: &[u8]) -> bool {
    if stream.write_all(said).is_err() {
        return false;
    }
    let mut byte = [0];
    for wanted in told {
        if stream.read_exact(&mut byte).is_err() || byte[0] != *wanted {
            return false;
        }
    }
    true
}

/// Whether the session of this peer is over, and nothing more was told.
fn is_over(mut stream: &TcpStream) -> bool {
    matches!(stream.read(&mut [0]), Ok(0))
}

/// Whether a peer is told what it should be, and then no more.
fn is_told_all(stream: &TcpStream) -> bool {
    for (said, told) in &WORKED {
        if !is_answered(stream, *said, *told) {
            return false;
        }
    }
    is_over(stream)
}

/// Whether peers are refused once the listener no longer waits for them, while the session of this one is open, and that
/// session ends at its next line: nothing more is told. Where it didn't read that line the connection is reset.
fn are_refused<R: Net<Stream = TcpStream> + Clock>(
    rt: &R,
    port: u16,
    mut first: &TcpStream,
    lent: TcpListener,
) -> bool {
    let is_greeted = is_answered(first, b"hello A a\n", b"hello A\n");
    let is_woken = lent.set_nonblocking(true).is_ok();
    drop(lent);
    let mut is_refused = false;
    for _ in 0..1000u64 {
        if TcpStream::connect(rt, ("127.0.0.1", port)).is_err() {
            is_refused = true;
            break;
        }
        thread::sleep(rt, Duration::from_millis(1));
    }
    let _ = first.write_all(b"vault\n");
    is_greeted && is_woken && is_refused && !matches!(first.read(&mut [0]), Ok(1..))
}

/// Whether nothing more is told to these peers, of whom the second stops within its second line.
fn are_over(first: &TcpStream, mut second: &TcpStream) -> bool {
    is_answered(second, b"hello A a\n", b"hello A\n")
        && second.write_all(b"vau").is_ok()
        && is_over(second)
        && is_over(first)
}

/// Whether all goes as it should once the first has come.
fn goes_on<R: Net<Stream = TcpStream> + Clock>(
    rt: &R,
    port: u16,
    first: &TcpStream,
    lent: TcpListener,
    meanwhile: Meanwhile,
) -> bool {
    match meanwhile {
        Meanwhile::NobodyComes | Meanwhile::OneComesAndCloses => true,
        Meanwhile::OneSaysAll => is_told_all(first),
        Meanwhile::TheListenerFails => are_refused(rt, port, first, lent),
        Meanwhile::TwoFallSilent => match TcpStream::connect(rt, ("127.0.0.1", port)) {
            Ok(second) => are_over(first, &second),
            Err(_) => false,
        },
    }
}

/// Whether all goes as it should meanwhile.
fn goes_well<R: Net<Stream = TcpStream> + Clock>(
    rt: &R,
    port: u16,
    lent: TcpListener,
    meanwhile: Meanwhile,
) -> bool {
    if let Meanwhile::NobodyComes = meanwhile {
        return true;
    }
    match TcpStream::connect(rt, ("127.0.0.1", port)) {
        Ok(first) => goes_on(rt, port, &first, lent, meanwhile),
        Err(_) => false,
    }
}

/// The options of the case, within their bounds.
fn options_of(case: &Case<'_>) -> ServeOptions
    ensures workers { (1 ≤ result.workers) × (result.workers ≤ 64) }
    ensures sessions { (1 ≤ result.sessions) × (result.sessions ≤ 64) }
{
    ServeOptions {
        workers: case.options.workers.clamp(1, 64),
        sessions: case.options.sessions.clamp(1, 64),
        ..case.options
    }
}

/// Whether that comes of a service at this listener, and this alone is written.
fn writes<R: Net<Stream = TcpStream> + Threads + Wait + Clock + Sync>(
    rt: &R,
    alloc: Global,
    listener: TcpListener,
    port: u16,
    case: &Case<'_>,
    written: &[u8],
) -> bool {
    let (Ok(lent), Ok(roster)) = (listener.try_clone(), roster_of(alloc, ROSTER)) else {
        return false;
    };
    let mut writer = Trickles::new(written, case.refuses);
    let (ended, goes_well) = thread::join(
        rt,
        || serve(rt, alloc, &roster, listener, options_of(case), &mut writer),
        || goes_well(rt, port, lent, case.meanwhile),
    );
    ended == case.end && goes_well && writer.is_content()
}

/// Whether that comes of a service at a port that is free.
fn comes_of<R: Net<Listener = TcpListener, Stream = TcpStream> + Threads + Wait + Clock + Sync>(
    rt: &R,
    alloc: Global,
    case: &Case<'_>,
) -> io::Result<bool> {
    let listener = TcpListener::bind(rt, ("127.0.0.1", 0))?;
    let port = listener.local_addr()?.port();
    listener.set_nonblocking(matches!(case.meanwhile, Meanwhile::NobodyComes))?;
    let whole = format!(in alloc; "listening 127.0.0.1:{port}\n{}", case.then)?;
    let written = whole
        .as_bytes()
        .get(..case.most)
        .unwrap_or(whole.as_bytes());
    Ok(writes(rt, alloc, listener, port, case, written))
}

/// A service while peers come, each case by its whole output. After a fault, sessions are told to stop before the listener is
/// closed; the other way round is refused here in few runs.
#[test]
fn services_while_peers_come(rt: HostRuntime) {
    for case in &CASES {
        assert!(rt; matches!(comes_of(&rt, rt.alloc(), case), Ok(true)));
    }
}

/// Whether a service ends as it should whose writer refuses so many bytes behind the start of the first line, where nobody
/// comes, and of the second.
fn ends_at_a_write<
    R: Net<Listener = TcpListener, Stream = TcpStream> + Threads + Wait + Clock + Sync,
>(rt: &R, alloc: Global, behind: usize, refuses: Refuses) -> io::Result<bool> {
    let Some((then, _)) = "served 1\n".split_at_checked(behind) else {
        return Ok(false);
    };
    let second = Case {
        end: Err(ServeFault::Write),
        then,
        refuses: Some(refuses),
        ..LEFT
    };
    let first = Case {
        meanwhile: Meanwhile::NobodyComes,
        most: behind,
        ..second
    };
    Ok(comes_of(rt, alloc, &first)? && comes_of(rt, alloc, &second)?)
}

// Each line has at least nine bytes.
#[test]
fn a_writer_that_fails(rt: HostRuntime) {
    for behind in 0..9usize {
        for refuses in [Refuses::WithAnError, Refuses::ByTakingNothing] {
            assert!(rt; matches!(ends_at_a_write(&rt, rt.alloc(), behind, refuses), Ok(true)));
        }
    }
}
