use super::*;
use crate::fakes::{Drips, NEVER, Refuses, Trickles};

const WRONG_ROSTER: &[u8] = b"?: error 63 roster\n";

const SCRIPT: &[u8] = b"tenant A a\nbegin\nA: put A.r <- D\nA: ask A.r D\nA: wait 1\n";

const REPLIES: &[u8] = b"A: ok 1\nA: search 1\nA: yes\n";

/// Whether a script comes to this, and this is written to a writer that then refuses, if at all.
fn comes_to<R: Read + Drop>(
    alloc: Global,
    reader: R,
    end: Result<(), ScriptFault>,
    written: &[u8],
    refuses: Option<Refuses>,
) -> bool {
    let mut writer = Trickles::new(written, refuses);
    run_script(alloc, reader, &mut writer) == end && writer.is_content()
}

/// Scripts and what is written.
static SCRIPTS: [(&[u8], &[u8]); 2] = [
    (SCRIPT, REPLIES),
    // Each command once, and a long reply.
    (
        b"tenant A a\ntenant B b\nbegin\n\
            A: put A.r <- B.s\nB: put B.s <- D\nB: put B.s <- C & B.s.t\nB: grant A\n\
            A: ask A.r D\nA: poll 1\nA: who A.r\nB: drop B.s <- D\nA: sees\nB: revoke A\n\
            A: wait 1\nA: wait 2\nA: poll 1\nA: end 1\nA: poll 1\nB: vault\nB: grant *\nA: sees\n\
            B: revoke *\nB: sees\nB: look\n",
        b"A: ok 1\nB: ok 1\nB: ok 2\nB: ok 3\n\
            A: search 1\nA: working\nA: search 2\nB: ok 4\nA: sees A B\nB: ok 5\n\
            A: yes\nA: members D\nA: yes\nA: ended\nA: error 51 no such search\n\
            B: vault 1\nB: B.s <- C & B.s.t\nB: ok 6\nA: sees A B*\nB: ok 7\nB: sees B\n\
            B: error 64 command\n",
    ),
];

/// Whether this is written for a script as a whole, and also byte by byte.
fn is_run(alloc: Global, script: &[u8], replies: &[u8]) -> bool {
    let mut output = Vec::new(alloc);
    let drips = Drips {
        rest: script,
        before_fault: NEVER,
    };
    run_script(alloc, script, &mut output) == Ok(())
        && output.as_slice() == replies
        && comes_to(alloc, drips, Ok(()), replies, None)
}

#[test]
fn runs_whole_scripts(rt: HostRuntime) {
    for (script, replies) in &SCRIPTS {
        assert!(rt; is_run(rt.alloc(), *script, *replies));
    }
}

/// Whether a script comes to this fault, and this is written, and this left unread.
fn leaves(
    alloc: Global,
    script: &[u8],
    fault: ScriptFault,
    written: &[u8],
    refuses: Option<Refuses>,
    unread: &[u8],
) -> bool {
    let mut reader = Drips {
        rest: script,
        before_fault: NEVER,
    };
    comes_to(alloc, &mut reader, Err(fault), written, refuses) && reader.rest == unread
}

// What follows the faulty line is left unread.
#[test]
fn answers_a_faulty_roster_at_once(rt: HostRuntime) {
    let script = b"tenant A\nbegin\nA: vault\n";
    let unread = b"begin\nA: vault\n";
    assert!(rt;
        leaves(
            rt.alloc(),
            script,
            ScriptFault::Roster,
            WRONG_ROSTER,
            None,
            unread
        )
    );
}

/// What is written of `REPLIES` before the writer refuses a reply, and what is then left unread of `SCRIPT`.
static REFUSED: [(&[u8], &[u8]); 3] = [
    (b"", b"A: ask A.r D\nA: wait 1\n"),
    (b"A: ok 1\n", b"A: wait 1\n"),
    (b"A: ok 1\nA: search 1\n", b""),
];

// The writer refuses each reply in turn, and then the lines behind that command are left unread.
#[test]
fn answers_each_line_before_the_next_is_read(rt: HostRuntime) {
    let refuses = Some(Refuses::WithAnError);
    for (written, unread) in &REFUSED {
        assert!(rt;
            leaves(
                rt.alloc(),
                SCRIPT,
                ScriptFault::Write,
                *written,
                refuses,
                *unread
            )
        );
    }
}

// What answers the lines that end among so many bytes of `SCRIPT`.
fn answers(read: usize) -> &'static [u8] {
    match read {
        0..33 => b"",
        33..46 => b"A: ok 1\n",
        46..56 => b"A: ok 1\nA: search 1\n",
        _ => REPLIES,
    }
}

#[test]
fn answers_the_lines_before_a_read_fault(rt: HostRuntime) {
    let end = Err(ScriptFault::Read);
    for read in 0..57usize {
        let reader = Drips {
            rest: SCRIPT,
            before_fault: read as u64,
        };
        assert!(rt; comes_to(rt.alloc(), reader, end, answers(read), None));
    }
}

/// Whether the script stops wherever its writer refuses.
fn stops_at_each_write(alloc: Global, script: &[u8], replies: &[u8]) -> bool {
    let end = Err(ScriptFault::Write);
    for at in 0..replies.len() {
        let written = &replies[..at];
        if !comes_to(alloc, script, end, written, Some(Refuses::WithAnError))
            || !comes_to(alloc, script, end, written, Some(Refuses::ByTakingNothing))
        {
            return false;
        }
    }
    true
}

#[test]
fn stops_at_a_write_fault(rt: HostRuntime) {
    assert!(rt; stops_at_each_write(rt.alloc(), SCRIPT, REPLIES));
    assert!(rt; stops_at_each_write(rt.alloc(), b"begin\n", WRONG_ROSTER));
}

static TEXTS: [(ScriptFault, &str); 4] = [
    (ScriptFault::Roster, "roster"),
    (ScriptFault::Read, "read"),
    (ScriptFault::Write, "write"),
    (ScriptFault::Memory, "memory"),
];

/// Whether the fault has this text.
fn reads_as(fault: ScriptFault, expected: &str) -> bool {
    let mut writer = Trickles::new(expected.as_bytes(), None);
    write!(writer, "{fault}").is_ok() && writer.is_content()
}

#[test]
fn texts_of_the_faults(rt: HostRuntime) {
    for (fault, text) in &TEXTS {
        assert!(rt; reads_as(*fault, text));
    }
}
