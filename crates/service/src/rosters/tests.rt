use super::*;
use crate::fakes::{Drips, NEVER, roster_of};

static ROSTER: &[u8] = b"tenant A a\nbegin\n";

static BEHIND: &[u8] = b"tenant Z z\nbegin\n";

/// Whether these lines begin with a roster of A, and then stands this one.
fn leaves(alloc: Global, input: &[u8], behind: &[u8]) -> bool {
    let Ok(mut lines) = LineReader::make(alloc, input) else {
        return false;
    };
    let Ok(roster) = Roster::read(alloc, &mut lines) else {
        return false;
    };
    roster.check(b"A", b"a") && lines.next() == NextLine::Text(behind)
}

/// Whether a roster of A is read from bytes that come one by one.
fn is_read(alloc: Global) -> bool {
    let reader = Drips {
        rest: ROSTER,
        before_fault: NEVER,
    };
    match roster_of(alloc, reader) {
        Ok(roster) => roster.check(b"A", b"a"),
        Err(_) => false,
    }
}

/// Whether the tenant has this name and may hold so many credentials.
fn is_tenant(tenant: &(Entity, Limits), name: &[u8], creds: u64) -> bool {
    tenant.0.bytes() == name && tenant.1.creds() == creds
}

/// Whether a roster lists its tenants in order.
fn lists_in_order(alloc: Global) -> Result<bool, ScriptFault> {
    let input: &[u8] = b"tenant B b\ntenant A a 7 7 7 7 7 7\nbegin\n";
    let tenants = roster_of(alloc, input)?.tenants(alloc)?;
    match tenants.as_slice() {
        [first, last] => Ok(is_tenant(first, b"B", 1_000) && is_tenant(last, b"A", 7)),
        _ => Ok(false),
    }
}

#[test]
fn reads_a_roster_up_to_its_end(rt: HostRuntime) {
    assert!(rt; leaves(rt.alloc(), b"tenant A a\nbegin\nA: vault\n", b"A: vault"));
    assert!(rt; is_read(rt.alloc()));
    assert!(rt; lists_in_order(rt.alloc()) == Ok(true));
}

/// Inputs that begin with no roster, each with what stands behind the faulty line.
static FAULTY: [&[u8]; 6] = [
    b"begin\ntenant Z z\nbegin\n",
    b"tenants A a\ntenant Z z\nbegin\n",
    b"tenant A a\ntenant A b\ntenant Z z\nbegin\n",
    b"tenant A a\ntenant B b 0 1 1 1 1 1\ntenant Z z\nbegin\n",
    b"tenant A a\nend\ntenant Z z\nbegin\n",
    b"\x7f\ntenant Z z\nbegin\n",
];

/// Whether a roster that is read so comes to this fault, and then this is left unread.
fn ends_by(
    alloc: Global,
    input: &[u8],
    before_fault: u64,
    fault: ScriptFault,
    unread: &[u8],
) -> bool {
    let mut reader = Drips {
        rest: input,
        before_fault,
    };
    match roster_of(alloc, &mut reader) {
        Ok(_roster) => false,
        Err(why) => why == fault && reader.rest == unread,
    }
}

#[test]
fn tells_a_fault_at_once(rt: HostRuntime) {
    for input in &FAULTY {
        assert!(rt; ends_by(rt.alloc(), *input, NEVER, ScriptFault::Roster, BEHIND));
    }
    for before in 0..ROSTER.len() {
        let unread = &ROSTER[before..];
        assert!(rt; ends_by(rt.alloc(), ROSTER, before as u64, ScriptFault::Read, unread));
    }
}
