use super::{is_text, limits_of};
use quotas::{Limits, QuotaFault, Used};
use std::alloc::AllocError;

/// Six numbers, and whether they are limits in their ranges.
static NUMBERS: [([u64; 6], bool); 15] = [
    ([2, 1, 3, 5, 4, 9], true),
    ([1, 1, 1, 1, 1, 1], true),
    (
        [100_000, 1_000, 64, 1_000_000, 1_000_000_000, 4_294_967_296],
        true,
    ),
    ([0, 1, 1, 1, 1, 1], false),
    ([100_001, 1, 1, 1, 1, 1], false),
    ([1, 0, 1, 1, 1, 1], false),
    ([1, 1_001, 1, 1, 1, 1], false),
    ([1, 1, 0, 1, 1, 1], false),
    ([1, 1, 65, 1, 1, 1], false),
    ([1, 1, 1, 0, 1, 1], false),
    ([1, 1, 1, 1_000_001, 1, 1], false),
    ([1, 1, 1, 1, 0, 1], false),
    ([1, 1, 1, 1, 1_000_000_001, 1], false),
    ([1, 1, 1, 1, 1, 0], false),
    ([1, 1, 1, 1, 1, 4_294_967_297], false),
];

/// Whether the limits are these.
fn are(limits: &Limits, numbers: &[u64; 6]) -> bool {
    let [creds, grants, searches, changes, opens, work] = *numbers;
    limits.creds() == creds
        && limits.grants() == grants
        && limits.searches() == searches
        && limits.changes() == changes
        && limits.opens() == opens
        && limits.work() == work
}

/// Whether the numbers make limits, which are then these, where they are to.
fn make_limits(numbers: &[u64; 6], is_made: bool) -> bool {
    match limits_of(numbers) {
        Some(limits) => is_made && are(&limits, numbers),
        None => !is_made,
    }
}

/// Used credentials, grants, searches, changes and openings, and whether there may be one more of each.
static USED: [(Used, bool); 2] = [
    (
        Used {
            creds: 1,
            grants: 0,
            searches: 2,
            changes: 4,
            opens: 3,
        },
        true,
    ),
    (
        Used {
            creds: 2,
            grants: 1,
            searches: 3,
            changes: 5,
            opens: 4,
        },
        false,
    ),
];

/// Whether this is what is told where there may be one more, or else may not by this fault.
fn is_told(told: Result<(), QuotaFault>, may: bool, fault: QuotaFault) -> bool {
    match told {
        Ok(()) => may,
        Err(other) => !may && other == fault,
    }
}

/// Whether there may be one more of each, or else may not by the fault of its kind.
fn may_all(limits: &Limits, used: &Used, may: bool) -> bool {
    is_told(limits.may_hold(used), may, QuotaFault::Creds)
        && is_told(limits.may_grant(used), may, QuotaFault::Grants)
        && is_told(limits.may_search(used), may, QuotaFault::Searches)
        && is_told(limits.may_change(used), may, QuotaFault::Changes)
        && is_told(limits.may_open(used), may, QuotaFault::Opens)
}

static FAULTS: [(QuotaFault, u64, &str); 5] = [
    (QuotaFault::Creds, 41, "creds limit"),
    (QuotaFault::Grants, 42, "grants limit"),
    (QuotaFault::Searches, 43, "searches limit"),
    (QuotaFault::Changes, 44, "changes limit"),
    (QuotaFault::Opens, 45, "opens limit"),
];

/// Six numbers in their ranges, one below and at each limit, and faults by number and text.
#[test]
fn limits_and_faults(rt: HostRuntime) -> Result<(), AllocError> {
    for (numbers, is_made) in &NUMBERS {
        assert!(rt; make_limits(numbers, *is_made));
    }
    assert!(rt;
        are(
            &Limits::usual(),
            &[1_000, 100, 16, 10_000, 10_000, 1_000_000]
        )
    );
    let limits = limits_of(&NUMBERS[0].0).expect(&rt, "in their ranges");
    for (used, may) in &USED {
        assert!(rt; may_all(&limits, used, *may));
    }
    for (fault, number, text) in &FAULTS {
        assert!(rt; fault.number() == *number && is_text(rt.alloc(), fault, text)?);
    }
    Ok(())
}
