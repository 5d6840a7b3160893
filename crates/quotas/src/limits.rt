ghost use Rattle.std.specs.Prelude.{◌≡◌, ◌<◌, ◌≤◌, ◌↔◌, IsOk, IsTrue, IsSome, IfSome, IsErrOf, OnOk};
ghost use Rattle.quotas.specs.Quota.{IsFrom1To, IsQuota, quota, usual_quota};

use crate::faults::QuotaFault;
use std::marker::Model;

/// The six limits of a tenant, each in its range. Contracts see them as a `Quota`.
#[derive(Clone, Copy)]
pub struct Limits {
    creds: u64,
    grants: u64,
    searches: u64,
    changes: u64,
    opens: u64,
    work: u64,
}

impl Model for Limits {
    ghost use Rattle.quotas.specs.Quota.{Quota, IsQuota};

    ghost Value = { Quota };

    ghost view = { λ l. record {
      creds = l.creds;
      grants = l.grants;
      searches = l.searches;
      changes = l.changes;
      opens = l.opens;
      work = l.work;
    } };

    ghost invariant = { λ l. IsQuota (record {
      creds = l.creds;
      grants = l.grants;
      searches = l.searches;
      changes = l.changes;
      opens = l.opens;
      work = l.work;
    }) };

    ghost inverse = { λ q. record {
      creds = q.creds;
      grants = q.grants;
      searches = q.searches;
      changes = q.changes;
      opens = q.opens;
      work = q.work;
    } };
}

/// What a tenant uses of its limits: the credentials that it holds, the grants that stand, the searches that
/// it has not ended, its accepted changes, and the searches that it has opened so far.
#[derive(Clone, Copy)]
pub struct Used {
    pub creds: u64,
    pub grants: u64,
    pub searches: u64,
    pub changes: u64,
    pub opens: u64,
}

impl Limits {
    /// The limits of these numbers, if each is in its range: at least 1, and at most 100,000 credentials, 1,000
    /// grants, 64 searches at a time, 1,000,000 changes, 1,000,000,000 openings and 2^32 letters.
    pub fn make(
        creds: u64,
        grants: u64,
        searches: u64,
        changes: u64,
        opens: u64,
        work: u64,
    ) -> Option<Limits>
        ensures ranges { IsSome result ↔ IsQuota (quota creds grants searches changes opens work) }
        ensures value { IfSome result (λ l. l ≡ quota creds grants searches changes opens work) }
    {
        let small = is_from_1_to(100_000, creds)
            && is_from_1_to(1_000, grants)
            && is_from_1_to(64, searches);
        let large = is_from_1_to(1_000_000, changes)
            && is_from_1_to(1_000_000_000, opens)
            && is_from_1_to(4_294_967_296, work);
        if small && large {
            Some(Limits {
                creds,
                grants,
                searches,
                changes,
                opens,
                work,
            })
        } else {
            None
        }
    }

    /// The limits of a tenant of which nothing else is said.
    pub fn usual() -> Limits
        ensures { result ≡ usual_quota }
    {
        Limits {
            creds: 1_000,
            grants: 100,
            searches: 16,
            changes: 10_000,
            opens: 10_000,
            work: 1_000_000,
        }
    }

    /// How many credentials the tenant may hold.
    pub fn creds(&self) -> u64
        ensures limit { result ≡ self.now.creds }
        ensures range { IsQuota self.now }
    {
        self.creds
    }

    /// How many grants of the tenant may stand: one for each reader, and one where its vault is public.
    pub fn grants(&self) -> u64
        ensures limit { result ≡ self.now.grants }
        ensures range { IsQuota self.now }
    {
        self.grants
    }

    /// How many searches the tenant may have that it has not ended.
    pub fn searches(&self) -> u64
        ensures limit { result ≡ self.now.searches }
        ensures range { IsQuota self.now }
    {
        self.searches
    }

    /// How many changes of the tenant may be accepted.
    pub fn changes(&self) -> u64
        ensures limit { result ≡ self.now.changes }
        ensures range { IsQuota self.now }
    {
        self.changes
    }

    /// How many searches the tenant may open in all.
    pub fn opens(&self) -> u64
        ensures limit { result ≡ self.now.opens }
        ensures range { IsQuota self.now }
    {
        self.opens
    }

    /// How many letters a search of the tenant may send.
    pub fn work(&self) -> u64
        ensures limit { result ≡ self.now.work }
        ensures range { IsQuota self.now }
    {
        self.work
    }

    /// Whether the tenant may hold one credential more.
    pub fn may_hold(&self, used: &Used) -> Result<(), QuotaFault>
        ensures ok { IsOk result ↔ (used.now.creds < self.now.creds) }
        ensures full { IsErrOf result QuotaFault.Creds ↔ (self.now.creds ≤ used.now.creds) }
    {
        below(used.creds, self.creds, QuotaFault::Creds)
    }

    /// Whether one grant more of the tenant may stand.
    pub fn may_grant(&self, used: &Used) -> Result<(), QuotaFault>
        ensures ok { IsOk result ↔ (used.now.grants < self.now.grants) }
        ensures full { IsErrOf result QuotaFault.Grants ↔ (self.now.grants ≤ used.now.grants) }
    {
        below(used.grants, self.grants, QuotaFault::Grants)
    }

    /// Whether the tenant may have one search more that it has not ended.
    pub fn may_search(&self, used: &Used) -> Result<(), QuotaFault>
        ensures ok { IsOk result ↔ (used.now.searches < self.now.searches) }
        ensures full { IsErrOf result QuotaFault.Searches ↔ (self.now.searches ≤ used.now.searches) }
    {
        below(used.searches, self.searches, QuotaFault::Searches)
    }

    /// Whether one change more of the tenant may be accepted.
    pub fn may_change(&self, used: &Used) -> Result<(), QuotaFault>
        ensures ok { IsOk result ↔ (used.now.changes < self.now.changes) }
        ensures small { OnOk result (used.now.changes < 1000000) }
        ensures full { IsErrOf result QuotaFault.Changes ↔ (self.now.changes ≤ used.now.changes) }
    {
        below(used.changes, self.changes, QuotaFault::Changes)
    }

    /// Whether the tenant may open one search more.
    pub fn may_open(&self, used: &Used) -> Result<(), QuotaFault>
        ensures ok { IsOk result ↔ (used.now.opens < self.now.opens) }
        ensures small { OnOk result (used.now.opens < 1000000000) }
        ensures full { IsErrOf result QuotaFault.Opens ↔ (self.now.opens ≤ used.now.opens) }
    {
        below(used.opens, self.opens, QuotaFault::Opens)
    }
}

fn is_from_1_to(greatest: u64, count: u64) -> bool
    ensures { IsTrue result ↔ IsFrom1To greatest count }
{
    1 <= count && count <= greatest
}

fn below(count: u64, limit: u64, fault: QuotaFault) -> Result<(), QuotaFault>
    ensures ok { IsOk result ↔ (count < limit) }
    ensures full { IsErrOf result fault ↔ (limit ≤ count) }
{
    if count < limit { Ok(()) } else { Err(fault) }
}
