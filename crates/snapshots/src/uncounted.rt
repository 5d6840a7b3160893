//! Whether a span holds a role's rows, for who doesn't count the comparisons.
ghost use Rattle.std.specs.Prelude.{◌≡◌, ◌<◌, ◌↔◌, IsTrue};
ghost use Rattle.snapshots.specs.Span.{span_of};

use crate::snapshots::Snapshot;
use crate::spans::Span;
use crate::steps::Steps;
use names::Role;
use std::marker::Brand;
use std::sync::ledger::{Blank, Ledger};

impl Snapshot {
    /// Whether the span is the one that `find` gives, with comparisons that nobody counts.
    pub fn finds(&self, role: &Role, span: Span) -> bool
        ensures { IsTrue result ↔ (span ≡ span_of self.now.vaults role.now) }
    {
        compares::<Brand>(self, role, span, Blank::new(1))
    }
}

/// What `finds` answers, counted in a ledger of its own.
fn compares<L: Ledger>(snapshot: &Snapshot, role: &Role, span: Span, blank: Blank) -> bool
    requires name { blank.name ≡ L.name }
    requires parts { blank.parts ≡ L.parts }
    requires some { 0 < blank.parts }
    ensures { IsTrue result ↔ (span ≡ span_of snapshot.now.vaults role.now) }
{
    let (book, share) = blank.open::<L>();
    snapshot.span_is(role, span, &mut Steps::new(book, share))
}
