//! Snapshots: what a tenant could read at one time, over shared versions of vaults, and the rows of a role in it.
//!
//! `Snapshot::take` is the tenant's view of the journal as it is then (`specs/Snapshot.antt`), and whatever becomes of the vaults,
//! it stays. `find` tells where a role's rows stand (`specs/Span.antt`), and `span_is` whether a span is that one, by at most 8
//! comparisons, so nobody who looks rows up has to be trusted.
//! Why so: docs/DECISIONS.md#snapshots.
#![tactic(auto)]

mod holdings;
mod snapshots;
mod spans;
mod steps;
mod uncounted;

pub use snapshots::Snapshot;
pub use spans::Span;
pub use steps::Steps;
