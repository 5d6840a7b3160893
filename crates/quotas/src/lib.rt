//! The limits of a tenant: how many credentials, grants, searches, changes and openings it may have, and how many
//! letters each of its searches may send.
//!
//! `Limits::make` takes exactly the numbers within the ranges of `specs/Quota.antt`. The five `may_` calls refuse where a count
//! has reached its limit, each by its own fault, and neither earlier nor later.
//! Why so: docs/DECISIONS.md#quotas.
#![tactic(auto)]

mod faults;
mod limits;

pub use faults::QuotaFault;
pub use limits::{Limits, Used};
