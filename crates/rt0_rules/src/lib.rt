//! Membership in the roles of RT0 (Li, Winsborough and Mitchell 2003): its rules, and the plain program that follows them.
//!
//! `specs/Membership.antt` is what all answers of this service are measured by: `IsMember`, the least relation that the four
//! rules derive. `members_plain` answers exactly the members, in order; `membership_is_exact` says that their list is one,
//! whatever the order of the credentials and their repeats. `work_plain` counts the letters that a search for them sends
//! (`specs/Work.antt`), and `work_is_exact` says that this is one number. Both are for tests: they take rounds over all
//! credentials.
//! Why so: docs/DECISIONS.md#rt0_rules.
#![tactic(auto)]

mod asks;
mod facts;
mod laws;
mod members;
mod work;

pub use laws::{membership_is_exact, work_is_exact};
pub use members::members_plain;
pub use work::work_plain;
