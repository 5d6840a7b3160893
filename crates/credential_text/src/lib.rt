//! The credentials of RT0 (Li, Winsborough and Mitchell 2003) and their text.
//!
//! A `Credential` says that the members of its body, an `Expr` of one of four kinds, are members of the role at its head.
//! `read_credential` takes exactly the spellings of `specs/Spelling.antt` and refuses others for the first reason of
//! `specs/Refusal.antt`; `write_credential` writes the one canonical spelling. `spelling_is_exact` is the law that the two are
//! inverse; `orders_are_total` and `equality_is_exact` are those of `compare` and `==`. Parts of an intersection take memory.
//! Why so: docs/DECISIONS.md#credential_text.
#![tactic(auto)]

mod bodies;
mod credentials;
mod exprs;
mod faults;
mod intersections;
mod laws;
mod reading;
mod writing;

pub use credentials::Credential;
pub use exprs::Expr;
pub use faults::CredFault;
pub use intersections::{Part, Parts};
pub use laws::{equality_is_exact, orders_are_total, spelling_is_exact};
pub use reading::read_credential;
pub use writing::{write_credential, write_expr};
