//! The desk and its workers: one hall under one lock. Callers hold passes, workers are threads, and a visit to the lock is
//! one call of the hall, or the steps of one search that a worker makes in a row.
//!
//! All that tenants are told stands in one history, in the order of the lock, which exists in proofs alone
//! (`specs/Histories.antt`). Each call of `Desk` adds one item to it, which admits the call's reply, and a pass has seen a
//! beginning of it with all of its own calls (`specs/Served.antt`). Each accepted change that was told counts once in a ledger
//! too (`specs/Passes.antt`). Whom a call or a visit has to wake is told by a `Notice` (`specs/Rooms.antt`), which nobody can
//! drop. That who is woken goes on is shown by tests, since no clause speaks of it. A pass is drawn by an `Admission`, and a desk
//! stopped by its `Authority` (`src/rights.rt`): neither is had by a call.
//! Why so: docs/DECISIONS.md#pool.
#![tactic(auto)]

mod bells;
#[cfg(test)]
mod desk_tests;
mod desks;
mod faults;
mod histories;
mod keepers;
mod notices;
mod passes;
mod rights;
mod rooms;
mod seats;
mod tallies;
#[cfg(test)]
mod tests;
#[cfg(test)]
mod tests_below;
mod turns;
mod verdicts;
mod visits;
mod workers;

pub use desks::Desk;
pub use faults::{DeskFault, DeskResult};
pub use histories::{
    histories_agree, histories_are_true, histories_go_on, reads_are_told, replies_are_exact,
    sessions_are_runs, shares_add_up,
};
pub use keepers::{Naming, Unnamed};
pub use passes::{Ended, Pass};
pub use rights::{Admission, Authority};
pub use verdicts::{Gathered, Ticket, Verdict};
pub use workers::{Gate, NoGate, run_workers};
