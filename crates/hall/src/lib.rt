//! The hall of all tenants: what one may ask of it, what each tenant may be told, and the laws that hold of all of its
//! runs.
//!
//! A `Hall` is seen as its journal and its tenants by name (`specs/Hall.antt`). A request is answered by one tenant's account and
//! what it has in sight, alone (`specs/Answers.antt`), and a step goes to one search. `specs/Run.antt` says
//! what a run is to one tenant, and when what is told in it is right. The laws of `run_laws.rt` hold of all runs: answers are true,
//! refusals come first, and two worlds that agree for a tenant tell it the same. `specs/Work.antt` is for those who work for a hall.
//! Why so: docs/DECISIONS.md#hall.
#![tactic(auto)]

mod batches;
mod calls;
mod ends;
mod faults;
mod halls;
mod jobs;
mod lendable_searches;
mod lists;
mod open_searches;
mod orders;
mod picking;
mod places;
mod remains;
mod run_laws;
mod running;
mod seats;
mod tenants;
mod working;

pub use batches::Batch;
pub use calls::{Answer, Event, Reply, Request, Step, Stepped};
pub use ends::Ends;
pub use faults::Fault;
pub use halls::Hall;
pub use jobs::Job;
pub use lists::{Listed, Names, Rows, Sights};
pub use open_searches::{proof_of, told_of};
pub use orders::{Next, Order, Visit};
pub use proof_trees::{Proof, write_proof};
pub use remains::Remains;
pub use run_laws::{
    answers_are_true, refusals_come_first, runs_are_allowed, scripts_are_exact,
    scripts_are_isolated, two_worlds,
};
pub use search::Query;
