//! One search for the members of a role, as a diffusing computation along the credential graph: letters ask and tell,
//! signals end it. When nothing is outstanding, what was found is exactly what is derivable.
//!
//! A `Search` is seen as a `SearchState` (`specs/Search.antt`); what a receipt does is said row by row in
//! `specs/Answers.antt`, what each finish does in `specs/Finish.antt`, and what a running search keeps in `specs/Net.antt`. The
//! promise is that of `Search::status` (`specs/Ending.antt`): a completed search tells the truth of its query over its snapshot, and
//! is spent exactly where the work exceeds its limit. That a search is broken only where memory lacked is no contract.
//! Why so: docs/DECISIONS.md#search.
#![tactic(auto)]

mod answers;
mod driving;
mod findings;
mod hints;
mod letters;
mod members;
mod outcomes;
mod queries;
mod searches;
mod stages;
mod tables;

pub use findings::{Findings, Monitor};
pub use letters::{Held, Load};
pub use outcomes::{Finished, Status};
pub use queries::{Hint, Need, Query, Task};
pub use searches::Search;
pub use stages::Stage;
pub use tables::Tables;
