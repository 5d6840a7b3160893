//! The service over bytes: lines that come in, commands of many tenants, and replies that go out.
//!
//! `run_script` promises `ScriptWrote` (`specs/Written.antt`): it wrote the transcript of an exact run of the tenants' requests,
//! or a front part of it where a device failed. By the law `scripts_are_isolated` a tenant's bytes depend on its own lines and on
//! what it has in sight (`specs/Laws.antt`). `serve_session` is one connection (`specs/Session.antt`), `serve` all of them.
//! Why so: docs/DECISIONS.md#service.
#![tactic(auto)]

mod arrivals;
mod callers;
mod commands;
mod connections;
mod conversations;
#[cfg(test)]
mod fakes;
mod faults;
mod laws;
mod lines;
mod outboxes;
mod peers;
mod refusals;
mod replies;
mod reply_buffers;
mod rosters;
mod scripts;
mod serving;
mod sessions;
mod speakers;
mod words;
mod writing;

pub use callers::{Caller, Door};
pub use conversations::SessionEnd;
pub use faults::{ScriptFault, ServeFault};
pub use laws::{rosters_have_one_reading, scripts_are_isolated, two_scripts};
pub use lines::limit::MOST_READS;
pub use lines::{LONGEST_LINE, LineReader, NextLine};
pub use refusals::fault_text;
pub use rosters::{Roster, read_roster};
pub use scripts::{run_script, run_script_keeping};
pub use serving::{ServeOptions, serve};
pub use sessions::{answer_session, serve_session};
