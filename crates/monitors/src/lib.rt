//! What the nodes of a search remember of the letters that told them something: a linked role, which members its base
//! has and whom these gave to it; an intersection, which of its parts told which entity.
//!
//! `LinkMonitor` and `MeetMonitor` are seen as who told what (`specs/LinkMonitor.antt`, `specs/MeetMonitor.antt`). A call
//! answers true exactly where something new follows from what it was told, and a repeat changes nothing. A search speaks of
//! entities by number. It keeps `KeyedMeet<u32>`, which hears what the monitor by name hears, whatever names the numbers stand
//! for, as long as no two of them stand for one name (`specs/MeetMonitor.antt`), and of a linked role what it asks of it, the
//! members of the base, as `ToldKeys<u32>`.
//! Why so: docs/DECISIONS.md#monitors.
#![tactic(auto)]

mod key_sets;
mod keyed_meets;
mod keys;
mod link_monitors;
mod making;
mod meet_monitors;
mod tellers;
mod told_keys;

pub use keyed_meets::KeyedMeet;
pub use keys::Key;
pub use link_monitors::LinkMonitor;
pub use meet_monitors::MeetMonitor;
pub use told_keys::ToldKeys;
