//! The vaults of many tenants: the journal of accepted changes, the credentials that each tenant holds, and who may
//! read whose vault.
//!
//! A `Book` is seen as its journal, and what the journal means is said in `specs/Journal.antt`: who holds what, who reads whom,
//! which refusal a change is due. `Book::change` enters a change or refuses it and changes nothing; a revocation never lacks
//! memory. The journal is kept as bytes (`specs/Kept.antt`), with room for what takes back what stands (`specs/Owed.antt`). What a
//! book keeps beside it, so that no call walks over it, is in `specs/Book.antt` and `specs/Page.antt`. The laws
//! (`specs/Laws.antt`) say that a tenant's own entries decide what it holds and grants.
//! Why so: docs/DECISIONS.md#vaults.
#![tactic(auto)]

mod blocks;
mod books;
mod changes;
mod entries;
mod faults;
mod journals;
mod laws;
mod marks;
mod merges;
mod name_sets;
mod own_rows;
mod pages;
mod parted_rows;
mod rows;
mod shared_rows;
mod versions;

pub use books::{Book, Counts};
pub use changes::{Change, Entry};
pub use entries::Entries;
pub use faults::VaultFault;
pub use laws::{
    accepted_changes_are_own, grants_are_apart, marks_are_exact, own_entries_decide,
    vaults_are_exact, views_are_exact,
};
pub use marks::Seen;
pub use rows::Row;
pub use versions::{Rows, Version};
