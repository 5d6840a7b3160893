//! The names of RT0 (Li, Winsborough and Mitchell 2003): entities, role names and roles.
//!
//! `Entity::read`, `RoleName::read` and `Role::read` take exactly the spellings that their contracts allow, and refuse each
//! other text for the first reason that applies. A name is seen as the list of its bytes (`specs/Name.antt`), and `compare` is
//! the order of these lists (`specs/Order.antt`). `names_and_orders` and `operators_are_exact` are laws of it: `==`, `<` and
//! `compare` say one thing. A name is of one size and copied, so nothing here takes memory.
//! Why so: docs/DECISIONS.md#names.
#![tactic(auto)]

mod entities;
mod faults;
mod held_names;
mod laws;
mod reading;
mod role_names;
mod roles;
pub mod texts;

pub use entities::Entity;
pub use faults::NameFault;
pub use laws::{names_and_orders, operators_are_exact};
pub use role_names::RoleName;
pub use roles::Role;
