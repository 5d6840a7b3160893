//! The tests of `hall` and of `quotas`, each crate's in a file of its own, and what they share with those of the desk. They
//! stand here since a crate with tests is proved a second time with them. Those of the crates below stand in `proof_trees`.
mod of_hall;
mod of_quotas;

use hall::{
    answers_are_true, refusals_come_first, runs_are_allowed, scripts_are_exact,
    scripts_are_isolated, two_worlds,
};
use names::Entity;
use quotas::Limits;
use std::alloc::{AllocError, Global};
use std::fmt::Display;

/// Whether the fault is written so.
pub(crate) fn is_text<F: Display>(
    alloc: Global,
    fault: &F,
    text: &str,
) -> Result<bool, AllocError> {
    let written = format!(in alloc; "{fault}")?;
    Ok(written.as_str() == text)
}

/// The limits of these numbers, if they are in their ranges.
pub(crate) fn limits_of(numbers: &[u64; 6]) -> Option<Limits> {
    let [creds, grants, searches, changes, opens, work] = *numbers;
    Limits::make(creds, grants, searches, changes, opens, work)
}

/// Whether the entities have these names, in this order.
pub(crate) fn are_named(entities: &[Entity], names: &[&[u8]]) -> bool {
    for (entity, name) in entities.iter().zip(names) {
        if entity.bytes() != *name {
            return false;
        }
    }
    entities.len() == names.len()
}

#[test]
fn each_law_once() {
    two_worlds();
    scripts_are_isolated();
    refusals_come_first();
    answers_are_true();
    runs_are_allowed();
    scripts_are_exact();
}
