//! The tests of this crate and of those that it stands on, each crate's in a file of its own. A crate with tests is proved a
//! second time with them, so they stand in one crate; and in this one, so that it is done while the hall is proved.
mod of_cred_graph;
mod of_credential_text;
mod of_monitors;
mod of_names;
mod of_proof_trees;
mod of_proofs_found;
mod of_rt0_rules;
mod of_scholten_core;
mod of_search;
mod of_snapshots;
mod of_vaults;

use rt0_rules::{membership_is_exact, work_is_exact};
use std::alloc::{AllocError, Global};
use std::fmt::Display;
use vaults::{
    accepted_changes_are_own, grants_are_apart, marks_are_exact, own_entries_decide,
    vaults_are_exact, views_are_exact,
};

/// Whether the fault is written so.
fn is_text<F: Display>(alloc: Global, fault: &F, text: &str) -> Result<bool, AllocError> {
    let written = format!(in alloc; "{fault}")?;
    Ok(written.as_str() == text)
}

/// A sum over both, in this order.
fn mix(sum: u64, more: u64) -> u64 {
    sum.wrapping_mul(31).wrapping_add(more)
}

#[test]
fn each_law_once() {
    membership_is_exact();
    work_is_exact();
    vaults_are_exact();
    views_are_exact();
    marks_are_exact();
    grants_are_apart();
    accepted_changes_are_own();
    own_entries_decide();
}
