use super::answers::Answer;
use super::steps::Stepped;
use crate::faults::Fault;
use crate::lists::{Rows, Sights};
use proof_trees::Proof;

/// What a tenant is told, or how a step went.
#[derive(Drop)]
pub enum Reply {
    /// A change was accepted; how many of the tenant's were so far.
    Counted(u64),
    /// A search was opened; its number, counted from 1.
    Opened(u64),
    /// What the search has come to.
    Answered(Answer),
    /// The search was ended.
    Closed,
    /// The credentials that the tenant holds, in order.
    Vault(Rows),
    /// The names whose vaults the tenant reads, in order, each with its mark.
    Sees(Sights),
    /// Why the entity is a member.
    Proof(Proof),
    /// The request was refused.
    Refused(Fault),
    /// How the step went.
    Stepped(Stepped),
}
