use names::Entity;
use search::Query;
use vaults::Change;

/// What a tenant may want.
#[derive(Drop)]
pub enum Request {
    /// Change the own vault, or who may read it.
    Alter(Change),
    /// Open a search over what the tenant sees now.
    Seek(Query),
    /// What has the search of this number come to?
    Poll(u64),
    /// End the search of this number.
    Close(u64),
    /// Which credentials does the tenant hold?
    Vault,
    /// Whose vaults does the tenant read, and which of them does every tenant?
    Sees,
    /// Why is the entity a member of the role that the search of this number asked about?
    Proof(u64, Entity),
}
