use names::Entity;

/// A name that a tenant reads, and whether its vault is public.
#[derive(Clone, Copy, PartialEq, Eq)]
pub struct Seen {
    pub name: Entity,
    /// Whether every tenant may read the vault of that name.
    pub to_all: bool,
}
