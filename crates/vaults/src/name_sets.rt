ghost use Rattle.std.specs.Prelude.{◌≡◌, ◌<◌, ◌^◌, [], false, length, OnOk, OnErr, IfOk};
ghost use Rattle.std.specs.List.{list_any};
ghost use Rattle.std.specs.BTreeSet.{insert_key};
ghost use Rattle.std.specs.Ordering.{eq_by_cmp};
ghost use Rattle.std.specs.List.Sorted.{IsStrictlySortedBy};
ghost use Rattle.names.specs.Name.{name_order};
ghost use Rattle.vaults.specs.InOrder.{without, IsPlace};

use names::Entity;
use std::alloc::{AllocError, Global};
use std::marker::Model;

/// Names in order, each once. Seen as their list.
#[derive(Drop)]
pub struct NameSet {
    names: Vec<Entity>,
}

impl Model for NameSet {
    ghost use Rattle.std.specs.Prelude.{ℕ, List};
    ghost use Rattle.std.specs.List.Sorted.{IsStrictlySortedBy};
    ghost use Rattle.names.specs.Name.{name_order};

    ghost Value = { List (List ℕ) };

    ghost view = { λ s. s.names.items };

    ghost invariant = { λ s. IsStrictlySortedBy name_order s.names.items };
}

impl NameSet {
    /// No name.
    pub fn new(alloc: Global) -> NameSet
        ensures { result ≡ [] }
    {
        NameSet {
            names: Vec::new(alloc),
        }
    }

    /// How many names there are.
    pub fn len(&self) -> usize
        ensures count { result ≡ length self.now }
        ensures fits { result < 2 ^ 63 }
    {
        self.names.len()
    }

    /// Whether the name is there.
    pub fn has(&self, name: &Entity) -> bool
        ensures { result ≡ list_any (eq_by_cmp name_order name.now) self.now }
    {
        place_of(&self.names, name).is_ok()
    }

    /// Puts the name into its place, if it isn't there.
    pub fn add(&mut self, name: &Entity) -> Result<(), AllocError>
        ensures added { OnOk result (self.new ≡ insert_key name_order self.old name.now) }
        ensures unchanged { OnErr result (self.new ≡ self.old) }
        ensures growth { OnErr result (list_any (eq_by_cmp name_order name.now) self.old ≡ false) }
    {
        if let Err(place) = place_of(&self.names, name) {
            self.names.insert(place, *name)?;
        }
        Ok(())
    }

    /// Takes the name out, if it is there.
    pub fn remove(&mut self, name: &Entity)
        ensures { self.new ≡ without name_order name.now self.old }
    {
        if let Ok(place) = place_of(&self.names, name) {
            self.names.remove(place);
        }
    }

    /// A copy of the names.
    pub fn try_clone(&self) -> Result<NameSet, AllocError>
        ensures { IfOk result (λ names. names ≡ self.now) }
    {
        let names = self.names.clone()?;
        Ok(NameSet { names })
    }

    /// The names, in order.
    pub fn names(&self) -> &[Entity]
        ensures names { result.now ≡ self.now }
        ensures ordered { IsStrictlySortedBy name_order self.now }
    {
        &self.names
    }
}

fn place_of(names: &[Entity], name: &Entity) -> Result<usize, usize>
    requires { IsStrictlySortedBy name_order names.now }
    ensures { IsPlace name_order names.now name.now result }
{
    names.binary_search(name)
}
