ghost use Rattle.std.specs.Prelude.{◌≡◌, IfOk, OnErr, Contains};
ghost use Rattle.monitors.specs.LinkMonitor.{AddsKey};

use crate::keys::Key;
use crate::making::Empty;
use indexmap::IndexSet;
use std::alloc::{AllocError, Global};
use std::marker::Model;

/// So many keys of a set are looked through one by one.
const NEAR: usize = 8;

/// A set of keys. Contracts see them as a list, in order of adding. The first of them stand in a list, since most sets have
/// few, and a table takes more memory.
pub struct KeySet<K: Key> {
    near: Vec<K>,
    // The keys beyond the first ones.
    far: IndexSet<K>,
}

impl<K: Key> Model for KeySet<K> {
    ghost use Rattle.std.specs.Prelude.{◌≡◌, ◌<◌, ◌++◌, List, [], length};

    ghost Value = { List K };

    ghost view = { λ s. s.near.items ++ s.far.keys };

    ghost invariant = { λ s. length s.near.items < 8 → s.far.keys ≡ [] };
}

// By hand, so that who holds one drops it by one call, whose proof stands here.
impl<K: Key> Drop for KeySet<K> {
    fn drop(self) {
        let KeySet {
            near: _near,
            far: _far,
        } = self;
    }
}

impl<K: Key> Empty for KeySet<K> {
    ghost use Rattle.std.specs.Prelude.{◌≡◌, []};

    ghost IsEmpty = { λ keys. keys ≡ [] };

    fn empty(alloc: Global) -> Self {
        KeySet {
            near: Vec::new(alloc),
            far: IndexSet::new(alloc),
        }
    }
}

impl<K: Key> KeySet<K> {
    ghost use Rattle.monitors.specs.LinkMonitor.{AddsKey};

    /// Adds the key behind the others, unless it is one of them, and answers whether it is new.
    pub(crate) fn insert(&mut self, key: K) -> Result<bool, AllocError>
        ensures ok { IfOk result (AddsKey self.old self.new key) }
        ensures growth { OnErr result (Contains self.old key → ⊥) }
        ensures unchanged { OnErr result (self.new ≡ self.old) }
    {
        if self.near.contains(&key) {
            return Ok(false);
        }
        if self.near.len() < NEAR {
            self.near.push(key)?;
            return Ok(true);
        }
        Ok(self.far.insert(key)?)
    }
}
