ghost use Rattle.std.specs.Prelude.{◌≡◌, [], IfOk, OnOk, OnErr, Contains};

use crate::key_sets::KeySet;
use crate::keys::Key;
use crate::making::make;
use names::Entity;
use std::alloc::{AllocError, Global};
use std::marker::Model;

/// The entities that were told, by name or by another key, each once. Contracts see them as a list, in order of telling. They
/// stand on the heap, since most monitors of a search are told nothing and stand side by side.
pub struct ToldKeys<K: Key = Entity> {
    keys: Option<Box<KeySet<K>>>,
    alloc: Global,
}

impl<K: Key> Model for ToldKeys<K> {
    ghost use Rattle.std.specs.Prelude.{List};
    ghost use Rattle.monitors.specs.Made.{keys_in};

    ghost Value = { List K };

    ghost view = { λ t. keys_in t.keys };
}

// By hand, so that who holds one drops it by one call, whose proof stands here.
impl<K: Key> Drop for ToldKeys<K> {
    fn drop(self) {
        let ToldKeys {
            keys: _keys,
            alloc: _alloc,
        } = self;
    }
}

impl<K: Key> ToldKeys<K> {
    ghost use Rattle.monitors.specs.LinkMonitor.{AddsKey};

    /// Nothing was told yet. It takes no memory.
    pub fn new(alloc: Global) -> Self
        ensures { result ≡ [] }
    {
        ToldKeys { keys: None, alloc }
    }

    /// Hears of the entity, and answers whether that is new.
    pub fn hear(&mut self, key: K) -> Result<bool, AllocError>
        ensures ok { IfOk result (AddsKey self.old self.new key) }
        ensures told { OnOk result (Contains self.new key) }
        ensures growth { OnErr result (Contains self.old key → ⊥) }
        ensures unchanged { OnErr result (self.new ≡ self.old) }
    {
        make(&mut self.keys, self.alloc)?;
        match &mut self.keys {
            Some(keys) => keys.insert(key),
            None => unreachable!(),
        }
    }
}
