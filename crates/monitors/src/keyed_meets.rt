ghost use Rattle.std.specs.Prelude.{◌≡◌, ◌<◌, ◌≤◌, [], IfOk, OnErr};
ghost use Rattle.monitors.specs.MeetMonitor.{lines_of, HearsByName, IsUntold, HasKeysOf, IsTable};

use crate::keys::Key;
use crate::making::{Empty, make};
use crate::tellers::Tellers;
use indexmap::IndexMap;
use std::alloc::{AllocError, Global};
use std::marker::Model;

/// For each entity that an intersection was told of, by its key, the parts that told it.
struct MeetTable<K: Key> {
    lines: IndexMap<K, Tellers>,
}

// By hand, so that who holds one drops it by one call, whose proof stands here.
impl<K: Key> Drop for MeetTable<K> {
    fn drop(self) {
        let MeetTable { lines: _lines } = self;
    }
}

impl<K: Key> Empty for MeetTable<K> {
    ghost use Rattle.std.specs.Prelude.{◌≡◌, []};

    ghost IsEmpty = { λ t. t.lines.entries ≡ [] };

    fn empty(alloc: Global) -> Self {
        MeetTable {
            lines: IndexMap::new(alloc),
        }
    }
}

/// What an intersection of 2 to 8 parts was told: for each entity, by its key, the parts that told it. Contracts say what it
/// hears by the names that the keys stand for, whichever these are. What it was told stands on the heap, since most monitors
/// of a search are told nothing and stand side by side.
pub struct KeyedMeet<K: Key> {
    parts: u8,
    told: Option<Box<MeetTable<K>>>,
    alloc: Global,
}

impl<K: Key> Model for KeyedMeet<K> {
    ghost use Rattle.std.specs.Prelude.{[]};
    ghost use Rattle.monitors.specs.Made.{made_or};
    ghost use Rattle.monitors.specs.MeetMonitor.{MeetLines, IsTable};

    ghost Value = { MeetLines K };

    ghost view = { λ m. record { parts = m.parts; lines = made_or [] (λ t. t.lines.entries) m.told } };

    ghost invariant = { λ m. IsTable m.parts (made_or [] (λ t. t.lines.entries) m.told) };
}

// By hand, so that who holds one drops it by one call, whose proof stands here.
impl<K: Key> Drop for KeyedMeet<K> {
    fn drop(self) {
        let KeyedMeet {
            parts: _parts,
            told: _told,
            alloc: _alloc,
        } = self;
    }
}

impl<K: Key> KeyedMeet<K> {
    ghost use Rattle.monitors.specs.MeetMonitor.{HearsByName, IsUntold, HasKeysOf};

    /// What an intersection of so many parts was told, of which none told anything yet.
    pub fn make(alloc: Global, parts: u8) -> Self
        requires low { 2 ≤ parts }
        requires high { parts ≤ 8 }
        ensures { result ≡ record { parts = parts; lines = [] } }
    {
        KeyedMeet {
            parts,
            told: None,
            alloc,
        }
    }

    /// Hears that the entity of this key is in the part, and answers whether with this the last of the parts has told it.
    pub fn part_told(&mut self, part: u8, who: K) -> Result<bool, AllocError>
        requires { part < self.old.parts }
        ensures ok { IfOk result (λ last. HearsByName self.old self.new part who last) }
        ensures keys { HasKeysOf self.old self.new who }
        ensures parts { self.new.parts ≡ self.old.parts }
        ensures growth { OnErr result (IsUntold self.old part who) }
        ensures unchanged { OnErr result (self.new ≡ self.old) }
    {
        make(&mut self.told, self.alloc)?;
        match &mut self.told {
            Some(table) => hear(&mut table.lines, self.parts, part, who),
            None => unreachable!(),
        }
    }
}

/// Hears in a table of the tellers of entities what `KeyedMeet::part_told` hears.
fn hear<K: Key>(
    told: &mut IndexMap<K, Tellers>,
    parts: u8,
    part: u8,
    who: K,
) -> Result<bool, AllocError>
    requires table { IsTable parts told.old.entries }
    requires part { part < parts }
    ensures ok { IfOk result (λ last. HearsByName (lines_of parts told.old.entries) (lines_of parts told.new.entries) part who last) }
    ensures keys { HasKeysOf (lines_of parts told.old.entries) (lines_of parts told.new.entries) who }
    ensures growth { OnErr result (IsUntold (lines_of parts told.old.entries) part who) }
    ensures unchanged { OnErr result (told.new.entries ≡ told.old.entries) }
    ensures table { IsTable parts told.new.entries }
{
    let line = told.entry(who)?.or_insert(Tellers::none());
    Ok(line.hear(part, parts))
}
