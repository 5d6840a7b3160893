ghost use Rattle.std.specs.Prelude.{◌≡◌, ◌<◌, ◌≤◌, IfOk, OnOk, OnErr};
ghost use Rattle.std.specs.FinSet as set;

use crate::keyed_meets::KeyedMeet;
use names::Entity;
use std::alloc::{AllocError, Global};
use std::marker::Model;

/// What an intersection of 2 to 8 parts was told: which part told which entity. Contracts see the set of these pairs.
/// Parts are counted from 0.
#[derive(Drop)]
pub struct MeetMonitor {
    told: KeyedMeet<Entity>,
}

impl Model for MeetMonitor {
    ghost use Rattle.monitors.specs.MeetMonitor.{MeetTold, meet_code, told_by};

    ghost Value = { MeetTold };

    ghost coded = { meet_code };

    ghost view = { λ m. told_by (λ who. who) m.told };
}

impl MeetMonitor {
    ghost use Rattle.monitors.specs.MeetMonitor.{HasTold, HearsPart};

    /// The monitor of an intersection of so many parts that was told nothing yet.
    pub fn make(alloc: Global, parts: u8) -> Self
        requires low { 2 ≤ parts }
        requires high { parts ≤ 8 }
        ensures { result ≡ record { parts = parts; told = set.empty } }
    {
        MeetMonitor {
            told: KeyedMeet::make(alloc, parts),
        }
    }

    /// Hears that the entity is in the part, and answers whether with this the last of the parts has told it.
    pub fn part_told(&mut self, part: u8, who: Entity) -> Result<bool, AllocError>
        requires { part < self.old.parts }
        ensures ok { IfOk result (λ last. HearsPart self.old self.new part who last) }
        ensures told { OnOk result (HasTold self.new part who) }
        ensures parts { self.new.parts ≡ self.old.parts }
        ensures growth { OnErr result (HasTold self.old part who → ⊥) }
        ensures unchanged { OnErr result (self.new ≡ self.old) }
    {
        self.told.part_told(part, who)
    }
}
