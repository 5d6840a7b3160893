ghost use Rattle.std.specs.Prelude.{◌≡◌, ◌↔◌, ◌<◌, ◌≤◌, ◌++◌, [], ◌∷◌, IsTrue, Some, length, slice_get};
ghost use Rattle.std.specs.Prelude.{IfOk, OnOk, OnErr, MatchOption, Contains};

use crate::listeners::KeptListening;
use crate::node_lists::{NodeLists, add_listener, add_member};
use crate::solutions::Reason;
use crate::solved_hashes::SolvedHasher;
use crate::table_space::{kept_room, kept_when_empty, room_for_one};
use indexmap::map::Entry;
use indexmap::{IndexMap, IndexSet};
use std::alloc::{AllocError, Global};
use std::hash::BuildHasherDefault;
use std::marker::Model;

/// So many listeners of a node are looked through one by one. Most nodes have no more, and never touch the table of the others.
/// That table isn't filled with these when it is begun, so that no proof speaks of a loop or of a state in between.
const NEAR: usize = 8;

/// The listeners of each node, each once and in order of adding, and the solutions of all nodes with their reasons, in
/// order of adding. Entities are spoken of by number. A node's lists are its listeners and who its solutions are; listeners
/// beyond the first ones of their node stand in a table too.
#[derive(Drop)]
pub struct Tables {
    lists: Vec<NodeLists>,
    far: IndexSet<(u32, KeptListening)>,
    // By the numbers of the node and of the entity.
    reasons: IndexMap<(u32, u32), Reason<u32, u32>, BuildHasherDefault<SolvedHasher>>,
}

impl Model for Tables {
    ghost use Rattle.std.specs.Prelude.{◌≡◌, ℕ, List, map};
    ghost use Rattle.cred_graph.specs.declared.listeners.KeptListening.{KeptListening};
    ghost use Rattle.cred_graph.specs.declared.solutions.Reason.{Reason};
    ghost use Rattle.cred_graph.specs.NodeLists.{list_at};
    ghost use Rattle.cred_graph.specs.Stored.{AreFar, members_by};

    ghost Value = { List (List KeptListening) × List ((ℕ × ℕ) × Reason ℕ ℕ) };

    ghost view = { λ t. (map (λ r. r.listeners.items) t.lists.items, t.reasons.entries) };

    ghost invariant = { λ t. AreFar (map (λ r. r.listeners.items) t.lists.items) t.far.keys
        × ((n : ℕ) → list_at (map (λ r. r.members.items) t.lists.items) n ≡ members_by n t.reasons.entries) };
}

impl Tables {
    ghost use Rattle.cred_graph.specs.NodeLists.{list_at, AreSame, AddsAt};
    ghost use Rattle.cred_graph.specs.Stored.{HearsOf, HasKey, Solves, members_by};

    /// No listener and no solution of any node.
    pub fn new(alloc: Global) -> Self
        ensures { result ≡ ([], []) }
    {
        Tables {
            lists: Vec::new(alloc),
            far: IndexSet::new(alloc),
            reasons: IndexMap::with_hasher(alloc, BuildHasherDefault::new()),
        }
    }

    /// Makes room for the lists of so many nodes.
    pub fn reserve(&mut self, nodes: u64) -> Result<(), AllocError>
        ensures { self.new ≡ self.old }
    {
        let more = (nodes as usize).saturating_sub(self.lists.len());
        self.lists.reserve(more)
    }

    /// Gives back the memory that nothing takes, of a small table where that is more than half.
    pub fn give_back(&mut self)
        ensures { self.new ≡ self.old }
    {
        self.lists
            .shrink_to(kept_room(self.lists.len(), self.lists.capacity()));
        self.far.shrink_to_fit();
        self.reasons
            .shrink_to(kept_room(self.reasons.len(), self.reasons.capacity()));
    }

    /// Takes out all listeners and solutions. The room of small tables stays, if much of it was taken.
    pub fn clear(&mut self)
        ensures { self.new ≡ ([], []) }
    {
        let Tables {
            lists,
            far,
            reasons,
        } = self;
        let kept = kept_when_empty(lists.len(), lists.capacity());
        lists.clear();
        lists.shrink_to(kept);
        let kept = kept_when_empty(far.len(), far.capacity());
        far.clear();
        far.shrink_to(kept);
        let kept = kept_when_empty(reasons.len(), reasons.capacity());
        reasons.clear();
        reasons.shrink_to(kept);
    }

    /// The listeners of the node.
    pub fn listeners(&self, n: u32) -> &[KeptListening]
        ensures { result.now ≡ list_at self.now.0 n }
    {
        let n = n as usize;
        if n < self.lists.len() {
            self.lists[n].listeners.as_slice()
        } else {
            &[]
        }
    }

    /// The listener that stands here among those of the node.
    pub fn listener(&self, n: u32, i: u64) -> KeptListening
        requires { i < length (list_at self.now.0 n) }
        ensures { slice_get (list_at self.now.0 n) i ≡ Some result }
    {
        self.listeners(n)[i as usize]
    }

    /// Whether the node has this listener.
    fn has(&self, n: u32, listening: &KeptListening) -> bool
        ensures { IsTrue result ↔ Contains (list_at self.now.0 n) listening.now }
    {
        let list = self.listeners(n);
        if list.len() <= NEAR {
            return list.contains(listening);
        }
        list[..NEAR].contains(listening) || self.far.contains(&(n, *listening))
    }

    /// Lets the node have the listener, and answers whether that is new.
    pub fn add_listener(&mut self, n: u32, listening: KeptListening) -> Result<bool, AllocError>
        ensures ok { IfOk result (λ new. HearsOf self.old.0 self.new.0 n listening new) }
        ensures growth { OnErr result (Contains (list_at self.old.0 n) listening → ⊥) }
        ensures unchanged { OnErr result (AreSame self.old.0 self.new.0) }
        ensures solutions { self.new.1 ≡ self.old.1 }
    {
        if self.has(n, &listening) {
            return Ok(false);
        }
        if self.listeners(n).len() < NEAR {
            add_listener(&mut self.lists, n, listening)?;
            return Ok(true);
        }
        self.far.reserve(1)?;
        add_listener(&mut self.lists, n, listening)?;
        let _is_new = self.far.insert((n, listening)).unwrap();
        Ok(true)
    }

    /// The place of the solution, and its reason, if it is there.
    pub fn find(&self, node: u32, who: u32) -> Option<(u64, Reason<u32, u32>)>
        ensures { MatchOption result (HasKey self.now.1 (node, who) → ⊥) (λ r. slice_get self.now.1 r.0 ≡ Some ((node, who), r.1)) }
    {
        match self.reasons.get_full(&(node, who)) {
            Some((place, _solved, reason)) => Some((place as u64, *reason)),
            None => None,
        }
    }

    /// Adds a solution, and answers whether that is new. The first reason stays.
    pub fn add_solution(
        &mut self,
        node: u32,
        who: u32,
        reason: Reason<u32, u32>,
    ) -> Result<bool, AllocError>
        ensures ok { IfOk result (λ new. Solves self.old.1 self.new.1 (node, who) reason new) }
        ensures growth { OnErr result (HasKey self.old.1 (node, who) → ⊥) }
        ensures unchanged { OnErr result (self.new.1 ≡ self.old.1) }
        ensures listeners { AreSame self.old.0 self.new.0 }
    {
        let room = room_for_one(self.reasons.len(), self.reasons.capacity());
        // Where this room is refused, a new entry asks for its own.
        let _room = self.reasons.reserve(room);
        match self.reasons.entry((node, who))? {
            Entry::Occupied(_found) => Ok(false),
            Entry::Vacant(place) => {
                add_member(&mut self.lists, node, who)?;
                let _added = place.insert_entry(reason);
                Ok(true)
            }
        }
    }

    /// The numbers of the node's solutions.
    pub fn members(&self, n: u32) -> &[u32]
        ensures { result.now ≡ members_by n self.now.1 }
    {
        let n = n as usize;
        if n < self.lists.len() {
            self.lists[n].members.as_slice()
        } else {
            &[]
        }
    }

    /// The number of the entity that stands here among the node's solutions.
    pub fn solution(&self, n: u32, i: u64) -> u32
        requires { i < length (members_by n self.now.1) }
        ensures { slice_get (members_by n self.now.1) i ≡ Some result }
    {
        self.members(n)[i as usize]
    }
}
