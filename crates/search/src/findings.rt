ghost use Rattle.std.specs.Prelude.{◌≡◌, ℕ, [], ◌∷◌, ◌++◌, OnOk, OnErr};
ghost use Rattle.cred_graph.specs.Graph.{empty_graph};

use crate::letters::Load;
use cred_graph::Graph;
use monitors::{KeyedMeet, MeetMonitor, ToldKeys};
use std::alloc::{AllocError, Global};
use std::collections::VecDeque;
use std::marker::Model;

/// What a node remembers of what it was told, as contracts see it.
pub enum Monitor {
    /// An entity or a role remembers its solutions alone.
    Plain,
    /// A linked role remembers the members of its base.
    Link(ToldKeys),
    Meet(MeetMonitor),
}

/// What a node remembers of what it was told, with numbers for names.
#[derive(Drop)]
pub enum NumberedMonitor {
    Plain,
    Link(ToldKeys<u32>),
    Meet(KeyedMeet<u32>),
}

/// What a search has found: the graph, and beside each node its monitor. And what a receiver answers, until it is sent,
/// in a list that serves the next receipt too, where it isn't long. Contracts see its letters and monitors with names.
pub struct Findings {
    pub(crate) graph: Graph,
    pub(crate) monitors: Vec<NumberedMonitor>,
    pub(crate) outs: VecDeque<(u64, Load<u32>)>,
}

impl Model for Findings {
    ghost use Rattle.std.specs.Coded.{codes};
    ghost use Rattle.names.specs.contracts.entities.Entity as entity;
    ghost use Rattle.search.specs.contracts.letters.Load as said;
    ghost use Rattle.search.specs.contracts.findings.Monitor as memory;
    ghost use Rattle.search.specs.Answers.{Progress};
    ghost use Rattle.search.specs.Numbered.{AreNumbered, progress_at};

    ghost Value = { Progress };

    ghost coded = { Prim.hlevel (codes, (said.the_row entity.the_row).coded, memory.the_row.coded) };

    ghost view = { λ f. progress_at f.graph f.monitors.items f.outs.items };

    ghost invariant = { λ f. AreNumbered f.graph f.monitors.items f.outs.items };
}

// By hand, so that who holds some drops them by one call, whose proof stands here.
impl Drop for Findings {
    fn drop(self) {
        let Findings {
            graph: _graph,
            monitors: _monitors,
            outs: _outs,
        } = self;
    }
}

/// A list of answers keeps no more room than this: that of one large answer isn't kept to the search's end, and a solution's
/// listeners are told without a list anew for each.
const MOST_ROOM: usize = 64;

/// Room for so many nodes is made before the first one is added, as many as four groups of a map's index take: what begins
/// smaller is moved several times in a search of a hundred letters, and a table of the asked role's node alone would be moved
/// for the next.
pub(crate) const FIRST_NODES: u64 = 36;

/// An emptied list of monitors gives its room back where it is less than that, or more than for so many nodes.
const MOST_NODES: u64 = 4096;

impl Findings {
    ghost use Rattle.cred_graph.specs.declared.listeners.Listening.{Listening};
    ghost use Rattle.cred_graph.specs.Graph.{Listens};
    ghost use Rattle.cred_graph.specs.Numbers.{IsNamed};
    ghost use Rattle.search.specs.Answers.{progress};
    ghost use Rattle.search.specs.Net.{IsLoad, load_at};

    // What was found is forgotten. Tables keep the room that a small search needs.
    pub(crate) fn forget(&mut self)
        ensures { self.new ≡ progress empty_graph [] [] }
    {
        self.clear();
        self.graph.clear();
        self.monitors.clear();
        let room = self.monitors.capacity();
        let is_kept = FIRST_NODES <= room as u64 && room as u64 <= MOST_NODES;
        self.monitors.shrink_to(if is_kept { room } else { 0 });
    }

    // The graph. Each entity that a listener's port names has a node.
    #[inline(always)]
    pub(crate) fn graph(&self) -> &Graph
        ensures graph { result.now ≡ self.now.graph }
        ensures ports { (n : ℕ) (l : Listening) → Listens result.now n l → IsNamed result.now.nodes l.port }
    {
        &self.graph
    }

    // Makes room for so many nodes more, and for as many answers.
    pub(crate) fn reserve(&mut self, count: u64) -> Result<(), AllocError>
        ensures { self.new ≡ self.old }
    {
        self.graph.reserve(count)?;
        self.monitors.reserve(count as usize)?;
        self.outs.reserve(count as usize)
    }

    // A letter for the node goes to the end of the list of answers.
    #[inline(always)]
    pub(crate) fn send(&mut self, to: u64, load: Load<u32>) -> Result<(), AllocError>
        requires { IsLoad self.old.graph.nodes load }
        ensures sent { OnOk result (self.new
            ≡ record self.old { outs = self.old.outs ++ (to, load_at self.old.graph.nodes load) ∷ [] }) }
        ensures unchanged { OnErr result (self.new ≡ self.old) }
    {
        let Ok(()) = self.outs.push_back((to, load)) else {
            return Err(AllocError);
        };
        Ok(())
    }

    // Whether the tables have room for no more than a small search needs.
    pub(crate) fn is_small(&self) -> bool {
        self.monitors.capacity() as u64 <= MOST_NODES
    }

    // The list of answers is empty, with the room that it had if that isn't much.
    pub(crate) fn clear(&mut self)
        ensures { self.new ≡ record self.old { outs = [] } }
    {
        self.outs.clear();
        if self.outs.capacity() > MOST_ROOM {
            self.outs.shrink_to(MOST_ROOM);
        }
    }

    // Gives back the memory that nothing takes. The list of monitors is moved for it only where less than half of its room
    // is taken.
    #[cold]
    #[inline(never)]
    pub(crate) fn give_back(&mut self)
        ensures { self.new ≡ record self.old { outs = [] } }
    {
        self.outs.clear();
        self.outs.shrink_to_fit();
        let room = self.monitors.capacity();
        let is_kept = room / 2 <= self.monitors.len();
        self.monitors.shrink_to(if is_kept { room } else { 0 });
        self.graph.give_back();
    }
}
