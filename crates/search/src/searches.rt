ghost use Rattle.std.specs.Prelude.{◌≡◌, ◌<◌, ◌≤◌, ◌↔◌, List, true, false, None, Some, length, option_copied, slice_get};
ghost use Rattle.std.specs.Prelude.{IsTrue, IfOk, IfSome, OnErr, MatchOption};
ghost use Rattle.std.specs.Arc.{arc_value};
ghost use Rattle.names.specs.declared.roles.Role.{Role};
ghost use Rattle.credential_text.specs.declared.exprs.Expr.{Expr};
ghost use Rattle.rt0_rules.specs.Membership.{AreMembers};
ghost use Rattle.rt0_rules.specs.FixedPoint.{IsExact};
ghost use Rattle.cred_graph.specs.Graph.{IsNode, Known};
ghost use Rattle.scholten_core.specs.declared.letters.Letter.{Letter};
ghost use Rattle.search.specs.Net.{Said, IsLoad, OwesRules, IsJustified};
ghost use Rattle.search.specs.Ending.{MaySettle, Nothing, Members};
ghost use Rattle.search.specs.Search.{IsAnswered, status_of, come_to, IsSoundStage};
ghost use Rattle.search.specs.Stage.{IsQuiet, NoneHeld};
ghost use Rattle.scholten_core.specs.Computation.{Computation};

use crate::answers::receive;
use crate::findings::Findings;
use crate::hints::{hint_is_right, role_needed};
use crate::letters::{Held, Load};
use crate::members::solutions_in_order;
use crate::outcomes::{Finished, Status};
use crate::queries::{Hint, Need, Query, Task};
use crate::stages::{Stage, break_off, deliver, held_letter, hold, leave_letters, rest, send};
use crate::tables::Tables;
use cred_graph::Graph;
use names::{Entity, Role};
use scholten_core::Diffusion;
use snapshots::{Snapshot, Span};
use std::alloc::{AllocError, Global};
use std::marker::Model;
use std::mem;
use std::sync::Arc;

/// One search, from its opening to its answer.
pub struct Search {
    query: Query,
    work: u64,
    snapshot: Arc<Snapshot>,
    found: Findings,
    stage: Stage,
    // Whether it keeps the room of its tables once it is completed, where that isn't much.
    keeps_room: bool,
}

impl Model for Search {
    ghost use Rattle.std.specs.Arc.{arc_value};
    ghost use Rattle.std.specs.Coded.{codes};
    ghost use Rattle.search.specs.contracts.stages.Stage as running;
    ghost use Rattle.search.specs.contracts.findings.Monitor as memory;
    ghost use Rattle.search.specs.Search.{SearchState, IsKept};

    ghost Value = { SearchState };

    ghost coded = { Prim.hlevel (codes, running.the_row.coded, memory.the_row.coded) };

    ghost view = { λ s. record {
      query = s.query;
      work = s.work;
      snapshot = arc_value s.snapshot;
      graph = s.found.graph;
      monitors = s.found.monitors;
      stage = s.stage;
    } };

    ghost invariant = { λ s. IsKept (record {
      query = s.query;
      work = s.work;
      snapshot = arc_value s.snapshot;
      graph = s.found.graph;
      monitors = s.found.monitors;
      stage = s.stage;
    }) };
}

impl Drop for Search {
    fn drop(self) {
        let Search {
            query: _query,
            work: _work,
            snapshot: _snapshot,
            found: _found,
            stage: _stage,
            keeps_room: _,
        } = self;
    }
}

impl Search {
    ghost use Rattle.search.specs.Search.{SearchState, new_search, IsOutstanding, IsCompleted, rows_of, asked_role, net_of};
    ghost use Rattle.search.specs.Search.{SameQuestion, Settles, settled_of};
    ghost use Rattle.search.specs.Stage.{HoldsLetter, letter_in, waiting_in, signals_in, held_in, stage_marked, Delivers};
    ghost use Rattle.search.specs.Finish.{IsSpanFor, need_for, need_of, Needs, Takes, TakesHeld, Receives, Finishes};

    /// A search over the snapshot that may send so many letters, at least one. One letter, to the asked role, waits.
    pub fn open(
        alloc: Global,
        snapshot: Arc<Snapshot>,
        query: Query,
        work: u64,
    ) -> Result<Search, AllocError>
        requires { 0 < work }
        ensures { IfOk result (λ s. s ≡ new_search query work (arc_value snapshot)) }
    {
        Search::open_in(&mut Tables::new(alloc), alloc, snapshot, query, work)
    }

    /// A search as `open` makes it, in the spare tables, in whose place stand others then, with no memory.
    pub fn open_in(
        spare: &mut Tables,
        alloc: Global,
        snapshot: Arc<Snapshot>,
        query: Query,
        work: u64,
    ) -> Result<Search, AllocError>
        requires { 0 < work }
        ensures { IfOk result (λ s. s ≡ new_search query work (arc_value snapshot)) }
    {
        let Tables {
            mut found,
            mut stage,
        } = mem::replace(spare, Tables::new(alloc));
        stage.begin(&mut found, alloc, query.role())?;
        Ok(Search {
            query,
            work,
            snapshot,
            found,
            stage,
            keeps_room: true,
        })
    }

    /// Whether it is completed, by few letters and with no more room than a small search needs, so that to empty its tables takes
    /// little time.
    pub fn is_small(&self) -> bool {
        self.found.is_small() && self.stage.is_small()
    }

    /// Ends the search. Its tables, emptied, are spare from now on: those of its letters only where the search is small and there
    /// are no others.
    pub fn leave_tables(self, spare: &mut Tables) {
        let Search {
            query: _query,
            work: _work,
            snapshot: _snapshot,
            mut found,
            mut stage,
            keeps_room: _,
        } = self;
        if found.is_small() {
            leave_letters(&mut stage, &mut spare.stage);
        }
        found.forget();
        spare.found = found;
    }

    /// Gives back the memory that nothing takes, where the search is completed, and else as soon as it is. Before that is asked, a
    /// search that isn't large keeps the room of its tables, for the next one that is opened in them. Those of its letters, if it is
    /// completed by few, are spare from now on, where there are no others.
    pub fn give_back(&mut self, spare: &mut Tables)
        ensures { self.new ≡ self.old }
    {
        self.keeps_room = false;
        leave_letters(&mut self.stage, &mut spare.stage);
        rest(&mut self.stage, &mut self.found, false);
    }

    /// How many letters wait.
    pub fn waiting(&self) -> u64
        ensures { result ≡ length (waiting_in self.now.stage) }
    {
        let Stage::Running(running) = &self.stage else {
            return 0;
        };
        running.waiting()
    }

    /// How many signals are under way.
    pub fn signals(&self) -> u64
        ensures { result ≡ length (signals_in self.now.stage) }
    {
        let Stage::Running(running) = &self.stage else {
            return 0;
        };
        running.signals()
    }

    /// What the search has come to.
    pub fn status(&self) -> Status
        ensures is { result ≡ status_of (settled_of self.now) }
        ensures working { (result ≡ Status.Working) ↔ IsOutstanding self.now.stage }
        ensures completed { IsAnswered result ↔ IsCompleted self.now.stage }
        ensures sound { IsSoundStage self.now.stage }
        ensures ending { MaySettle self.now.work (rows_of self.now) self.now.query Nothing (settled_of self.now) }
        ensures exact { IsCompleted self.now.stage → IsExact (rows_of self.now) (asked_role self.now.query) (Known self.now.graph) }
        ensures rules { (c : Computation Said) → self.now.stage ≡ Stage.Running c
            → OwesRules (rows_of self.now)
            (asked_role self.now.query) (net_of self.now.graph self.now.monitors c) }
    {
        status_at(&self.stage, self.found.graph(), &self.query)
    }

    /// Whether anything of the search is outstanding: then, and only then, its status is that it works.
    pub fn is_outstanding(&self) -> bool
        ensures outstanding { IsTrue result ↔ IsOutstanding self.now.stage }
        ensures unsettled { IsTrue result ↔ (settled_of self.now ≡ Nothing) }
    {
        let Stage::Running(running) = &self.stage else {
            return false;
        };
        !running.is_complete()
    }

    /// The members of the asked role, in order, each once. A completed search has them.
    pub fn members(&self) -> Result<Vec<Entity>, AllocError>
        requires { IsCompleted self.now.stage }
        ensures members { IfOk result (λ members. AreMembers (rows_of self.now) (asked_role self.now.query) members.items) }
        ensures settled { IfOk result (λ members.
            (role : Role) → self.now.query ≡ Query.Who role → settled_of self.now ≡ Members members.items) }
    {
        let alloc = *self.found.monitors.allocator();
        solutions_in_order(alloc, self.found.graph())
    }

    /// Takes the waiting letter at that place, in order of sending, without the snapshot: its number, and what it
    /// needs.
    #[inline(always)]
    pub fn take_letter(&mut self, place: u64) -> Option<(u64, Need)>
        ensures taken { MatchOption result ((slice_get (waiting_in self.old.stage) place ≡ None) × (self.new ≡ self.old))
            (λ r. Takes self.old self.new place r.0 r.1) }
        ensures settles { Settles self.old self.new }
    {
        let Some((number, held)) = self.take_held(place) else {
            return None;
        };
        let need = match self.rows_for(&held) {
            Some(role) => Need::Rows(*role),
            None => Need::Nothing,
        };
        Some((number, need))
    }

    /// The role whose rows the letter in hand needs, if it needs any.
    #[inline(always)]
    pub fn rows_for(&self, held: &Held<Load<u32>>) -> Option<&Role>
        requires { held.now.to < length self.now.graph.nodes }
        ensures { (e : Expr) × IsNode self.now.graph held.now.to e
            × (need_for (option_copied result) ≡ need_of e held.now.load) }
    {
        role_needed(self.graph(), held)
    }

    /// Takes the waiting letter at that place, in order of sending. Want of memory changes nothing, and comes only where a
    /// letter waits there.
    pub fn take(&mut self, place: u64) -> Result<Option<Task>, AllocError>
        ensures none { IfOk result (λ r. r ≡ None → (slice_get (waiting_in self.old.stage) place ≡ None) × (self.new ≡ self.old)) }
        ensures task { IfOk result (λ r. IfSome r (λ t. Takes self.old self.new place t.letter t.need)) }
        ensures snapshot { IfOk result (λ r. IfSome r (λ t. arc_value t.snap ≡ self.old.snapshot)) }
        ensures settles { Settles self.old self.new }
        ensures unchanged { OnErr result (self.new ≡ self.old) }
        ensures waits { OnErr result (place < length (waiting_in self.old.stage)) }
    {
        if place >= self.waiting() {
            return Ok(None);
        }
        let snap = self.snapshot.clone()?;
        let Some((letter, need)) = self.take_letter(place) else {
            return Ok(None);
        };
        Ok(Some(Task { letter, need, snap }))
    }

    /// The held letter of that number waits again. False where it isn't held.
    pub fn put_back(&mut self, letter: u64) -> bool
        ensures held { result ≡ false → held_in self.old.stage letter ≡ None }
        ensures unchanged { result ≡ false → self.new ≡ self.old }
        ensures waits { result ≡ true → ((l : Letter Said) × (held_in self.old.stage letter ≡ Some l))
            × (self.new ≡ record self.old { stage = stage_marked letter false self.old.stage }) }
        ensures settles { Settles self.old self.new }
    {
        let Some(_held) = held_letter(&self.stage, letter) else {
            return false;
        };
        let Stage::Running(running) = &mut self.stage else {
            unreachable!()
        };
        running.put_back(letter);
        true
    }

    /// Finishes the held letter of that number with what was looked up. Where a growth is refused the search is broken.
    #[inline(always)]
    pub fn finish(&mut self, letter: u64, hint: Hint) -> Finished
        ensures finishes { Finishes self.old self.new letter hint result }
        ensures settles { Settles self.old self.new }
    {
        let Some(held) = held_letter(&self.stage, letter) else {
            return Finished::NotHeld;
        };
        if hint_is_right(self.found.graph(), &self.snapshot, &held, &hint) {
            self.receive_held(letter, &held, hint.span())
        } else {
            self.put_back(letter);
            Finished::BadHint
        }
    }

    /// Takes the waiting letter at that place, in order of sending: its number, and the letter in hand. `rows_for` tells what it
    /// needs, and copies nothing.
    #[inline(always)]
    pub fn take_held(&mut self, place: u64) -> Option<(u64, Held<Load<u32>>)>
        ensures taken { MatchOption result ((slice_get (waiting_in self.old.stage) place ≡ None) × (self.new ≡ self.old))
            (λ r. TakesHeld self.old self.new place r.0 r.1) }
        ensures load { IfSome result (λ r. IsLoad self.old.graph.nodes r.1.load) }
        ensures settles { Settles self.old self.new }
    {
        hold(&mut self.stage, place)
    }

    // The letter in hand is received, and its receiver's answers are sent. Where the rows of a role stand may have been
    // looked up. Where a growth is refused the search is broken.
    #[inline(always)]
    pub(crate) fn receive_held(
        &mut self,
        letter: u64,
        held: &Held<Load<u32>>,
        looked_up: Option<&Span>,
    ) -> Finished
        requires held { HoldsLetter self.old.stage letter held.now }
        requires span { (e : Expr) → IsNode self.old.graph held.now.to e → IsSpanFor self.old.snapshot.vaults e (option_copied looked_up) }
        ensures receives { Receives self.old self.new letter (letter_in held.now) result }
        ensures settles { Settles self.old self.new }
    {
        let snapshot: &Snapshot = &self.snapshot;
        let _asker = snapshot.asker();
        self.found.clear();
        match receive(&mut self.found, snapshot, held, looked_up) {
            Ok(()) => send(&mut self.stage, self.work, letter, &mut self.found),
            Err(refusal) => {
                break_off(&mut self.stage, refusal);
                Finished::Broken
            }
        }
    }

    /// Delivers the signal at that place, the oldest first. False where there is none.
    #[inline(always)]
    pub fn signal(&mut self, place: u64) -> bool
        ensures delivered { Delivers self.old.stage self.new.stage place result }
        ensures findings { (self.new.graph ≡ self.old.graph) × (self.new.monitors ≡ self.old.monitors) }
        ensures question { SameQuestion self.old self.new }
        ensures settles { Settles self.old self.new }
    {
        deliver(&mut self.stage, &mut self.found, place, self.keeps_room)
    }

    /// Whether nothing of the search can be carried on before a letter that is held comes back. Where none is held, the
    /// search has then settled.
    pub fn is_quiet(&self) -> bool
        ensures quiet { IsTrue result ↔ IsQuiet self.now.stage }
        ensures settled { IsQuiet self.now.stage → NoneHeld self.now.stage → IsOutstanding self.now.stage → ⊥ }
    {
        let Stage::Running(running) = &self.stage else {
            return true;
        };
        running.is_complete() || (running.waiting() == 0 && running.signals() == 0)
    }

    /// Whether the search is completed. Then it holds no letter, and nothing changes it again.
    pub fn is_completed(&self) -> bool
        ensures completed { IsTrue result ↔ IsCompleted self.now.stage }
        ensures exact { IsCompleted self.now.stage → IsExact (rows_of self.now) (asked_role self.now.query) (Known self.now.graph) }
    {
        match self.status() {
            Status::Yes | Status::No | Status::Members => true,
            Status::Working | Status::Spent | Status::Broken => false,
        }
    }

    /// Where the search runs, its computation is a sound one: deficits count what is outstanding, and the engaged nodes are a tree
    /// below the environment. It does nothing.
    pub fn kept(&self)
        ensures sound { IsSoundStage self.now.stage }
    {
        let Stage::Running(running) = &self.stage else {
            return;
        };
        let _complete = running.is_complete();
    }

    /// What the search is for.
    pub fn query(&self) -> Query
        ensures { result ≡ self.now.query }
    {
        self.query
    }

    /// What the search reads.
    pub fn snapshot(&self) -> &Arc<Snapshot>
        ensures { arc_value result.now ≡ self.now.snapshot }
    {
        &self.snapshot
    }

    /// What the search has found.
    pub fn graph(&self) -> &Graph
        ensures graph { result.now ≡ self.now.graph }
        ensures reasons { (c : Computation Said) → self.now.stage ≡ Stage.Running c
            → IsJustified (rows_of self.now) (asked_role self.now.query) self.now.graph }
    {
        self.found.graph()
    }
}

// What a search of this stage has come to, whose graph is this.
fn status_at(stage: &Stage, graph: &Graph, query: &Query) -> Status
    ensures is { result ≡ status_of (come_to stage.now graph.now query.now) }
    ensures sound { IsSoundStage stage.now }
{
    match stage {
        Stage::Spent => Status::Spent,
        Stage::Broken => Status::Broken,
        Stage::Running(running) => {
            if !running.is_complete() {
                return Status::Working;
            }
            let Query::Ask(_role, who) = query else {
                return Status::Members;
            };
            match graph.reason(0, who) {
                Some(_reason) => Status::Yes,
                None => Status::No,
            }
        }
    }
}
