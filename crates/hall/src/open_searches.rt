//! A search that was opened and not ended: its steps, what one of its tenant's calls does to it, and what is told of it.
ghost use Rattle.std.specs.Prelude.{◌≡◌, ◌≢◌, ◌⊎◌, ℕ, List, [], MatchOption, IfOk, OnOk, OnErr};
ghost use Rattle.std.specs.Result.{MatchResult};
ghost use Rattle.search.specs.Ending.{Members};
ghost use Rattle.search.specs.Search.{SearchState, IsCompleted, Settles, settled_of};
ghost use Rattle.hall.specs.declared.calls.requests.Request.TheVariants as request;
ghost use Rattle.hall.specs.declared.calls.replies.Reply.TheVariants as reply;
ghost use Rattle.hall.specs.{Answers.answer_of, Answers.IsToldOver};
ghost use Rattle.hall.specs.Hall.{known, told_as, IsCarriedOn, IsMade, StepsSearch};
ghost use Rattle.search.specs.Stage.{IsQuiet, waiting_in, signals_in};
ghost use Rattle.hall.specs.declared.faults.Fault.TheVariants.{Memory};
ghost use Rattle.hall.specs.declared.calls.steps.Step.TheVariants.{Take, Signal};

use crate::batches::Batch;
use crate::calls::{Answer, Step, Stepped};
use crate::faults::Fault;
use crate::lendable_searches::LendableSearch;
use crate::lists::Names;
use crate::orders::{Next, Order};
use crate::working::work;
use names::Entity;
use proof_trees::Proof;
use search::{Finished, Search, Status, Tables, Task};
use std::alloc::{AllocError, Global};
use std::marker::Model;
use std::sync::Arc;

/// A search, with the journal's length at its opening.
#[derive(Drop)]
pub(crate) struct OpenSearch {
    pub(crate) opened_at: u64,
    pub(crate) carried: LendableSearch,
}

impl Model for OpenSearch {
    ghost use Rattle.std.specs.Coded.{codes};
    ghost use Rattle.search.specs.contracts.stages.Stage as running;
    ghost use Rattle.search.specs.contracts.findings.Monitor as memory;
    ghost use Rattle.hall.specs.Kept.{IsLendable, lendable_search};
    ghost use Rattle.hall.specs.Hall.{Running};

    ghost Value = { Running };

    ghost coded = { Prim.hlevel (codes, running.the_row.coded, memory.the_row.coded) };

    ghost view = { λ o. record { opened_at = o.opened_at; search = lendable_search o.carried } };

    ghost invariant = { λ o. IsLendable o.carried };
}

impl OpenSearch {
    ghost use Rattle.std.specs.Prelude.{◌≤◌, ◌<◌, None, length, slice_get};
    ghost use Rattle.search.specs.{Finish.Takes, Search.IsSoundStage};
    ghost use Rattle.std.specs.Arc.{arc_value};
    ghost use Rattle.hall.specs.Batches.{IsLookedUp, name_of};
    ghost use Rattle.hall.specs.{Kept.Continues, Work.WorksThrough};

    /// Makes the step. A completed search stays as it is.
    pub(crate) fn step(&mut self, step: &Step) -> Stepped
        ensures stepped { StepsSearch self.old.search step.now result self.new.search }
        ensures continues { Continues self.old self.new }
    {
        let stepped = match &mut self.carried {
            LendableSearch::Own(search) => make(search, step),
            _ => unmoved(step),
        };
        self.carried.search().kept();
        stepped
    }

    /// Takes the waiting letter at the place, where there is one.
    pub(crate) fn take(&mut self, place: u64) -> Result<Option<Task>, AllocError>
        ensures taken { IfOk result (λ task. MatchOption task
            ((slice_get (waiting_in self.old.search.stage) place ≡ None) × (self.new.search ≡ self.old.search))
            (λ t. Takes self.old.search self.new.search place t.letter t.need × (arc_value t.snap ≡ self.old.search.snapshot))) }
        ensures sound { OnOk result (IsSoundStage self.new.search.stage) }
        ensures unchanged { OnErr result (self.new ≡ self.old) }
        ensures waits { OnErr result (place < length (waiting_in self.old.search.stage)) }
        ensures continues { Continues self.old self.new }
    {
        let LendableSearch::Own(search) = &mut self.carried else {
            self.carried.search().kept();
            return Ok(None);
        };
        let task = search.take(place)?;
        search.kept();
        Ok(task)
    }

    /// Carries the search on until nothing more of it can be, and tells what it has come to.
    pub(crate) fn drive(&mut self) -> Result<Answer, Fault>
        ensures driven { IsCarriedOn self.old.search self.new.search }
        ensures told { IsToldOver (known self.new.search) request.Poll (told_as reply.Answered result) }
        ensures continues { Continues self.old self.new }
    {
        if let LendableSearch::Own(search) = &mut self.carried {
            search.drive();
        }
        let search = self.carried.search();
        search.kept();
        told_of(search)
    }

    /// The search, shared from now on, where it is completed. Memory may lack the first time.
    pub(crate) fn share(&mut self, alloc: Global) -> Result<Option<Arc<Search>>, AllocError>
        ensures shared { IfOk result (λ r. MatchOption r (IsCompleted self.old.search.stage → ⊥)
            (λ shared. IsCompleted self.old.search.stage × (arc_value shared ≡ self.old.search))) }
        ensures lacks { OnErr result (IsCompleted self.old.search.stage) }
        ensures same { self.new ≡ self.old }
    {
        if !self.carried.search().is_completed() {
            return Ok(None);
        }
        Ok(Some(self.carried.lend(alloc)?))
    }

    /// Keeps no more room than it needs: from now on, where it isn't completed yet. The tables of its letters are spare then, where
    /// there are no others.
    pub(crate) fn give_back(&mut self, spare: &mut Tables)
        ensures { self.new ≡ self.old }
    {
        self.carried.give_back(spare);
    }

    /// Hands in the letters of the batch, which are of this search under that name, and goes on with it where that is asked and
    /// anything of it is left to do. Answers how many letters are done, and how it went on, if it did.
    #[inline(always)]
    pub(crate) fn work(
        &mut self,
        who: &Entity,
        number: u64,
        order: Order,
        most: usize,
        batch: &mut Batch,
    ) -> (u64, Option<Next>)
        requires looked_up { IsLookedUp batch.old }
        requires of { MatchOption batch.old.of (Unit {0}) (λ of. name_of of ≡ (who.now, number)) }
        requires space { most ≤ batch.old.room }
        ensures worked { WorksThrough order most (who.now, number) self.old.search batch.old result.0 result.1 self.new.search batch.new }
        ensures continues { Continues self.old self.new }
    {
        let LendableSearch::Own(search) = &mut self.carried else {
            self.carried.search().kept();
            batch.let_go();
            return (0, None);
        };
        work(search, who, number, order, most, batch)
    }
}

/// What is told of the search: to each account that has it a poll of it is answered so. Memory may lack for a list alone.
pub fn told_of(search: &Search) -> Result<Answer, Fault>
    ensures told { MatchResult result (λ a. a ≡ answer_of (settled_of search.now))
        (λ f. (f ≡ Memory) × ((names : List (List ℕ)) × (settled_of search.now ≡ Members names))) }
    ensures served { IsToldOver (known search.now) request.Poll (told_as reply.Answered result) }
{
    Ok(match search.status() {
        Status::Working => Answer::Working,
        Status::Yes => Answer::Yes,
        Status::No => Answer::No,
        Status::Members => Answer::Members(Names::new(search.members()?)),
        Status::Spent => Answer::Spent,
        Status::Broken => Answer::Broken,
    })
}

/// Why the entity is a member of the role that the search asked about: to each account that has it a request for the proof is
/// answered so. The order of refusals: 52, 53, and want of memory.
pub fn proof_of(alloc: Global, search: &Search, member: &Entity) -> Result<Proof, Fault>
    ensures { IsToldOver (known search.now) (λ k. request.Proof k member.now) (told_as reply.Proof result) }
{
    Ok(proof_trees::proof_of(alloc, search, member)?)
}

/// The step that goes on with the tenant's search of the number, if there is one: the oldest signal first.
pub(crate) fn next_step(search: &Search, who: Entity, number: u64) -> Option<Step>
    ensures { MatchOption result (IsQuiet search.now.stage) (λ step. ((step ≡ Take who number 0) × (waiting_in search.now.stage ≢ []))
        ⊎ ((step ≡ Signal who number 0) × (signals_in search.now.stage ≢ []))) }
{
    if search.signals() > 0 {
        return Some(Step::Signal(who, number, 0));
    }
    if search.waiting() > 0 {
        return Some(Step::Take(who, number, 0));
    }
    None
}

/// What becomes of a step of a completed search, which stays as it is.
fn unmoved(step: &Step) -> Stepped
    ensures { (s : SearchState) → IsCompleted s.stage → IsMade s step.now result s }
{
    match step {
        Step::Take(..) | Step::Signal(..) => Stepped::Nothing,
        Step::GiveBack(..) | Step::Finish(..) => Stepped::NotHeld,
    }
}

/// Makes the step of the search.
fn make(search: &mut Search, step: &Step) -> Stepped
    ensures made { IsMade search.old step.now result search.new }
    ensures settles { Settles search.old search.new }
{
    match *step {
        Step::Take(_who, _number, place) => match search.take_letter(place) {
            Some((letter, need)) => Stepped::Took(letter, need),
            None => Stepped::Nothing,
        },
        Step::GiveBack(_who, _number, letter) => {
            if search.put_back(letter) {
                Stepped::Back
            } else {
                Stepped::NotHeld
            }
        }
        Step::Finish(_who, _number, letter, hint) => match search.finish(letter, hint) {
            Finished::Done => Stepped::Done,
            Finished::BadHint => Stepped::BadHint,
            Finished::Spent => Stepped::Spent,
            Finished::Broken => Stepped::Broken,
            Finished::NotHeld => Stepped::NotHeld,
        },
        Step::Signal(_who, _number, place) => {
            if search.signal(place) {
                Stepped::Signalled
            } else {
                Stepped::Nothing
            }
        }
    }
}
