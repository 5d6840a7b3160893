//! Where a search stands, and the steps of its computation.
ghost use Rattle.std.specs.Prelude.{◌≡◌, ◌≤◌, ◌∷◌, [], ℕ, List, All, None, slice_get, IsTrue, OnOk, MatchOption};
ghost use Rattle.scholten_core.specs.declared.letters.Letter.{Letter};
ghost use Rattle.scholten_core.specs.Computation.{Computation, IsHeld, outstanding};
ghost use Rattle.scholten_core.specs.Step.{started};
ghost use Rattle.search.specs.Net.{Said, IsLoad, outs_at};
ghost use Rattle.search.specs.declared.letters.Load.TheVariants as Load;
ghost use Rattle.credential_text.specs.declared.exprs.Expr.TheVariants as exprs;
ghost use Rattle.cred_graph.specs.Graph.{IsGraph, empty_graph};
ghost use Rattle.search.specs.Answers.{progress};
ghost use Rattle.search.specs.declared.findings.Monitor.TheVariants as Monitor;
ghost use Rattle.search.specs.Stage.{waiting_in, held_in, HoldsLetter, Holds, Sends, Delivers};

use crate::answers::node_for;
use crate::findings::{FIRST_NODES, Findings};
use crate::letters::{Held, Load};
use crate::outcomes::Finished;
use credential_text::Expr;
use names::Role;
use scholten_core::Diffusion;
use std::alloc::{AllocError, Global};

/// Where a search stands.
pub enum Stage {
    /// It runs, or ran until nothing was outstanding.
    Running(Diffusion<Load<u32>>),
    /// It met its work limit.
    Spent,
    /// A growth was refused.
    Broken,
}

// By hand, so that who holds one drops it by one call, whose proof stands here.
impl Drop for Stage {
    fn drop(self) {
        match self {
            Stage::Running(_running) => {}
            Stage::Spent | Stage::Broken => {}
        }
    }
}

/// By so many letters little is found: what came of them is forgotten in a tenth of a millisecond.
const FEW_LETTERS: u64 = 32_768;

impl Stage {
    // Whether it is that of a search that is completed, by few letters.
    pub(crate) fn is_small(&self) -> bool
        ensures { IsTrue result → (c : Computation Said) × (self.now ≡ Stage.Running c) × (outstanding c ≡ 0) }
    {
        let Stage::Running(running) = self else {
            return false;
        };
        running.is_complete() && running.sent() <= FEW_LETTERS
    }

    // Whether its tables of letters serve another search.
    pub(crate) fn has_first_room(&self) -> bool {
        let Stage::Running(running) = self else {
            return false;
        };
        running.has_first_room()
    }

    // A search for the role begins, which has found nothing yet: the role's node is there, and its letter waits, in the tables of
    // letters that the search which stood here has left, if there are any. It answers the node's number.
    pub(crate) fn begin(
        &mut self,
        found: &mut Findings,
        alloc: Global,
        role: Role,
    ) -> Result<u64, AllocError>
        requires { found.old ≡ progress empty_graph [] [] }
        ensures started { OnOk result (self.new ≡ Stage.Running (started 0 Load.Start)) }
        ensures found { OnOk result (found.new
            ≡ progress (record { nodes = exprs.Rol role ∷ []; listeners = [] ∷ []; solutions = [] }) (Monitor.Plain ∷ []) []) }
        ensures laws { OnOk result (IsGraph found.new.graph) }
    {
        found.reserve(FIRST_NODES)?;
        match self {
            Stage::Running(running) => running.restart(0, Load::Start)?,
            _ => *self = Stage::Running(Diffusion::start(alloc, 0, Load::Start)?),
        }
        node_for(found, &Expr::Rol(role))
    }
}

// The held letter of that number.
pub(crate) fn held_letter(stage: &Stage, number: u64) -> Option<Held<Load<u32>>>
    ensures { MatchOption result (held_in stage.now number ≡ None) (λ h. HoldsLetter stage.now number h) }
{
    let Stage::Running(running) = stage else {
        return None;
    };
    let Some(letter) = running.letter(number) else {
        return None;
    };
    if !letter.held {
        return None;
    }
    Some(Held {
        from: letter.from,
        to: letter.to,
        load: letter.load,
    })
}

// The waiting letter at that place is held from now on; its number and what it says.
#[inline(always)]
pub(crate) fn hold(stage: &mut Stage, place: u64) -> Option<(u64, Held<Load<u32>>)>
    ensures { MatchOption result ((slice_get (waiting_in stage.old) place ≡ None) × (stage.new ≡ stage.old))
        (λ r. (l : Letter Said) × Holds stage.old stage.new place r.0 l × HoldsLetter stage.new r.0 r.1) }
{
    let Stage::Running(running) = stage else {
        return None;
    };
    if place >= running.waiting() {
        return None;
    }
    let (number, letter) = running.take_letter(place);
    let held = Held {
        from: letter.from,
        to: letter.to,
        load: letter.load,
    };
    Some((number, held))
}

// The held letter of that number is finished, and what its receiver answers is sent, where the work limit allows it.
pub(crate) fn send(stage: &mut Stage, work: u64, number: u64, found: &mut Findings) -> Finished
    requires { (c : Computation Said) × (stage.old ≡ Stage.Running c) × IsHeld c.letters number × (c.sent ≤ work) }
    ensures sends { (outs : List (ℕ × Said)) × (outs_at found.old.graph.nodes outs ≡ found.old.outs)
        × All (λ o. IsLoad found.old.graph.nodes o.1) outs × Sends stage.old stage.new work number outs result }
    ensures findings { (found.new.graph ≡ found.old.graph) × (found.new.monitors ≡ found.old.monitors) }
{
    let Stage::Running(running) = stage else {
        unreachable!()
    };
    if work - running.sent() < found.outs.len() as u64 {
        *stage = Stage::Spent;
        return Finished::Spent;
    }
    let Ok(()) = running.finish_with(number, &mut found.outs) else {
        *stage = Stage::Broken;
        return Finished::Broken;
    };
    Finished::Done
}

// The search is broken by want of memory. This stands apart, so that a receipt that isn't refused makes no other stage.
#[cold]
#[inline(never)]
pub(crate) fn break_off(stage: &mut Stage, _refusal: AllocError)
    ensures { stage.new ≡ Stage.Broken }
{
    *stage = Stage::Broken;
}

// Gives back the memory that nothing takes, where nothing is outstanding, unless it is kept and isn't much.
#[cold]
#[inline(never)]
pub(crate) fn rest(stage: &mut Stage, found: &mut Findings, keeps_room: bool)
    ensures same { stage.new ≡ stage.old }
    ensures findings { (found.new.graph ≡ found.old.graph) × (found.new.monitors ≡ found.old.monitors) }
{
    if keeps_room && stage.is_small() && found.is_small() {
        return;
    }
    if let Stage::Running(running) = stage {
        if running.is_complete() {
            running.give_back();
            found.give_back();
        }
    }
}

// The tables of letters, of a search that is completed by few of them, are spare from now on, where there are no others.
pub(crate) fn leave_letters(stage: &mut Stage, spare: &mut Stage)
    ensures { stage.new ≡ stage.old }
{
    if spare.has_first_room() || !stage.is_small() || !stage.has_first_room() {
        return;
    }
    if let Stage::Running(running) = stage {
        *spare = Stage::Running(running.hand_over());
    }
}

// The signal at that place is delivered, where there is one. With the last one the memory that nothing takes is given back, unless
// a search that isn't large keeps it.
#[inline(always)]
pub(crate) fn deliver(stage: &mut Stage, found: &mut Findings, place: u64, keeps_room: bool) -> bool
    ensures delivers { Delivers stage.old stage.new place result }
    ensures findings { (found.new.graph ≡ found.old.graph) × (found.new.monitors ≡ found.old.monitors) }
{
    let Stage::Running(running) = stage else {
        return false;
    };
    if place >= running.signals() {
        return false;
    }
    running.signal(place);
    if running.is_complete() {
        rest(stage, found, keeps_room);
    }
    true
}
