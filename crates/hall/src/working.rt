//! What a worker does to one search: its letters are handed in, and steps of it are made in a row.
ghost use Rattle.std.specs.Prelude.{◌≡◌, ◌+◌, ◌++◌, ◌∷◌, ◌<◌, ◌≤◌, List, ℕ, [], length, map, vec_len, vec_capacity};
ghost use Rattle.std.specs.Prelude.{Some, MatchOption, option_copied, option_map, false, if◌then◌else◌};
ghost use Rattle.std.specs.{List.AllWithin, Arc.arc_value};
ghost use Rattle.search.specs.declared.queries.Hint.TheVariants as hint;
ghost use Rattle.search.specs.{Finish.need_for, Stage.IsQuiet};
ghost use Rattle.hall.specs.Hall.{StepsEach};
ghost use Rattle.hall.specs.Batches.{IsEmpty, IsLookedUp, IsLookedUpIn, letter_of, name_of, named};
ghost use Rattle.hall.specs.Work.{HandsIn, HandsInBatch, GoesOn, WentAs, WorksThrough, gives_back};

use crate::batches::{Batch, HeldLetter, NamedSearch};
use crate::orders::{Next, Order};
use names::{Entity, Role};
use search::{Finished, Hint, Need, Search};
use snapshots::Snapshot;
use std::sync::Arc;

/// Hands in the letters of the batch, which are of this search under that name, and goes on with it where that is asked and
/// anything of it is left to do. Answers how many letters are done, and how it went on, if it did.
#[inline(always)]
pub(crate) fn work(
    search: &mut Search,
    who: &Entity,
    number: u64,
    order: Order,
    most: usize,
    batch: &mut Batch,
) -> (u64, Option<Next>)
    requires looked_up { IsLookedUp batch.old }
    requires of { MatchOption batch.old.of (Unit {0}) (λ of. name_of of ≡ (who.now, number)) }
    requires space { most ≤ batch.old.room }
    ensures { WorksThrough order most (who.now, number) search.old batch.old result.0 result.1 search.new batch.new }
{
    let finished = hand_in(search, batch, order.gives_back());
    let next = match order {
        Order::GoOn => go_on(search, who, number, most, batch),
        _ => {
            batch.let_go();
            None
        }
    };
    (finished, next)
}

/// Finishes the letters, each with its right hint and in the order in which they were taken, and answers how many are
/// done. Or lets each of them wait again.
fn hand_in(search: &mut Search, batch: &Batch, back: bool) -> u64
    requires { IsLookedUp batch.now }
    ensures { HandsInBatch StepsEach back search.old batch.now result search.new }
{
    match &batch.of {
        Some(of) => hand_in_each(search, of, &batch.held_letters, back),
        None => 0,
    }
}

/// Lets the letters of the search go, which were handed in, and takes others of it where anything is left to do. Where the batch
/// names the search already, its name isn't copied.
#[inline(always)]
fn go_on(
    search: &mut Search,
    who: &Entity,
    number: u64,
    most: usize,
    batch: &mut Batch,
) -> Option<Next>
    requires of { MatchOption batch.old.of (Unit {0}) (λ of. name_of of ≡ (who.now, number)) }
    requires space { most ≤ batch.old.room }
    ensures { WentAs Order.GoOn most batch.old.room (who.now, number) search.old result search.new batch.new }
{
    if search.is_quiet() {
        batch.let_go();
        return None;
    }
    let Ok(snapshot) = search.snapshot().clone() else {
        batch.let_go();
        return Some(Next::NoMemory);
    };
    name(&mut batch.of, who, number, snapshot);
    batch.held_letters.clear();
    batch.looked = 0;
    take_each(search, most, &mut batch.held_letters);
    if batch.held_letters.is_empty() {
        batch.of = None;
    }
    Some(Next::Worked {
        left: !search.is_quiet(),
    })
}

/// Names the search and what it reads. Where its name stands there already, that isn't copied.
#[inline(always)]
fn name(of: &mut Option<NamedSearch>, who: &Entity, number: u64, snapshot: Arc<Snapshot>)
    requires { MatchOption of.old (Unit {0}) (λ of. name_of (named of) ≡ (who.now, number)) }
    ensures { option_map named of.new ≡ Some (record { who = who.now; number = number; snapshot = arc_value snapshot }) }
{
    if let Some(of) = of {
        of.snapshot = snapshot;
        return;
    }
    *of = Some(NamedSearch {
        who: *who,
        number,
        snapshot,
    });
}

/// Makes up to so many steps of the search, one after another: delivers the oldest signal, or else takes the first letter that
/// waits, as long as there is either.
fn take_each(search: &mut Search, most: usize, held_letters: &mut Vec<HeldLetter>)
    requires empty { held_letters.old.items ≡ [] }
    requires space { most ≤ vec_capacity held_letters.old }
    ensures goes_on { (name : List ℕ × ℕ)
        → GoesOn (StepsEach search.old search.new) name most (IsQuiet search.new.stage) (map letter_of held_letters.new.items) }
    ensures capacity { vec_capacity held_letters.new ≡ vec_capacity held_letters.old }
{
    for _step in 0..most {
        if !make_step(search, held_letters) {
            break;
        }
    }
}

/// Makes a step of the search, and tells whether there was one to make.
#[inline(always)]
fn make_step(search: &mut Search, held_letters: &mut Vec<HeldLetter>) -> bool
    requires space { vec_len held_letters.old < vec_capacity held_letters.old }
    ensures made { (letters : List (ℕ × Need)) × (map letter_of held_letters.new.items ≡ map letter_of held_letters.old.items ++ letters)
        × ((name : List ℕ × ℕ) → GoesOn (StepsEach search.old search.new) name (if result then 1 else 0) ⊥ letters) }
    ensures quiet { result ≡ false → IsQuiet search.new.stage }
    ensures bound { vec_len held_letters.new ≤ vec_len held_letters.old + 1 }
    ensures capacity { vec_capacity held_letters.new ≡ vec_capacity held_letters.old }
{
    if search.signals() > 0 {
        search.signal(0);
        return true;
    }
    let Some((letter, held)) = search.take_held(0) else {
        return false;
    };
    search.kept();
    note(held_letters, letter, search.rows_for(&held));
    true
}

/// Puts the letter behind the others, which needs the rows of this role, or none.
#[inline(always)]
fn note(held_letters: &mut Vec<HeldLetter>, letter: u64, role: Option<&Role>)
    requires space { vec_len held_letters.old < vec_capacity held_letters.old }
    ensures items { held_letters.new.items
        ≡ held_letters.old.items ++ record { letter = letter; need = need_for (option_copied role.entry); hint = hint.Nothing } ∷ [] }
    ensures len { vec_len held_letters.new ≡ vec_len held_letters.old + 1 }
    ensures capacity { vec_capacity held_letters.new ≡ vec_capacity held_letters.old }
{
    let hint = Hint::Nothing;
    match role {
        Some(role) => held_letters.push_reserved(HeldLetter {
            letter,
            need: Need::Rows(*role),
            hint,
        }),
        None => held_letters.push_reserved(HeldLetter {
            letter,
            need: Need::Nothing,
            hint,
        }),
    }
}

/// Hands in the letters of the search, one after another.
fn hand_in_each(
    search: &mut Search,
    of: &NamedSearch,
    held_letters: &[HeldLetter],
    back: bool,
) -> u64
    requires { AllWithin (IsLookedUpIn of.now) held_letters.now 0 (length held_letters.now) }
    ensures { HandsIn (StepsEach search.old search.new) back (named of.now) (map letter_of held_letters.now) result }
{
    let mut finished = 0;
    for held_letter in held_letters {
        if hand_in_letter(search, of, held_letter, back) {
            finished += 1;
        }
    }
    finished
}

/// Finishes the letter with what was looked up for it, and tells whether it is done. Or lets it wait again.
#[inline(always)]
fn hand_in_letter(
    search: &mut Search,
    of: &NamedSearch,
    held_letter: &HeldLetter,
    back: bool,
) -> bool
    requires { IsLookedUpIn of.now held_letter.now }
    ensures { HandsIn (StepsEach search.old search.new) back (named of.now) (letter_of held_letter.now ∷ []) (if result then 1 else 0) }
{
    let _who = &of.who;
    if back {
        search.put_back(held_letter.letter);
        search.kept();
        return false;
    }
    let finished = search.finish(held_letter.letter, held_letter.hint);
    search.kept();
    finished == Finished::Done
}
