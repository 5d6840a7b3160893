//! The table of the letters that wait or are held.
ghost use Rattle.std.specs.Prelude.{◌≡◌, ◌+◌, ◌-◌, ◌<◌, ◌≤◌, ◌==◌, false, is_none, slice_get, take, unwrap_or};
ghost use Rattle.std.specs.Prelude.{Option, None, Some, option_copied, option_map};
ghost use Rattle.std.specs.Prelude.{ℕ, length, nat_lt, vec_capacity, vec_len};
ghost use Rattle.std.specs.Map.{values_of};
ghost use Rattle.scholten_core.specs.Sound.{IsNumbered};
ghost use Rattle.scholten_core.specs.declared.letters.Letter.{Letter};
ghost use Rattle.scholten_core.specs.LetterTable.{count, does_wait, set_value_at, IsPlaceOf, WaitsAt};

use crate::letters::Letter;
use crate::parents::Parent;
use crate::slots::Slot;
use std::alloc::{AllocError, Global};
use std::collections::VecDeque;
use std::marker::Model;

// In order of number, so a number's place is found by halving.
type Numbered<P> = Vec<(u64, Slot<P>)>;

/// The letters that wait or are held, by number, in order of number. A letter that is finished leaves a hole, so that
/// the others keep their places. Holes at the end are popped when the last letter is finished; all of them are dropped
/// where room lacks and they are a good share of the entries.
#[derive(Drop)]
pub(crate) struct LetterTable<P> {
    // How many letters were ever sent, the number of the last one.
    sent: u64,
    waits: u64,
    holes: usize,
    // Before this place none waits.
    first: usize,
    // From this place on none waits.
    last: usize,
    // Where the letter stands, or stood, that was taken last, or behind the one that was finished last: who holds many
    // finishes them in a row.
    hand: usize,
    letters: Numbered<P>,
}

/// Room for so many letters is made at first. It doubles from there.
const FIRST_ROOM: usize = 36;

/// So much room is kept for another computation in any case.
const LITTLE: usize = 256;

/// More than this many times the letters that were sent is too much.
const AMPLE: usize = 16;

/// How many of so many entries have to be holes before these are dropped: where entries are few, to move letters costs more
/// than their bytes; where they are many, bytes count.
fn holes_to_drop(entries: usize) -> usize {
    match entries {
        0..1024 => entries - entries / 4,
        1024..8192 => entries / 2,
        _ => entries / 4,
    }
}

/// The room that a table keeps for another computation where so many letters were sent.
fn room_kept(sent: u64, room: usize) -> usize
    ensures { 36 ≤ result }
{
    if room <= LITTLE || (room / AMPLE) as u64 <= sent {
        usize::MAX
    } else {
        FIRST_ROOM
    }
}

fn ends_in_hole<P>(letters: &Numbered<P>) -> bool
    ensures { result ≡ unwrap_or (option_map (λ e. is_none e.1) (slice_get letters.now.items (length letters.now.items - 1))) false }
{
    match letters.last() {
        Some((_, slot)) => slot.is_hole(),
        None => false,
    }
}

#[inline(always)]
fn stands_at<P>(letters: &Numbered<P>, at: usize, number: u64) -> bool
    ensures { result ≡ unwrap_or (option_map (λ e. e.0 == number) (slice_get letters.now.items at)) false }
{
    match letters.get(at) {
        Some((found, _)) => *found == number,
        None => false,
    }
}

// Where the number's entry stands. Most often it is the letter at hand.
#[inline(always)]
fn place_of<P>(letters: &Numbered<P>, hand: usize, number: u64) -> Option<usize>
    requires { (sent : ℕ) × IsNumbered 0 letters.now.items sent }
    ensures { IsPlaceOf letters.now.items number result }
{
    if stands_at(letters, hand, number) {
        Some(hand)
    } else {
        place_near(letters, hand, number)
    }
}

// Where the entry stands of a number that isn't at hand. One place is tried before all others: where it stands if no number
// lacks between it and the one at hand.
#[inline(always)]
fn place_near<P>(letters: &Numbered<P>, hand: usize, number: u64) -> Option<usize>
    requires { (sent : ℕ) × IsNumbered 0 letters.now.items sent }
    ensures { IsPlaceOf letters.now.items number result }
{
    if let Some((near, _)) = letters.get(hand) {
        let at = hand.wrapping_add(number.wrapping_sub(*near) as usize);
        if stands_at(letters, at, number) {
            return Some(at);
        }
    }
    place_by_halving(letters, number)
}

// Where the number's entry stands, sought among all.
#[cold]
#[inline(never)]
fn place_by_halving<P>(letters: &Numbered<P>, number: u64) -> Option<usize>
    requires { (sent : ℕ) × IsNumbered 0 letters.now.items sent }
    ensures { IsPlaceOf letters.now.items number result }
{
    let at = letters.partition_point(
        |entry: &(u64, Slot<P>)| -> bool
            ensures { result ≡ nat_lt entry.now.0 number }
        { entry.0 < number },
    );
    if stands_at(letters, at, number) {
        Some(at)
    } else {
        None
    }
}

// The letter at a place is held from now on, or waits again. Answers its number.
#[inline(always)]
fn hold<P>(letters: &mut Numbered<P>, at: usize, held: bool) -> u64
    requires { at < length letters.old.items }
    ensures { (o : Option (Letter P)) × (slice_get letters.old.items at ≡ Some (result, o))
        × (letters.new.items ≡ set_value_at letters.old.items at (option_map (λ (l : Letter P). record l { held = held }) o)) }
{
    let (number, slot) = &mut letters[at];
    slot.hold(held);
    *number
}

// The letter at a place is a hole from now on.
#[inline(always)]
fn leave_hole<P>(letters: &mut Numbered<P>, at: usize)
    requires { at < length letters.old.items }
    ensures hole { letters.new.items ≡ set_value_at letters.old.items at None }
    ensures len { vec_len letters.new ≡ vec_len letters.old }
    ensures capacity { vec_capacity letters.new ≡ vec_capacity letters.old }
{
    let (_, slot) = &mut letters[at];
    slot.empty();
}

// Where the waiting letter at that place stands, sought from a place on before which none waits.
fn seek_on<P>(letters: &Numbered<P>, first: usize, place: u64) -> usize
    requires none { count does_wait (take first letters.now.items) ≡ 0 }
    requires there { place < count does_wait letters.now.items }
    ensures { WaitsAt letters.now.items place result }
{
    let mut left = place;
    for at in first..letters.len() {
        if !letters[at].1.waits() {
            continue;
        }
        if left == 0 {
            return at;
        }
        left -= 1;
    }
    unreachable!()
}

// Where the waiting letter that so many others follow stands, sought from a place back from which on none waits.
fn seek_back<P>(letters: &Numbered<P>, last: usize, follow: u64) -> usize
    requires within { last ≤ length letters.now.items }
    requires there { follow < count does_wait (take last letters.now.items) }
    ensures { WaitsAt letters.now.items (count does_wait (take last letters.now.items) - follow - 1) result }
{
    let mut left = follow;
    for at in (0..last).rev() {
        if !letters[at].1.waits() {
            continue;
        }
        if left == 0 {
            return at;
        }
        left -= 1;
    }
    unreachable!()
}

// Where the waiting letter at that place stands, which so many others follow, sought from the nearer end.
fn seek<P>(letters: &Numbered<P>, first: usize, last: usize, place: u64, follow: u64) -> usize
    requires none { count does_wait (take first letters.now.items) ≡ 0 }
    requires all { count does_wait (take last letters.now.items) ≡ count does_wait letters.now.items }
    requires within { last ≤ length letters.now.items }
    requires there { place + 1 + follow ≡ count does_wait letters.now.items }
    ensures { WaitsAt letters.now.items place result }
{
    if place < follow {
        seek_on(letters, first, place)
    } else {
        seek_back(letters, last, follow)
    }
}

impl<P> Model for LetterTable<P> {
    ghost use Rattle.scholten_core.specs.LetterTable.{LetterTableState};

    ghost Value = { LetterTableState P };

    ghost use Rattle.std.specs.Map.{keys_of};
    ghost use Rattle.std.specs.Prelude.{◌-◌, vec_capacity, vec_len};
    ghost use Rattle.scholten_core.specs.LetterTable.{IsTable, standing};

    ghost view = { λ a. record {
      sent = a.sent;
      letters = standing a.letters.items;
      numbers = keys_of a.letters.items;
      room = vec_capacity a.letters - vec_len a.letters;
    } };

    ghost invariant = { λ a. IsTable a.sent a.waits a.holes a.first a.last a.letters.items };
}

impl<P: Drop> LetterTable<P> {
    ghost use Rattle.std.specs.Prelude.{◌≡◌, ◌+◌, ◌^◌, ◌<◌, ◌≤◌, ◌==◌, ◌++◌, [], ◌∷◌, true, false, not, length, filter, map};
    ghost use Rattle.std.specs.Prelude.{ℕ, is_some, option_copied, IfOk, IfSome, None, Some, OnOk};
    ghost use Rattle.std.specs.VecDeque.{deque_len};
    ghost use Rattle.std.specs.Map.{lookup};
    ghost use Rattle.scholten_core.specs.declared.letters.Letter.{Letter};
    ghost use Rattle.scholten_core.specs.Computation.{IsHeld, same_parent, waiting};
    ghost use Rattle.scholten_core.specs.LetterTable.{StandsAt};
    ghost use Rattle.scholten_core.specs.Step.{mark, numbered};

    /// No letter, with room for the first ones.
    pub(crate) fn new(alloc: Global) -> Result<Self, AllocError>
        ensures sent { IfOk result (λ t. t.sent ≡ 0) }
        ensures letters { IfOk result (λ t. t.letters ≡ []) }
        ensures room { IfOk result (λ t. 1 ≤ t.room) }
    {
        Ok(LetterTable {
            sent: 0,
            waits: 0,
            holes: 0,
            first: 0,
            last: 0,
            hand: 0,
            letters: Vec::with_capacity(alloc, FIRST_ROOM)?,
        })
    }

    /// No letter, and none was sent: as it was made, with the room that it has. A table that was much too large becomes small, so
    /// that a small computation doesn't hold what a large one took.
    pub(crate) fn restart(&mut self)
        ensures sent { self.new.sent ≡ 0 }
        ensures letters { self.new.letters ≡ [] }
        ensures room { 0 < self.old.room → 0 < self.new.room }
    {
        let kept = room_kept(self.sent, self.letters.capacity());
        self.letters.clear();
        self.letters.shrink_to(kept);
        self.sent = 0;
        self.waits = 0;
        self.holes = 0;
        self.first = 0;
        self.last = 0;
        self.hand = 0;
    }

    /// As many letters were sent, and none is left: in a table with no room.
    pub(crate) fn without_room(&self) -> Self
        ensures sent { result.sent ≡ self.now.sent }
        ensures letters { result.letters ≡ [] }
    {
        LetterTable {
            sent: self.sent,
            waits: 0,
            holes: 0,
            first: 0,
            last: 0,
            hand: 0,
            letters: Vec::new(*self.letters.allocator()),
        }
    }

    /// Whether it has room for as many letters as a new one.
    pub(crate) fn has_first_room(&self) -> bool {
        self.letters.capacity() >= FIRST_ROOM
    }

    pub(crate) fn sent(&self) -> u64
        ensures { result ≡ self.now.sent }
    {
        self.sent
    }

    pub(crate) fn waiting(&self) -> u64
        ensures { result ≡ length (waiting self.now.letters) }
    {
        self.waits
    }

    /// The letter of that number, where it waits or is held.
    #[inline(always)]
    pub(crate) fn get(&self, number: u64) -> Option<&Letter<P>>
        ensures { option_copied result ≡ lookup (λ n. n == number) self.now.letters }
    {
        let at = place_of(&self.letters, self.hand, number)?;
        self.letters[at].1.letter()
    }

    /// Where the number of a held letter stands.
    #[inline(always)]
    pub(crate) fn place(&self, number: u64) -> usize
        requires { IsHeld self.now.letters number }
        ensures { StandsAt self.now number result }
    {
        if stands_at(&self.letters, self.hand, number) {
            return self.hand;
        }
        place_near(&self.letters, self.hand, number).unwrap()
    }

    /// The letter that waits or is held and whose number stands there.
    #[inline(always)]
    pub(crate) fn letter_there(&self, at: usize) -> &Letter<P>
        requires { (number : ℕ) × StandsAt self.now number at × (is_some (lookup (λ n. n == number) self.now.letters) ≡ true) }
        ensures { (number : ℕ) → StandsAt self.now number at → lookup (λ n. n == number) self.now.letters ≡ Some result.now }
    {
        self.letters[at].1.full_letter()
    }

    /// Takes the waiting letter at that place, in order of number, and answers its number, and where that stands.
    #[inline(always)]
    pub(crate) fn take(&mut self, place: u64) -> (u64, usize)
        requires { place < length (waiting self.old.letters) }
        ensures waited { (l : Letter P) × (slice_get (waiting self.old.letters) place ≡ Some (result.0, l)) }
        ensures letters { self.new.letters ≡ map (mark result.0 true) self.old.letters }
        ensures stands { StandsAt self.new result.0 result.1 }
        ensures sent { self.new.sent ≡ self.old.sent }
    {
        let follow = self.waits - 1 - place;
        let at = seek(&self.letters, self.first, self.last, place, follow);
        self.first = if place == 0 { at + 1 } else { self.first };
        self.last = if follow == 0 { at } else { self.last };
        self.hand = at;
        self.waits -= 1;
        (hold(&mut self.letters, at, true), at)
    }

    /// The held letter of that number waits again.
    pub(crate) fn put_back(&mut self, number: u64)
        requires { IsHeld self.old.letters number }
        ensures letters { self.new.letters ≡ map (mark number false) self.old.letters }
        ensures sent { self.new.sent ≡ self.old.sent }
    {
        let at = place_of(&self.letters, self.hand, number).unwrap();
        hold(&mut self.letters, at, false);
        self.waits += 1;
        self.first = self.first.min(at);
        self.last = self.last.max(at + 1);
    }

    /// Makes room for so many letters more. Where it lacks and enough of the entries are holes, these are dropped before the
    /// table grows. So some three letters at most are moved for each hole that is dropped.
    pub(crate) fn reserve(&mut self, count: usize) -> Result<(), AllocError>
        ensures room { OnOk result (count ≤ self.new.room) }
        ensures letters { self.new.letters ≡ self.old.letters }
        ensures sent { self.new.sent ≡ self.old.sent }
    {
        if count == 0 {
            return Ok(());
        }
        if self.should_drop_holes(count) {
            self.drop_holes();
        }
        self.letters.reserve(count)
    }

    /// Gives back the room that no letter takes.
    pub(crate) fn give_back(&mut self)
        ensures letters { self.new.letters ≡ self.old.letters }
        ensures sent { self.new.sent ≡ self.old.sent }
    {
        self.letters.shrink_to_fit();
    }

    // Whether room lacks for so many letters more, and enough of the entries are holes.
    fn should_drop_holes(&self, count: usize) -> bool {
        let len = self.letters.len();
        self.letters.capacity() - len < count && self.holes >= holes_to_drop(len)
    }

    /// Sends letters that wait, where there is room for them.
    pub(crate) fn send(&mut self, from: Parent, outs: &mut VecDeque<(u64, P)>)
        requires room { deque_len outs.old ≤ self.old.room }
        requires numbers { self.old.sent + deque_len outs.old < 2 ^ 64 }
        requires from { same_parent from Parent.Neutral ≡ false }
        ensures letters { self.new.letters ≡ self.old.letters ++ numbered from (self.old.sent + 1) outs.old.items }
        ensures sent { self.new.sent ≡ self.old.sent + deque_len outs.old }
        ensures emptied { outs.new.items ≡ [] }
    {
        while let Some((to, load)) = outs.pop_front() {
            self.push(from, to, load);
        }
    }

    /// Sends a letter that waits, where there is room for it.
    #[inline(always)]
    pub(crate) fn push(&mut self, from: Parent, to: u64, load: P)
        requires room { 0 < self.old.room }
        requires numbers { self.old.sent + 1 < 2 ^ 64 }
        requires from { same_parent from Parent.Neutral ≡ false }
        ensures letters { self.new.letters
            ≡ self.old.letters ++ (self.old.sent + 1, record { from = from; to = to; held = false; load = load }) ∷ [] }
        ensures sent { self.new.sent ≡ self.old.sent + 1 }
        ensures room { self.old.room ≤ self.new.room + 1 }
    {
        self.sent += 1;
        self.waits += 1;
        let letter = Letter {
            from,
            to,
            held: false,
            load,
        };
        self.letters.push_reserved((self.sent, Slot::full(letter)));
        self.last = self.letters.len();
    }

    /// The held letter whose number stands there is finished.
    #[inline(always)]
    pub(crate) fn finish(&mut self, at: usize)
        requires { (number : ℕ) × StandsAt self.old number at × IsHeld self.old.letters number }
        ensures letters { (number : ℕ) → StandsAt self.old number at
            → self.new.letters ≡ filter (λ l. not (l.0 == number)) self.old.letters }
        ensures sent { self.new.sent ≡ self.old.sent }
        ensures room { self.old.room ≤ self.new.room }
    {
        leave_hole(&mut self.letters, at);
        self.holes += 1;
        let behind = at + 1;
        self.hand = behind;
        if behind == self.letters.len() {
            self.pop_holes();
        }
    }

    // Pops the holes at the end, so that a letter that is sent next stands beside the last one. Where nothing else is left, they
    // go at once.
    fn pop_holes(&mut self)
        ensures letters { self.new.letters ≡ self.old.letters }
        ensures sent { self.new.sent ≡ self.old.sent }
        ensures room { self.old.room ≤ self.new.room }
    {
        if self.holes == self.letters.len() {
            self.letters.clear();
            self.holes = 0;
            self.first = 0;
            self.last = 0;
            self.hand = 0;
            return;
        }
        while ends_in_hole(&self.letters) {
            let _ = self.letters.pop();
            self.holes -= 1;
        }
        self.first = self.first.min(self.letters.len());
        self.last = self.last.min(self.letters.len());
    }

    // Drops all holes.
    fn drop_holes(&mut self)
        ensures letters { self.new.letters ≡ self.old.letters }
        ensures sent { self.new.sent ≡ self.old.sent }
    {
        self.letters.retain(
            |entry: &(u64, Slot<P>)| -> bool
                ensures { result ≡ is_some entry.now.1 }
            { !entry.1.is_hole() },
        );
        self.holes = 0;
        self.first = 0;
        self.last = self.letters.len();
        self.hand = 0;
    }
}
