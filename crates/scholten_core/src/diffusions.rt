use crate::engagement::{Engagement, deliver, engaged_at, receive};
use crate::letter_tables::LetterTable;
use crate::letters::Letter;
use crate::parents::Parent;
use crate::signals::{put, take};
use std::alloc::{AllocError, Global};
use std::collections::VecDeque;
use std::marker::Model;
use std::mem;

/// A diffusing computation: letters, signals and the tree of engaged nodes. Letters are numbered from 1 as they are
/// sent. Nodes are best numbered from 0 on: memory is taken up to the greatest number of a node that was engaged, and
/// where that can't be had `finish` is refused. Only `start` and `finish` take memory. What a finished letter said is
/// dropped once no letter that was sent after it is left, or earlier. Contracts see it as a `Computation`.
pub struct Diffusion<P> {
    letters: LetterTable<P>,
    signals: VecDeque<Parent>,
    // Of each node, by its number, the engagement that it is in.
    nodes: Vec<Option<Engagement>>,
    environment: u64,
}

impl<P> Model for Diffusion<P> {
    ghost use Rattle.std.specs.Coded.{codes};
    ghost use Rattle.std.specs.FinMap as fin;
    ghost use Rattle.scholten_core.specs.Computation.{Computation};

    ghost Value = { Computation P };

    ghost coded = { Prim.hlevel (codes, fin.code, P.code) };

    ghost use Rattle.scholten_core.specs.Kept.{IsKept, held_in};

    ghost view = { λ a. held_in a.letters a.signals.items a.nodes.items };

    ghost invariant = { λ a. IsKept (held_in a.letters a.signals.items a.nodes.items) a.environment a.nodes.items };
}

// By hand, so that who holds one drops it by one call, whose proof stands here.
impl<P: Drop> Drop for Diffusion<P> {
    fn drop(self) {
        let Diffusion {
            letters: _letters,
            signals: _signals,
            nodes: _nodes,
            environment: _environment,
        } = self;
    }
}

impl<P: Drop> Diffusion<P> {
    ghost use Rattle.std.specs.Prelude.{◌≡◌, ◌+◌, ◌^◌, ◌<◌, ◌↔◌, false, [], length, vec_len, option_copied, IfOk, OnOk, OnErr, IsTrue};
    ghost use Rattle.std.specs.VecDeque.{deque_len};
    ghost use Rattle.scholten_core.specs.Computation.{IsHeld, StandByNumber, letter_of, waiting as waiting_of};
    ghost use Rattle.scholten_core.specs.Computation.{deficit as deficit_of, parent_of, outstanding};
    ghost use Rattle.scholten_core.specs.Step.{started, marked, TakesLetter, FinishesLetter, DeliversSignal};
    ghost use Rattle.scholten_core.specs.Sound.{IsSound};

    /// The environment sends the first letter, to the root.
    pub fn start(alloc: Global, root: u64, load: P) -> Result<Self, AllocError>
        ensures started { IfOk result (λ d. d ≡ started root load) }
        ensures sound { IfOk result IsSound }
    {
        let mut letters = LetterTable::new(alloc)?;
        letters.push(Parent::Environment, root, load);
        Ok(Diffusion {
            letters,
            signals: VecDeque::new(alloc),
            nodes: Vec::new(alloc),
            environment: 1,
        })
    }

    /// Another computation begins in the same tables: the environment sends its first letter, to the root. Where memory is refused,
    /// nothing changes.
    pub fn restart(&mut self, root: u64, load: P) -> Result<(), AllocError>
        ensures started { OnOk result (self.new ≡ started root load) }
        ensures unchanged { OnErr result (self.new ≡ self.old) }
        ensures sound { IsSound self.new }
    {
        self.letters.reserve(1)?;
        self.letters.restart();
        self.signals.clear();
        self.nodes.clear();
        self.environment = 1;
        self.letters.push(Parent::Environment, root, load);
        Ok(())
    }

    /// How many letters were ever sent.
    pub fn sent(&self) -> u64
        ensures { result ≡ self.now.sent }
    {
        self.letters.sent()
    }

    /// The letter of that number, where it waits or is held.
    #[inline(always)]
    pub fn letter(&self, number: u64) -> Option<&Letter<P>>
        ensures letter { option_copied result ≡ letter_of self.now number }
        ensures by_number { StandByNumber self.now }
        ensures sound { IsSound self.now }
    {
        self.letters.get(number)
    }

    /// How many letters wait.
    pub fn waiting(&self) -> u64
        ensures { result ≡ length (waiting_of self.now.letters) }
    {
        self.letters.waiting()
    }

    /// Takes the waiting letter at that place, in order of number, and answers its number.
    pub fn take(&mut self, place: u64) -> u64
        requires { place < length (waiting_of self.old.letters) }
        ensures { TakesLetter self.old place result self.new }
    {
        let (number, _at) = self.letters.take(place);
        number
    }

    /// The held letter of that number waits again.
    pub fn put_back(&mut self, number: u64)
        requires { IsHeld self.old.letters number }
        ensures waits { self.new ≡ marked self.old number false }
        ensures sound { IsSound self.new }
    {
        self.letters.put_back(number);
    }

    /// How many signals are under way.
    pub fn signals(&self) -> u64
        ensures { result ≡ length self.now.signals }
    {
        self.signals.len() as u64
    }

    /// Finishes the held letter of that number: its receiver gets it and sends these letters, and is neutral again if
    /// it is then owed nothing. Where memory is refused, the letters handed in are dropped and nothing else changes. It
    /// may be refused for these letters, for one signal, and for the place of a neutral receiver that sends any.
    pub fn finish(&mut self, number: u64, outs: Vec<(u64, P)>) -> Result<(), AllocError>
        requires held { IsHeld self.old.letters number }
        requires room { self.old.sent + vec_len outs < 2 ^ 64 }
        ensures finished { OnOk result (FinishesLetter self.old number outs.items self.new) }
        ensures unchanged { OnErr result (self.new ≡ self.old) }
        ensures sound { IsSound self.new }
    {
        self.finish_with(number, &mut VecDeque::from_vec(outs))
    }

    /// Finishes a held letter as `finish` does, with letters in a list that the caller keeps: it is empty then, with the room
    /// that it had. Where memory is refused, the list stays as it is.
    pub fn finish_with(
        &mut self,
        number: u64,
        outs: &mut VecDeque<(u64, P)>,
    ) -> Result<(), AllocError>
        requires held { IsHeld self.old.letters number }
        requires room { self.old.sent + deque_len outs.old < 2 ^ 64 }
        ensures finished { OnOk result (FinishesLetter self.old number outs.old.items self.new) }
        ensures emptied { OnOk result (outs.new.items ≡ []) }
        ensures unchanged { OnErr result (self.new ≡ self.old) }
        ensures kept { OnErr result (outs.new ≡ outs.old) }
        ensures sound { IsSound self.new }
    {
        self.letters.reserve(outs.len())?;
        self.signals.reserve(1)?;
        let at = self.letters.place(number);
        let letter = self.letters.letter_there(at);
        let from = letter.from;
        let to = letter.to;
        let by = receive(&mut self.nodes, from, to, outs.len() as u64)?;
        put(&mut self.signals, by);
        self.letters.finish(at);
        self.letters.send(Parent::Node(to), outs);
        Ok(())
    }

    /// Delivers the signal at that place: its receiver is neutral again if it is then owed nothing.
    pub fn signal(&mut self, place: u64)
        requires { place < length self.old.signals }
        ensures { DeliversSignal self.old place self.new }
    {
        let to = take(&mut self.signals, place as usize);
        let by = deliver(&mut self.environment, &mut self.nodes, to);
        put(&mut self.signals, by);
    }

    /// Gives back the memory of letters, signals and nodes that nothing takes, where nothing is outstanding.
    pub fn give_back(&mut self)
        ensures { self.new ≡ self.old }
    {
        if self.is_complete() {
            self.shrink();
        }
    }

    // Gives back the memory that nothing takes, and the list of the nodes: none of them is engaged then.
    #[cold]
    #[inline(never)]
    fn shrink(&mut self)
        requires { outstanding self.old ≡ 0 }
        ensures { self.new ≡ self.old }
    {
        self.letters.give_back();
        self.signals.shrink_to_fit();
        self.nodes.clear();
        self.nodes.shrink_to_fit();
    }

    /// Hands out the computation, in which nothing is outstanding, with its memory. The same one stays here, and has none.
    pub fn hand_over(&mut self) -> Diffusion<P>
        requires { outstanding self.old ≡ 0 }
        ensures handed_over { result ≡ self.old }
        ensures same { self.new ≡ self.old }
    {
        let bare = self.without_room();
        mem::replace(self, bare)
    }

    // The same computation, in which nothing is outstanding, with no memory.
    fn without_room(&self) -> Diffusion<P>
        requires { outstanding self.now ≡ 0 }
        ensures { result ≡ self.now }
    {
        let alloc = *self.signals.allocator();
        Diffusion {
            letters: self.letters.without_room(),
            signals: VecDeque::new(alloc),
            nodes: Vec::new(alloc),
            environment: self.environment,
        }
    }

    /// Whether it has room for as many letters as one that was started has.
    pub fn has_first_room(&self) -> bool {
        self.letters.has_first_room()
    }

    /// Whether nothing is outstanding.
    pub fn is_complete(&self) -> bool
        ensures environment { IsTrue result ↔ (deficit_of self.now Parent.Environment ≡ 0) }
        ensures complete { IsTrue result ↔ (outstanding self.now ≡ 0) }
        ensures never_stuck { self.now.letters ≡ [] → self.now.signals ≡ [] → IsTrue result }
        ensures sound { IsSound self.now }
    {
        self.environment == 0
    }

    /// What the environment is owed.
    pub fn env_deficit(&self) -> u64
        ensures { result ≡ deficit_of self.now Parent.Environment }
    {
        self.environment
    }

    /// What a node is owed.
    pub fn deficit(&self, node: u64) -> u64
        ensures { result ≡ deficit_of self.now (Parent.Node node) }
    {
        match engaged_at(&self.nodes, node) {
            Some(engaged) => engaged.deficit,
            None => 0,
        }
    }

    /// Who engaged a node.
    pub fn parent(&self, node: u64) -> Parent
        ensures { result ≡ parent_of self.now node }
    {
        match engaged_at(&self.nodes, node) {
            Some(engaged) => engaged.parent,
            None => Parent::Neutral,
        }
    }
}

impl<P: Copy> Diffusion<P> {
    ghost use Rattle.std.specs.Prelude.{◌≡◌, ◌<◌, Some, length};
    ghost use Rattle.scholten_core.specs.Computation.{letter_of, waiting as waiting_of};
    ghost use Rattle.scholten_core.specs.Step.{TakesLetter};

    /// Takes the waiting letter at that place as `take` does, and answers a copy of it beside its number.
    #[inline(always)]
    pub fn take_letter(&mut self, place: u64) -> (u64, Letter<P>)
        requires { place < length (waiting_of self.old.letters) }
        ensures takes { TakesLetter self.old place result.0 self.new }
        ensures letter { letter_of self.new result.0 ≡ Some result.1 }
    {
        let (number, at) = self.letters.take(place);
        let letter = self.letters.letter_there(at);
        let taken = Letter {
            from: letter.from,
            to: letter.to,
            held: letter.held,
            load: letter.load,
        };
        (number, taken)
    }
}
