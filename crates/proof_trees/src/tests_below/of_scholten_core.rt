ghost use Rattle.std.specs.Prelude.{◌↔◌, IsTrue};
ghost use Rattle.scholten_core.specs.Computation.{IsHeld};

use super::mix;
use scholten_core::{Diffusion, Parent};
use std::alloc::{AllocError, Global};
use std::test::Fail;

// What is done, or looked at.
enum Deed {
    // Takes the waiting letter at that place, which has that number.
    Take(u64, u64),
    PutBack(u64),
    // Finishes the letter of that number; its receiver sends a letter to each of these nodes.
    Finish(u64, &'static [u64]),
    Signal(u64),
    // The node has that parent, and is owed so much.
    Node(u64, Parent, u64),
}

use Deed::{Finish, Node, PutBack, Signal, Take};

// What of a computation is looked at after each deed: sent, waiting, signals, and what the environment is owed.
type Counts = [u64; 4];

fn look_at<P: Drop>(d: &Diffusion<P>) -> Counts {
    [d.sent(), d.waiting(), d.signals(), d.env_deficit()]
}

fn is_held<P: Drop>(d: &Diffusion<P>, number: u64) -> bool
    ensures { IsTrue result ↔ IsHeld d.now.letters number }
{
    match d.letter(number) {
        Some(letter) => letter.held,
        None => false,
    }
}

fn code(parent: Parent) -> u64 {
    match parent {
        Parent::Neutral => 1,
        Parent::Environment => 2,
        Parent::Node(node) => mix(3, node),
    }
}

// A sum over all that can be read of a computation.
fn read_all(d: &Diffusion<u64>) -> u64 {
    let mut sum = 0;
    for number in 0..=d.sent().min(1_000) {
        sum = match d.letter(number) {
            Some(letter) => mix(
                mix(mix(mix(sum, letter.to), letter.held as u64), letter.load),
                code(letter.from),
            ),
            None => mix(sum, 1),
        };
    }
    for node in 0..10 {
        sum = mix(mix(sum, d.deficit(node)), code(d.parent(node)));
    }
    for count in &look_at(d) {
        sum = mix(sum, *count);
    }
    sum
}

// Letters to these nodes, each with its node's number as its load.
fn collect_letters(alloc: Global, nodes: &[u64]) -> Result<Vec<(u64, u64)>, AllocError> {
    let mut letters = Vec::with_capacity(alloc, nodes.len())?;
    for node in nodes {
        letters.push((*node, *node))?;
    }
    Ok(letters)
}

// Letters to these nodes, collected once more where memory is refused.
fn letters_to(alloc: Global, nodes: &[u64]) -> Result<Vec<(u64, u64)>, AllocError> {
    match collect_letters(alloc, nodes) {
        Ok(letters) => Ok(letters),
        Err(_) => collect_letters(alloc, nodes),
    }
}

// Finishes the letter, where it is held.
fn finish_with<P: Drop>(
    d: &mut Diffusion<P>,
    number: u64,
    outs: Vec<(u64, P)>,
) -> Result<bool, AllocError> {
    if !is_held(d, number) || d.sent() >= 1_000 || outs.len() >= 1_000 {
        return Ok(false);
    }
    d.finish(number, outs)?;
    Ok(true)
}

// Finishes a letter. Where memory is refused all is as before, and the same call is made again.
fn finishes(
    alloc: Global,
    d: &mut Diffusion<u64>,
    number: u64,
    nodes: &[u64],
) -> Result<bool, AllocError> {
    let before = read_all(d);
    if let Ok(finished) = finish_with(d, number, letters_to(alloc, nodes)?) {
        return Ok(finished);
    }
    Ok(read_all(d) == before && finish_with(d, number, letters_to(alloc, nodes)?)?)
}

fn takes<P: Drop>(d: &mut Diffusion<P>, place: u64, number: u64) -> bool {
    place < d.waiting() && d.take(place) == number
}

fn puts_back(d: &mut Diffusion<u64>, number: u64) -> bool {
    if !is_held(d, number) {
        return false;
    }
    d.put_back(number);
    true
}

fn signals(d: &mut Diffusion<u64>, place: u64) -> bool {
    if place >= d.signals() {
        return false;
    }
    d.signal(place);
    true
}

// Whether the deed goes as it says.
fn goes(alloc: Global, d: &mut Diffusion<u64>, deed: &Deed) -> Result<bool, AllocError> {
    match deed {
        Take(place, number) => Ok(takes(d, *place, *number)),
        PutBack(number) => Ok(puts_back(d, *number)),
        Finish(number, nodes) => finishes(alloc, d, *number, nodes),
        Signal(place) => Ok(signals(d, *place)),
        Node(node, parent, deficit) => {
            Ok(d.parent(*node) == *parent && d.deficit(*node) == *deficit)
        }
    }
}

// Whether the computation looks so, and is complete just where the environment is owed nothing.
fn looks(d: &Diffusion<u64>, counts: &Counts) -> bool {
    look_at(d) == *counts && d.is_complete() == (counts[3] == 0)
}

// A first letter to node 0. Where memory is refused, once more.
fn started(alloc: Global) -> Result<Diffusion<u64>, AllocError> {
    match Diffusion::start(alloc, 0, 0) {
        Ok(d) => Ok(d),
        Err(_) => Diffusion::start(alloc, 0, 0),
    }
}

// Whether each deed goes as it says, and the computation looks so after it.
fn all_go(
    alloc: Global,
    d: &mut Diffusion<u64>,
    deeds: &[(Deed, Counts)],
) -> Result<bool, AllocError> {
    for (deed, after) in deeds {
        if !goes(alloc, d, deed)? || !looks(d, after) {
            return Ok(false);
        }
    }
    Ok(true)
}

// Does the deeds in turn, from a first letter to node 0 on, and looks at the computation after each.
fn play(alloc: Global, deeds: &[(Deed, Counts)]) -> Result<bool, AllocError> {
    let mut d = started(alloc)?;
    Ok(looks(&d, &[1, 1, 0, 1]) && all_go(alloc, &mut d, deeds)?)
}

const ENVIRONMENT: Parent = Parent::Environment;

const NEUTRAL: Parent = Parent::Neutral;

// Deeds from a first letter on, and the computation's counts after each.
static PLAYS: [&[(Deed, Counts)]; 4] = [
    // A node writes to another, and that writes back.
    &[
        (Take(0, 1), [1, 0, 0, 1]),
        (Finish(1, &[1]), [2, 1, 0, 1]),
        (Node(0, ENVIRONMENT, 1), [2, 1, 0, 1]),
        (Take(0, 2), [2, 0, 0, 1]),
        (Finish(2, &[0]), [3, 1, 0, 1]),
        (Node(1, Parent::Node(0), 1), [3, 1, 0, 1]),
        (Node(0, ENVIRONMENT, 1), [3, 1, 0, 1]),
        (Take(0, 3), [3, 0, 0, 1]),
        (PutBack(3), [3, 1, 0, 1]),
        (Take(0, 3), [3, 0, 0, 1]),
        (Finish(3, &[]), [3, 0, 1, 1]),
        (Node(1, Parent::Node(0), 1), [3, 0, 1, 1]),
        (Signal(0), [3, 0, 1, 1]),
        (Node(1, NEUTRAL, 0), [3, 0, 1, 1]),
        (Signal(0), [3, 0, 1, 1]),
        (Node(0, NEUTRAL, 0), [3, 0, 1, 1]),
        (Signal(0), [3, 0, 0, 0]),
    ],
    // A node writes to itself.
    &[
        (Take(0, 1), [1, 0, 0, 1]),
        (Finish(1, &[0]), [2, 1, 0, 1]),
        (Take(0, 2), [2, 0, 0, 1]),
        (Finish(2, &[]), [2, 0, 1, 1]),
        (Node(0, ENVIRONMENT, 1), [2, 0, 1, 1]),
        (Signal(0), [2, 0, 1, 1]),
        (Node(0, NEUTRAL, 0), [2, 0, 1, 1]),
        (Signal(0), [2, 0, 0, 0]),
    ],
    // A node is engaged a second time.
    &[
        (Take(0, 1), [1, 0, 0, 1]),
        (Finish(1, &[1, 1]), [3, 2, 0, 1]),
        (Take(0, 2), [3, 1, 0, 1]),
        (Finish(2, &[2]), [4, 2, 0, 1]),
        (Node(1, Parent::Node(0), 1), [4, 2, 0, 1]),
        (Take(1, 4), [4, 1, 0, 1]),
        (Finish(4, &[]), [4, 1, 1, 1]),
        (Signal(0), [4, 1, 1, 1]),
        (Node(1, NEUTRAL, 0), [4, 1, 1, 1]),
        (Take(0, 3), [4, 0, 1, 1]),
        (Finish(3, &[2]), [5, 1, 1, 1]),
        (Node(1, Parent::Node(0), 1), [5, 1, 1, 1]),
        (Node(0, ENVIRONMENT, 2), [5, 1, 1, 1]),
        (Take(0, 5), [5, 0, 1, 1]),
        (Finish(5, &[]), [5, 0, 2, 1]),
        (Signal(1), [5, 0, 2, 1]),
        (Signal(0), [5, 0, 1, 1]),
        (Signal(0), [5, 0, 1, 1]),
        (Node(0, NEUTRAL, 0), [5, 0, 1, 1]),
        (Signal(0), [5, 0, 0, 0]),
    ],
    // Letters are taken at any place. Finished letters leave holes: at the end, between others, and more than half of all.
    &[
        (Take(0, 1), [1, 0, 0, 1]),
        (Finish(1, &[1, 2, 3, 4, 5]), [6, 5, 0, 1]),
        (Take(4, 6), [6, 4, 0, 1]),
        (Take(1, 3), [6, 3, 0, 1]),
        (Take(1, 4), [6, 2, 0, 1]),
        (PutBack(3), [6, 3, 0, 1]),
        (Take(0, 2), [6, 2, 0, 1]),
        (Take(0, 3), [6, 1, 0, 1]),
        (PutBack(2), [6, 2, 0, 1]),
        (Finish(3, &[]), [6, 2, 1, 1]),
        (Finish(4, &[]), [6, 2, 2, 1]),
        (Finish(6, &[9, 9]), [8, 4, 2, 1]),
        (Take(3, 8), [8, 3, 2, 1]),
        (Take(1, 5), [8, 2, 2, 1]),
        (Finish(5, &[]), [8, 2, 3, 1]),
        (PutBack(8), [8, 3, 3, 1]),
        (Take(0, 2), [8, 2, 3, 1]),
        (Take(1, 8), [8, 1, 3, 1]),
        (Finish(8, &[]), [8, 1, 4, 1]),
        (Take(0, 7), [8, 0, 4, 1]),
        (Finish(7, &[]), [8, 0, 5, 1]),
        (Finish(2, &[]), [8, 0, 6, 1]),
    ],
];

#[test]
fn deeds_go_as_they_are_to(rt: HostRuntime) -> Result<(), AllocError> {
    for deeds in &PLAYS {
        assert!(rt; play(rt.alloc(), deeds)?);
    }
    Ok(())
}

fn text(alloc: Global, word: &str) -> Result<String, AllocError> {
    match String::from_str(alloc, word) {
        Ok(text) => Ok(text),
        Err(_) => String::from_str(alloc, word),
    }
}

// A letter to node 8.
fn told(alloc: Global) -> Result<Vec<(u64, String)>, AllocError> {
    let mut outs = Vec::new(alloc);
    outs.push((8, text(alloc, "tell")?))?;
    Ok(outs)
}

// Whether node 7 has sent that letter.
fn is_told(d: &Diffusion<String>) -> bool {
    match d.letter(2) {
        Some(letter) => {
            letter.load.as_str() == "tell" && letter.from == Parent::Node(7) && letter.to == 8
        }
        None => false,
    }
}

// Whether the first letter is taken, and finished with that one.
fn tells(alloc: Global, d: &mut Diffusion<String>) -> Result<bool, AllocError> {
    Ok(takes(d, 0, 1) && finish_with(d, 1, told(alloc)?)? && is_told(d))
}

#[test]
fn a_load_owns_memory(rt: HostRuntime) -> Result<(), Fail> {
    let mut d = Diffusion::start(rt.alloc(), 7, text(rt.alloc(), "ask")?)?;
    assert!(rt; tells(rt.alloc(), &mut d)?);
    Ok(())
}
