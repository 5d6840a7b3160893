//! The engaged nodes, by number: who engaged each, and how much each is owed.
ghost use Rattle.std.specs.Prelude.{◌≡◌, ◌+◌, ◌^◌, ◌<◌, ℕ, None, IfOk, OnOk, OnErr, vec_len};

use crate::parents::Parent;
use std::alloc::AllocError;

/// An engaged node: who engaged it, and how much it is owed.
#[derive(Clone, Copy)]
pub(crate) struct Engagement {
    pub(crate) parent: Parent,
    pub(crate) deficit: u64,
}

ghost use Rattle.scholten_core.specs.declared.parents.Parent.TheVariants as AnyParent;
ghost use Rattle.scholten_core.specs.Kept.{engagement_of, kept, Receives, Pays, Delivers};

// The engagement of a node. Nobody engaged one past the end.
pub(crate) fn engaged_at(nodes: &Vec<Option<Engagement>>, node: u64) -> Option<Engagement>
    ensures { result ≡ engagement_of nodes.now.items node }
{
    let place = node as usize;
    if place < nodes.len() {
        nodes[place]
    } else {
        None
    }
}

/// Room for so many nodes at least is made where it lacks: what begins smaller is moved several times in a computation of a
/// hundred letters.
const FEW: usize = 32;

// Makes a place for a node. A number for which no list of nodes can be had is want of memory.
fn make_place(nodes: &mut Vec<Option<Engagement>>, node: u64) -> Result<(), AllocError>
    ensures place { OnOk result (node < vec_len nodes.new) }
    ensures same { OnOk result ((n : ℕ) → engagement_of nodes.new.items n ≡ engagement_of nodes.old.items n) }
    ensures unchanged { OnErr result (nodes.new.items ≡ nodes.old.items) }
{
    let place = node as usize;
    if place < nodes.len() {
        return Ok(());
    }
    let count = place.saturating_add(1);
    if count > nodes.capacity() {
        nodes.reserve((count - nodes.len()).max(FEW))?;
    }
    nodes.resize(count, None)
}

// The receiver is owed so many more, and is engaged by the sender if it is neutral and owed anything.
// Answers whom a signal goes to: the sender, unless it engaged the receiver.
pub(crate) fn receive(
    nodes: &mut Vec<Option<Engagement>>,
    from: Parent,
    to: u64,
    count: u64,
) -> Result<Option<Parent>, AllocError>
    requires { kept 0 nodes.old.items (AnyParent.Node to) + count < 2 ^ 64 }
    ensures received { IfOk result (λ by. Receives nodes.old.items nodes.new.items from to count by) }
    ensures growth { OnErr result ((engagement_of nodes.old.items to ≡ None) × (0 < count)) }
    ensures unchanged { OnErr result (nodes.new.items ≡ nodes.old.items) }
{
    let place = to as usize;
    if place < nodes.len() {
        if let Some(engaged) = &mut nodes[place] {
            engaged.deficit += count;
            return Ok(Some(from));
        }
    }
    if count == 0 {
        return Ok(Some(from));
    }
    make_place(nodes, to)?;
    nodes[to as usize] = Some(Engagement {
        parent: from,
        deficit: count,
    });
    Ok(None)
}

// A node is owed one less. Where it is then owed nothing it is let go, and the answer is who engaged it.
fn pay(nodes: &mut Vec<Option<Engagement>>, node: u64) -> Option<Parent>
    requires { 0 < kept 0 nodes.old.items (AnyParent.Node node) }
    ensures { Pays nodes.old.items nodes.new.items node result }
{
    let Some(engaged) = &mut nodes[node as usize] else {
        unreachable!()
    };
    if engaged.deficit > 1 {
        engaged.deficit -= 1;
        return None;
    }
    let parent = engaged.parent;
    nodes[node as usize] = None;
    Some(parent)
}

// One is owed one less. A node that is then owed nothing is let go, and the answer is who engaged it.
pub(crate) fn deliver(
    environment: &mut u64,
    nodes: &mut Vec<Option<Engagement>>,
    to: Parent,
) -> Option<Parent>
    requires { 0 < kept environment.old nodes.old.items to }
    ensures { Delivers environment.old environment.new nodes.old.items nodes.new.items to result }
{
    match to {
        Parent::Neutral => None,
        Parent::Environment => {
            *environment -= 1;
            None
        }
        Parent::Node(node) => pay(nodes, node),
    }
}
