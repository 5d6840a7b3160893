ghost use Rattle.std.specs.Prelude.{◌<◌, OnOk, OnErr, length, map};
ghost use Rattle.cred_graph.specs.NodeLists.{AreSame, AddsAt};

use crate::listeners::KeptListening;
use smallvec::SmallVec;
use std::alloc::AllocError;

/// The listeners of a node and the numbers of its solutions, each in order of adding. Two listeners and four numbers
/// stand in the record itself.
pub struct NodeLists {
    pub listeners: SmallVec<KeptListening, 2>,
    pub members: SmallVec<u32, 4>,
}

impl Drop for NodeLists {
    fn drop(self) {
        let NodeLists {
            listeners: _listeners,
            members: _members,
        } = self;
    }
}

/// Adds a listener at the end of those of the node.
pub fn add_listener(
    lists: &mut Vec<NodeLists>,
    n: u32,
    listening: KeptListening,
) -> Result<(), AllocError>
    ensures added { OnOk result
        (AddsAt (map (λ r. r.listeners.items) lists.old.items) (map (λ r. r.listeners.items) lists.new.items) n listening) }
    ensures unchanged { OnErr result
        (AreSame (map (λ r. r.listeners.items) lists.old.items) (map (λ r. r.listeners.items) lists.new.items)) }
    ensures members { AreSame (map (λ r. r.members.items) lists.old.items) (map (λ r. r.members.items) lists.new.items) }
{
    let n = n as usize;
    reach(lists, n)?;
    lists[n].listeners.push(listening)?;
    Ok(())
}

/// Adds an entity at the end of the solutions of the node.
pub fn add_member(lists: &mut Vec<NodeLists>, n: u32, who: u32) -> Result<(), AllocError>
    ensures added { OnOk result
        (AddsAt (map (λ r. r.members.items) lists.old.items) (map (λ r. r.members.items) lists.new.items) n who) }
    ensures unchanged { OnErr result
        (AreSame (map (λ r. r.members.items) lists.old.items) (map (λ r. r.members.items) lists.new.items)) }
    ensures listeners { AreSame (map (λ r. r.listeners.items) lists.old.items) (map (λ r. r.listeners.items) lists.new.items) }
{
    let n = n as usize;
    reach(lists, n)?;
    lists[n].members.push(who)?;
    Ok(())
}

/// Makes lists up to the one of this number.
fn reach(lists: &mut Vec<NodeLists>, n: usize) -> Result<(), AllocError>
    ensures listeners { AreSame (map (λ r. r.listeners.items) lists.old.items) (map (λ r. r.listeners.items) lists.new.items) }
    ensures members { AreSame (map (λ r. r.members.items) lists.old.items) (map (λ r. r.members.items) lists.new.items) }
    ensures reached { OnOk result (n < length lists.new.items) }
{
    let alloc = *lists.allocator();
    while lists.len() <= n {
        lists.push(NodeLists {
            listeners: SmallVec::new(alloc),
            members: SmallVec::new(alloc),
        })?;
    }
    Ok(())
}
