//! The list of signals under way, oldest first.
ghost use Rattle.std.specs.Prelude.{◌≡◌, ◌<◌, ◌++◌, Some, option_to_list, remove, slice_get};
ghost use Rattle.std.specs.VecDeque.{deque_len, deque_capacity};

use crate::parents::Parent;
use std::collections::VecDeque;

// Puts a signal, if there is one to put, at the end of the list, where there is room for it.
pub(crate) fn put(signals: &mut VecDeque<Parent>, to: Option<Parent>)
    requires { deque_len signals.old < deque_capacity signals.old }
    ensures { signals.new.items ≡ signals.old.items ++ option_to_list to }
{
    if let Some(to) = to {
        signals.push_back_reserved(to);
    }
}

// Takes the signal at that place out of the list. Where it is the oldest nothing is moved.
pub(crate) fn take(signals: &mut VecDeque<Parent>, place: usize) -> Parent
    requires { place < deque_len signals.old }
    ensures signal { slice_get signals.old.items place ≡ Some result }
    ensures rest { signals.new.items ≡ remove signals.old.items place }
    ensures room { deque_len signals.new < deque_capacity signals.new }
{
    let taken = if place == 0 {
        signals.pop_front()
    } else {
        signals.remove(place)
    };
    taken.unwrap()
}
