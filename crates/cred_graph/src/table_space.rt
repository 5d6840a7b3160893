//! How much room the tables of a graph make, and keep where they give memory back. `usize::MAX` is all that a table has.
ghost use Rattle.std.specs.Prelude.{◌≡◌, ◌-◌, ◌≤◌, ◌/◌, ◌^◌, ◌&&◌, ◌||◌, nat_le, nat_lt, if◌then◌else◌};

/// Room for so many entries is made with the first one, as many as sixteen groups of a map's index take. What begins smaller is
/// moved several times in a search of a hundred letters.
const FIRST_ROOM: usize = 144;

/// A table of fewer entries grows fourfold, so that it is moved and indexed anew less often, and keeps its room as it is emptied.
const SMALL: usize = 4096;

/// For how many entries room is made where it is asked for one: a table that is full and still small grows fourfold.
pub fn room_for_one(taken: usize, room: usize) -> usize
    ensures { 1 ≤ result }
{
    if taken == room {
        (3 * taken.min(SMALL)).max(FIRST_ROOM)
    } else {
        1
    }
}

/// The room that a table of so many entries keeps as it is emptied: all of it, where that is as much as a search begins with and
/// no more than a small table has. A table that has less is had anew sooner than it grows, since to grow moves what it had room
/// for. To empty a table with an index takes as long as its room is large, so one of which little was taken keeps none.
pub fn kept_when_empty(taken: usize, room: usize) -> usize
    ensures { result ≡ (if nat_le 36 room && nat_le room 4096 && (nat_le room 256 || nat_le (room / 16) taken) then 2 ^ 64 - 1 else 0) }
{
    if 36 <= room && room <= SMALL && (room <= 256 || room / 16 <= taken) {
        usize::MAX
    } else {
        0
    }
}

/// The room that a table keeps beyond what is taken, where memory is given back: none, if it is large, since its end is given back
/// without a move; all of it, if it is small, unless less than half is taken, since the next search begins in it.
pub fn kept_room(taken: usize, room: usize) -> usize
    ensures { result ≡ (if nat_lt 4096 room || nat_lt taken (room / 2) then 0 else 2 ^ 64 - 1) }
{
    if SMALL < room || taken < room / 2 {
        0
    } else {
        usize::MAX
    }
}
