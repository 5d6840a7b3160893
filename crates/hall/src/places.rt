//! Where an entry of a map stands, with one place tried first: what was asked for last is often asked for next.
ghost use Rattle.std.specs.Prelude.{◌≡◌, true, None, MatchOption, slice_get};
ghost use Rattle.std.specs.Map.{lookup};

use indexmap::IndexMap;
use std::hash::Hash;

/// Where the key's entry stands, or where none does if it has none. The place at hand is tried before the map's index.
#[inline(always)]
pub(crate) fn place_of<K: Eq + Hash, V>(map: &IndexMap<K, V>, hand: usize, key: &K) -> usize
    ensures { MatchOption (slice_get map.now.entries result) (lookup (K.eq key.now) map.now.entries ≡ None) (λ e. K.eq key.now e.0 ≡ true) }
{
    match map.get_index(hand) {
        Some((found, _)) if *key == *found => hand,
        _ => map.get_index_of(key).unwrap_or(map.len()),
    }
}
