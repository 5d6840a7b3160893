ghost use Rattle.std.specs.Prelude.{ℕ, List, Some, ◌≡◌, ◌≢◌, ◌++◌, ◌≤◌, length, map, take, IfOk, OnOk};
ghost use Rattle.std.specs.List.{All, slice_get};
ghost use Rattle.std.specs.List.Sorted.{IsStrictlySortedBy};
ghost use Rattle.std.specs.declared.cmp.Ordering.TheVariants.{Less};
ghost use Rattle.names.specs.Name.{name_order};
ghost use Rattle.vaults.specs.Merge.{to_everybody, is_first, AreMerged};

use crate::marks::Seen;
use names::Entity;
use std::alloc::{AllocError, Global};

/// The names of both lists, each once, marked where it stands among the public ones. One pass over each list.
pub fn merged(alloc: Global, names: &[Entity], public: &[Entity]) -> Result<Vec<Seen>, AllocError>
    requires names { IsStrictlySortedBy name_order names.now }
    requires public { IsStrictlySortedBy name_order public.now }
    ensures { IfOk result (λ seen. AreMerged names.now public.now seen.items) }
{
    let mut seen = Vec::new(alloc);
    let mut rest = public;
    for name in names {
        let before = push_before(&mut seen, rest, name)?;
        let (_pushed, behind) = rest.split_at(before);
        let to_all = starts_with(behind, name);
        rest = if to_all { &behind[1..] } else { behind };
        seen.push(Seen {
            name: *name,
            to_all,
        })?;
    }
    push_all(&mut seen, rest)?;
    Ok(seen)
}

/// Appends the public names before the first that isn't before the name, and answers how many they are.
fn push_before(seen: &mut Vec<Seen>, public: &[Entity], name: &Entity) -> Result<usize, AllocError>
    ensures pushed { IfOk result (λ n. seen.new.items ≡ seen.old.items ++ map to_everybody (take n public.now)) }
    ensures before { IfOk result (λ n. All (λ other. name_order other name.now ≡ Less) (take n public.now)) }
    ensures stop { IfOk result (λ n. (other : List ℕ) → slice_get public.now n ≡ Some other → name_order other name.now ≢ Less) }
    ensures within { IfOk result (λ n. n ≤ length public.now) }
{
    for (count, other) in public.iter().enumerate() {
        if !other.compare(name).is_lt() {
            return Ok(count);
        }
        seen.push(to_everybody(*other))?;
    }
    Ok(public.len())
}

/// Whether the name is the first of the names.
fn starts_with(names: &[Entity], name: &Entity) -> bool
    ensures { result ≡ is_first name.now names.now }
{
    match names.first() {
        Some(first) => *first == *name,
        None => false,
    }
}

/// Appends all of the public names.
fn push_all(seen: &mut Vec<Seen>, public: &[Entity]) -> Result<(), AllocError>
    ensures { OnOk result (seen.new.items ≡ seen.old.items ++ map to_everybody public.now) }
{
    for name in public {
        seen.push(to_everybody(*name))?;
    }
    Ok(())
}

/// A name whose vault is public.
fn to_everybody(name: Entity) -> Seen
    ensures { result ≡ to_everybody name }
{
    Seen { name, to_all: true }
}
