//! Rows that others may hold too. A change is made of a copy then, so that what others hold never changes.
ghost use Rattle.std.specs.Prelude.{◌≡◌, ◌++◌, ◌<◌, ◌≤◌, length, IfOk, OnOk, OnErr};
ghost use Rattle.std.proofs.Common.{insert};
ghost use Rattle.std.specs.Arc.{arc_value};

use crate::rows::Row;
use credential_text::Credential;
use std::alloc::AllocError;
use std::sync::Arc;

/// Puts a row with a copy of the credential at its place.
pub fn insert_row(
    held: &mut Arc<Vec<Row>>,
    place: usize,
    credential: &Credential,
) -> Result<(), AllocError>
    requires { place ≤ length (arc_value held.old).items }
    ensures inserted { OnOk result ((arc_value held.new).items ≡ insert (arc_value held.old).items place credential.now) }
    ensures unchanged { OnErr result ((arc_value held.new).items ≡ (arc_value held.old).items) }
{
    let rows = Arc::make_mut(held)?;
    let beside = rows.get(place.saturating_sub(1));
    let row = Row::of(*rows.allocator(), beside, credential)?;
    rows.insert(place, row)?;
    Ok(())
}

/// Keeps the rows before the place, and gives the others, to be held by others too.
pub fn part(rows: &mut Vec<Row>, place: usize) -> Result<Arc<Vec<Row>>, AllocError>
    requires { place ≤ length rows.old.items }
    ensures parted { IfOk result (λ rest. rows.old.items ≡ rows.new.items ++ (arc_value rest).items) }
    ensures kept { OnOk result (length rows.new.items ≡ place) }
    ensures unchanged { OnErr result (rows.new.items ≡ rows.old.items) }
{
    let alloc = *rows.allocator();
    let rest = rows.split_off(place)?;
    match Arc::new(alloc, rest) {
        Ok(rest) => Ok(rest),
        Err(refused) => {
            let mut rest = refused.value;
            let _room = rows.append(&mut rest);
            Err(AllocError)
        }
    }
}
