ghost use Rattle.std.specs.Prelude.{◌≡◌, None, IsSome, OnOk, OnErr};
ghost use Rattle.monitors.specs.Made.{Begins};

use std::alloc::{AllocError, Global};

/// What begins empty.
pub trait Empty: Drop {
    ghost IsEmpty: { Self → Type 0 };

    fn empty(alloc: Global) -> Self
        ensures { IsEmpty result };
}

/// Makes what stands on the heap, empty, where there is nothing yet.
pub fn make<T: Empty>(place: &mut Option<Box<T>>, alloc: Global) -> Result<(), AllocError>
    ensures made { OnOk result (IsSome place.new) }
    ensures lacking { OnErr result (place.old ≡ None) }
    ensures begins { Begins T.IsEmpty place.old place.new }
{
    if let None = place {
        *place = Some(Box::new(alloc, T::empty(alloc))?);
    }
    Ok(())
}
