ghost use Rattle.std.specs.Prelude.{◌≡◌, ◌↔◌, ◌≤◌, length, IsSome, IfSome};

use smallvec::SmallVec;
use std::alloc::Global;
use std::marker::Model;

/// The most premises of a step: one for each part of an intersection.
pub(crate) const MOST_PREMISES: usize = 8;

/// The steps that a step by parts stands on, up to 8, counted from 0: the first for the first part, and so on.
#[derive(Drop)]
pub struct Premises {
    places: SmallVec<usize, 8>,
}

impl Model for Premises {
    ghost use Rattle.std.specs.Prelude.{List, ℕ};

    ghost Value = { List ℕ };

    ghost view = { λ p. p.places.items };
}

impl Premises {
    /// These steps in order, or `None` where they are more than 8. Takes no memory.
    pub fn make(alloc: Global, places: &[usize]) -> Option<Premises>
        ensures made { IsSome result ↔ (length places.now ≤ 8) }
        ensures places { IfSome result (λ premises. premises ≡ places.now) }
    {
        if places.len() > MOST_PREMISES {
            return None;
        }
        let places = SmallVec::from_slice(alloc, places).ok()?;
        Some(Premises { places })
    }

    /// The steps in order.
    pub fn as_slice(&self) -> &[usize]
        ensures { result.now ≡ self.now }
    {
        self.places.as_slice()
    }
}
