ghost use Rattle.std.specs.Prelude.{◌≡◌, true};
ghost use Rattle.std.specs.Cmp.Lexicographic.{texts_ties};
ghost use Rattle.std.proofs.Common.{sym, ◌∙◌};
ghost use Rattle.std.proofs.lemmas.Bool.{eqb-true};
ghost use Rattle.std.proofs.lemmas.Map.Lookups.{exact_bytes};
ghost use Rattle.std.proofs.lemmas.Map.Views.{tells_apart};

use names::Entity;
use std::hash::Hash;

/// What an entity is known by: its name, or a number. Keys that are equal are the same.
pub trait Key: Copy + Drop + Eq + Hash {
    ghost exact: { (x y : Self) → Self.eq x y ≡ true → x ≡ y };
}

impl Key for Entity {
    ghost exact = { λ x y e. tells_apart exact_bytes x y (sym (texts_ties x y) ∙ e) };
}

impl Key for u32 {
    ghost exact = { λ x y e. eqb-true x y e };
}
