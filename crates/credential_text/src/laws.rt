ghost use Rattle.std.specs.Prelude.{◌≡◌, ◌↔◌, IsTrue};
ghost use Rattle.credential_text.specs.declared.exprs.Expr.{Expr as AnyExpr};
ghost use Rattle.credential_text.specs.declared.intersections.Part.{Part as AnyPart};
ghost use Rattle.credential_text.specs.Laws.{CanonicalSpells, CanonicalIsShort, NoTextSpellsTwo, RefusedUnlessSpelled};
ghost use Rattle.credential_text.specs.Laws.{ExprsInOrder, CredentialsInOrder};

use crate::exprs::Expr;
use crate::intersections::Part;

/// The laws of spellings: the canonical spelling spells its credential and is short, no text spells two credentials,
/// and a text of at most 4,096 bytes is refused exactly where it spells none.
pub fn spelling_is_exact()
    ensures canonical_spells { CanonicalSpells }
    ensures canonical_is_short { CanonicalIsShort }
    ensures one_meaning { NoTextSpellsTwo }
    ensures refused_unless_spelled { RefusedUnlessSpelled }
{}

/// The laws of the orders: both are total, and two are tied only where they are equal.
pub fn orders_are_total()
    ensures exprs { ExprsInOrder }
    ensures credentials { CredentialsInOrder }
{}

/// The laws of `==`: two parts, or two expressions, are found the same exactly where they are equal.
pub fn equality_is_exact()
    ensures parts { (p q : AnyPart) → IsTrue (⟦<Part as PartialEq>⟧.eq p q) ↔ (p ≡ q) }
    ensures exprs { (e f : AnyExpr) → IsTrue (⟦<Expr as PartialEq>⟧.eq e f) ↔ (e ≡ f) }
{}
