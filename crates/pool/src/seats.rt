use crate::turns::Item;
use atomic_table::{Join, Play, Split, TableRule};
use std::collections::LinkedList;
use std::marker::{Brand, PhantomData};

/// What a seat knows: the keeper's how many names were drawn, and all that was told; another's its name, and a beginning of
/// all that was told. No value of it is made.
pub struct Knows {
    pub keeps: bool,
    pub drawn: u64,
    pub all: LinkedList<Item>,
    pub named: bool,
    pub name: u64,
    pub seen: LinkedList<Item>,
}

/// One seat at most knows the whole history.
pub struct Law;

impl TableRule<u8, Knows, ()> for Law {
    ghost use Rattle.std.specs.Prelude.{[]};
    ghost use Rattle.pool.specs.Rules.{IsKept, keeper};

    ghost holds = { λ key s. IsKept s.views };

    ghost first = { λ key. keeper 0 [] };
}

/// What is told. Each call picks it.
pub trait Telling {
    ghost use Rattle.pool.specs.declared.turns.Item.{Item};

    ghost item: { Item };
}

impl Telling for Brand {
    ghost use Rattle.pool.specs.declared.turns.Item.TheVariants as item;

    ghost item = { item.Stopped 0 };
}

/// The keeper compares a beginning with all, and adds an item.
pub struct Add<T: Telling>(PhantomData<T>);

impl<T: Telling> Play<u8, Knows> for Add<T> {
    ghost use Rattle.pool.specs.Rules.{Adds};

    ghost then = { Adds T.item };
}

/// The keeper compares a beginning with all.
pub struct Look;

impl Play<u8, Knows> for Look {
    ghost use Rattle.std.specs.Prelude.{◌≡◌};
    ghost use mathlib.Core.List.{IsPrefix};

    ghost then = { λ s v found w. (w.0 ≡ record v.0 { seen = v.0.all }) × (w.1 ≡ v.1) × IsPrefix v.0.seen v.0.all };
}

/// A seat with a fresh name that has seen all.
pub struct Fresh;

impl Split<Knows> for Fresh {
    ghost use Rattle.std.specs.Prelude.{◌+◌};
    ghost use Rattle.pool.specs.Rules.{adds_under};

    ghost left = { λ v. record v { drawn = v.drawn + 1 } };

    ghost right = { λ v. adds_under v.drawn v.all };
}

/// The keeper takes a seat in, with its name; and that goes out again, and has seen all.
pub struct Borrowed;

impl Join<Knows> for Borrowed {
    ghost use Rattle.std.specs.Prelude.{false, []};

    ghost both = { λ v w. record v { named = w.named; name = w.name; seen = w.seen } };

    ghost spent = { record { keeps = false; drawn = 0; all = []; named = false; name = 0; seen = [] } };
}

impl Split<Knows> for Borrowed {
    ghost use Rattle.std.specs.Prelude.{false, []};
    ghost use Rattle.pool.specs.Rules.{adds_under};

    ghost left = { λ v. record v { named = false; name = 0; seen = [] } };

    ghost right = { λ v. adds_under v.name v.all };
}
