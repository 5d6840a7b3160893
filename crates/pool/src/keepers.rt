//! The one history of a desk: who keeps it, and who has seen a beginning of it.
ghost use Rattle.std.specs.Prelude.{ℕ, ◌≡◌, ◌-◌, ◌^◌, ◌++◌, ◌∷◌, []};
ghost use mathlib.Core.List.{IsPrefix};
ghost use Rattle.pool.specs.Histories.{own_of, IsLegal, item_of};

use crate::rights::{self, Admission, Authority};
use crate::seats::{Add, Borrowed, Fresh, Knows, Law, Look, Telling};
use crate::tallies;
use crate::turns::Noted;
use atomic_table::{Seat, Table};
use std::alloc::{AllocError, Global};
use std::marker::{Brand, Model, PhantomData};
use std::mem;
use std::sync::ledger::{Blank, Ledger};

/// Which history it is, and of which tenants. Each call of a program picks it.
pub trait Naming: Ledger {
    ghost use Rattle.std.specs.Prelude.{List, ℕ};
    ghost use Rattle.atomic_table.specs.Seated.{TableId};
    ghost use Rattle.quotas.specs.Quota.{Quota};

    ghost table: { TableId };

    ghost letters: { ℕ };

    ghost rights: { ℕ };

    ghost roster: { List (List ℕ × Quota) };
}

impl Naming for Brand {
    ghost use Rattle.std.specs.Prelude.{[]};

    ghost table = { record { words = 0; slots = 0; views_name = 0; atom = 0; block = 0; offset = 0; slot_names = [] } };

    ghost letters = { 0 };

    ghost rights = { 0 };

    ghost roster = { [] };
}

/// How many parts the ledger of a desk has: one for each pass that may be out, and one that stays.
const PARTS: u64 = (1 << 32) + 1;

/// A history in which nothing stands, ledgers in which nothing is counted, of accepted changes and of finished letters, and the
/// rights over a desk, which have no name yet. Contracts see what names them.
#[derive(Drop)]
pub struct Unnamed {
    table: Table<u8, Knows, (), Law, Global>,
    seat: Seat<u8, Knows>,
    blank: Blank,
    letters: Blank,
    rights: Blank,
}

impl Model for Unnamed {
    ghost use Rattle.std.specs.Prelude.{◌≡◌, ◌+◌, ◌-◌, ◌^◌, []};
    ghost use Rattle.pool.specs.Rules.{Names, keeper};

    ghost Value = { Names };

    ghost view = { λ u. record {
      ledger = u.blank.name;
      parts = u.blank.parts;
      table = u.table.shared.table_id;
      letters = u.letters.name;
      rights = u.rights.name;
    } };

    ghost invariant = { λ u.
        (u.seat.table_id ≡ u.table.shared.table_id)
        × (u.table.shared.table_id.words ≡ 1)
        × (u.seat.me ≡ (keeper 0 [], []))
        × (u.blank.parts ≡ 2 ^ 32 + 1)
        × (u.letters.parts ≡ 2 ^ 64 - 1)
        × (u.rights.parts ≡ 1) };
}

impl Unnamed {
    /// Takes the memory for them, of one word.
    pub fn make(alloc: Global) -> Result<Unnamed, AllocError> {
        let (table, seat) = Table::of_words(alloc, &[0], &())?;
        Ok(Unnamed {
            table,
            seat,
            blank: Blank::new(PARTS),
            letters: Blank::new(tallies::PARTS),
            rights: Blank::new(rights::PARTS),
        })
    }

    /// The keeper of the history, the ledgers, and the authority, under a name.
    pub(crate) fn named<J: Naming>(self) -> (Keeper<J>, Blank, Blank, Authority<J>)
        requires { self ≡ record { ledger = J.name; parts = J.parts; table = J.table; letters = J.letters; rights = J.rights } }
        ensures keeper { result.0 ≡ [] }
        ensures ledger { (result.1.name ≡ J.name) × (result.1.parts ≡ J.parts) × (result.1.parts ≡ PARTS) }
        ensures letters { (result.2.name ≡ J.letters) × (result.2.parts ≡ 2 ^ 64 - 1) }
    {
        let Unnamed {
            table,
            seat,
            blank,
            letters,
            rights,
        } = self;
        let keeper = Keeper {
            table,
            seat,
            of: PhantomData,
        };
        (keeper, blank, letters, Authority::of(rights))
    }
}

/// All that tenants were told, of which nobody else has more: who has the keeper adds to it. Contracts see it as that.
#[derive(Drop)]
pub struct Keeper<J: Naming> {
    table: Table<u8, Knows, (), Law, Global>,
    seat: Seat<u8, Knows>,
    of: PhantomData<J>,
}

impl<J: Naming> Model for Keeper<J> {
    ghost use Rattle.std.specs.Prelude.{◌≡◌, List, []};
    ghost use Rattle.std.specs.Coded.{codes};
    ghost use Rattle.std.specs.FinMap as fin;
    ghost use Rattle.search.specs.contracts.stages.Stage as running;
    ghost use Rattle.search.specs.contracts.findings.Monitor as memory;
    ghost use Rattle.pool.specs.declared.turns.Item.{Item};
    ghost use Rattle.pool.specs.Rules.{keeper, AreNamed};
    ghost use Rattle.pool.specs.Histories.{IsLegal};

    ghost Value = { List Item };

    ghost coded = { Prim.hlevel (codes, fin.code, running.the_row.coded, memory.the_row.coded) };

    ghost view = { λ k. k.seat.me.0.all };

    ghost invariant = { λ k.
        (k.table.shared.table_id ≡ J.table)
        × (k.seat.table_id ≡ J.table)
        × (J.table.words ≡ 1)
        × (k.seat.me ≡ (keeper k.seat.me.0.drawn k.seat.me.0.all, []))
        × AreNamed k.seat.me.0.drawn k.seat.me.0.all
        × IsLegal J.roster k.seat.me.0.all };
}

/// A beginning of what tenants were told, which was seen, and the right to add to it under a name, which no other has.
/// Contracts see it as both.
#[derive(Drop)]
pub struct Front<J: Naming> {
    seat: Seat<u8, Knows>,
    of: PhantomData<J>,
}

impl<J: Naming> Model for Front<J> {
    ghost use Rattle.std.specs.Prelude.{◌≡◌, List, []};
    ghost use Rattle.std.specs.Coded.{codes};
    ghost use Rattle.std.specs.FinMap as fin;
    ghost use Rattle.search.specs.contracts.stages.Stage as running;
    ghost use Rattle.search.specs.contracts.findings.Monitor as memory;
    ghost use Rattle.pool.specs.Rules.{adds_under};
    ghost use Rattle.pool.specs.Histories.{FrontState, IsLegal};

    ghost Value = { FrontState };

    ghost coded = { Prim.hlevel (codes, fin.code, running.the_row.coded, memory.the_row.coded) };

    ghost view = { λ f. record { name = f.seat.me.0.name; seen = f.seat.me.0.seen } };

    ghost invariant = { λ f.
        (f.seat.table_id ≡ J.table)
        × (f.seat.me ≡ (adds_under f.seat.me.0.name f.seat.me.0.seen, []))
        × IsLegal J.roster f.seat.me.0.seen };
}

/// What a front had seen by which nothing is added any more. Contracts see it as the front.
#[derive(Drop)]
pub struct Beginning<J: Naming> {
    front: Front<J>,
}

impl<J: Naming> Model for Beginning<J> {
    ghost use Rattle.std.specs.Coded.{codes};
    ghost use Rattle.std.specs.FinMap as fin;
    ghost use Rattle.search.specs.contracts.stages.Stage as running;
    ghost use Rattle.search.specs.contracts.findings.Monitor as memory;
    ghost use Rattle.pool.specs.Histories.{FrontState};

    ghost Value = { FrontState };

    ghost coded = { Prim.hlevel (codes, fin.code, running.the_row.coded, memory.the_row.coded) };

    ghost view = { λ b. b.front };
}

impl<J: Naming> Keeper<J> {
    /// A front that has seen all, under a name of which there is no item, for who has the right to be let in.
    pub fn front(&mut self, _admission: Admission<J>) -> Front<J>
        ensures seen { result.seen ≡ self.old }
        ensures own { own_of result.name result.seen ≡ [] }
        ensures same { self.new ≡ self.old }
    {
        self.fresh()
    }

    /// All that is there, as one that adds nothing has seen it.
    pub fn seen(&mut self) -> Beginning<J>
        ensures seen { result.seen ≡ self.old }
        ensures same { self.new ≡ self.old }
    {
        self.fresh().end()
    }

    /// A front that has seen all, under a name of which there is no item.
    fn fresh(&mut self) -> Front<J>
        ensures seen { result.seen ≡ self.old }
        ensures own { own_of result.name result.seen ≡ [] }
        ensures same { self.new ≡ self.old }
    {
        let table = &self.table;
        let seat = table.shared.split_seat::<Fresh>(&mut self.seat);
        Front {
            seat,
            of: PhantomData,
        }
    }

    /// Takes back a front that adds nothing any more. What it had seen is a beginning of what is there.
    pub fn take_back(&mut self, ended: Beginning<J>)
        ensures began { IsPrefix ended.seen self.old }
        ensures same { self.new ≡ self.old }
    {
        let Beginning { front } = ended;
        let Front { seat, of: _ } = front;
        let table = &self.table;
        table.shared.join_seat::<Borrowed>(&mut self.seat, seat);
        let _word = table.shared.load::<Look>(&mut self.seat, 0);
        let _seat = table.shared.split_seat::<Borrowed>(&mut self.seat);
    }

    /// Goes on by what was noted, under the name of the front, and shows all to it. It had seen a beginning of what was there
    /// before, with all items that it added: this is one more of them.
    pub fn tell(&mut self, front: &mut Front<J>, noted: &Noted)
        requires { IsLegal J.roster (self.old ++ item_of front.old.name noted.now ∷ []) }
        ensures began { IsPrefix front.old.seen self.old }
        ensures own { own_of front.old.name self.new ≡ own_of front.old.name front.old.seen ++ item_of front.old.name noted.now ∷ [] }
        ensures front { front.new ≡ record front.old { seen = self.new } }
        ensures history { self.new ≡ self.old ++ item_of front.old.name noted.now ∷ [] }
    {
        self.tell_as::<Brand>(front, noted);
    }

    fn tell_as<T: Telling>(&mut self, front: &mut Front<J>, noted: &Noted)
        requires item { T.item ≡ item_of front.old.name noted.now }
        requires legal { IsLegal J.roster (self.old ++ item_of front.old.name noted.now ∷ []) }
        ensures began { IsPrefix front.old.seen self.old }
        ensures own { own_of front.old.name self.new ≡ own_of front.old.name front.old.seen ++ item_of front.old.name noted.now ∷ [] }
        ensures front { front.new ≡ record front.old { seen = self.new } }
        ensures history { self.new ≡ self.old ++ item_of front.old.name noted.now ∷ [] }
    {
        let other = self.fresh();
        let Front { seat, of: _ } = mem::replace(front, other);
        let table = &self.table;
        table.shared.join_seat::<Borrowed>(&mut self.seat, seat);
        let _word = table.shared.load::<Add<T>>(&mut self.seat, 0);
        let seat = table.shared.split_seat::<Borrowed>(&mut self.seat);
        *front = Front {
            seat,
            of: PhantomData,
        };
        let _noted = noted;
    }
}

impl<J: Naming> Front<J> {
    /// Adds nothing any more.
    pub fn end(self) -> Beginning<J>
        ensures { result ≡ self }
    {
        Beginning { front: self }
    }

    /// What was seen is legal.
    pub fn is_legal(&self)
        ensures { IsLegal J.roster self.now.seen }
    {
        let _ = &self.seat;
    }
}
