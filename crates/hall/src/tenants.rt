//! The tenants of a hall, by name.
ghost use Rattle.std.specs.Prelude.{◌≡◌, List, IfOk, IfErr, None, Some, map};
ghost use Rattle.std.specs.{FinMap.get, FinMap.from_entries, List.IsDistinct, Borrow.sem};
ghost use Rattle.{names.specs.Name.is_same, hall.specs.Hall.new_tenant, hall.specs.Kept.IsNowhere};

use crate::faults::Fault;
use crate::open_searches::OpenSearch;
use crate::places::place_of;
use crate::seats::Seat;
use indexmap::IndexMap;
use names::Entity;
use quotas::Limits;
use std::alloc::{AllocError, Global};
use std::marker::Model;

/// By its name the seat of each tenant.
#[derive(Drop)]
pub(crate) struct Tenants {
    seats: IndexMap<Entity, Seat>,
    // Where the seat stands that was lent last.
    hand: usize,
}

impl Model for Tenants {
    ghost use Rattle.std.specs.{Coded.codes, FinMap.FinMap, FinMap.from_entries};
    ghost use Rattle.std.specs.FinMap as fin;
    ghost use Rattle.search.specs.contracts.stages.Stage as running;
    ghost use Rattle.search.specs.contracts.findings.Monitor as memory;
    ghost use Rattle.{names.specs.Name.name_order, hall.specs.Hall.Tenant};

    ghost Value = { FinMap name_order Tenant };

    ghost coded = { Prim.hlevel (codes, fin.code, running.the_row.coded, memory.the_row.coded) };

    ghost view = { λ t. from_entries t.seats.entries };
}

impl Tenants {
    ghost use Rattle.std.specs.{Borrow.LendsIfOk, Borrow.LendsSoOk, FinMap.insert, Option.option_and_then};
    ghost use Rattle.vaults.specs.declared.changes.Entry.{Entry};
    ghost use Rattle.hall.specs.Hall.{with_search};
    ghost use Rattle.hall.specs.contracts.tenants.Tenants as tenants;
    ghost use Rattle.hall.specs.contracts.seats.Seat as seat;
    ghost use Rattle.hall.specs.contracts.open_searches.OpenSearch as opened;

    /// The tenants of the roster, none of which has done anything.
    pub(crate) fn new(alloc: Global, roster: &[(Entity, Limits)]) -> Result<Tenants, AllocError>
        requires { IsDistinct is_same (map (λ row. row.0) roster.now) }
        ensures { IfOk result (λ t. t ≡ from_entries (map (λ row. (row.0, new_tenant row.1)) roster.now)) }
    {
        let mut seats = IndexMap::new(alloc);
        for (name, limits) in roster {
            seats.insert(*name, Seat::new(alloc, *limits))?;
        }
        Ok(Tenants { seats, hand: 0 })
    }

    /// The tenant's seat. Where there is none the refusal is 62.
    pub(crate) fn seat(&self, who: Entity) -> Result<&Seat, Fault>
        ensures here { IfOk result (λ seat. get self.now who ≡ Some seat.now) }
        ensures nobody { IfErr result (λ f. (f ≡ Fault.NoTenant) × (get self.now who ≡ None)) }
    {
        let place = place_of(&self.seats, self.hand, &who);
        match self.seats.get_index(place) {
            Some((_name, seat)) => Ok(seat),
            None => Err(Fault::NoTenant),
        }
    }

    /// The tenant's seat, to change.
    #[inline(always)]
    pub(crate) fn seat_mut(&mut self, who: &Entity) -> Result<&mut Seat, Fault>
        ensures* lends { sem 𝓛 (LendsIfOk tenants.the_row seat.the_row self.entry result (insert self.entry.now who.now) self.entry.now) }
        ensures here { IfOk result (λ seat. get self.old who.now ≡ Some seat.now) }
        ensures nobody { IfErr result (λ f. (f ≡ Fault.NoTenant) × (get self.old who.now ≡ None)) }
    {
        let place = place_of(&self.seats, self.hand, who);
        self.hand = place;
        match self.seats.get_index_mut(place) {
            Some(seat) => Ok(seat),
            None => Err(Fault::NoTenant),
        }
    }

    /// The tenant's search of the number, to go on with. The order of refusals: 62, 51.
    #[inline(always)]
    pub(crate) fn opened_mut(&mut self, who: &Entity, number: u64) -> Result<&mut OpenSearch, Fault>
        ensures* lends { sem 𝓛 (LendsSoOk tenants.the_row opened.the_row self.entry result
            (λ n q. (journal : List Entry) → record { journal = journal; tenants = n }
            ≡ with_search (record { journal = journal; tenants = self.entry.now }) who.now number q)
            (λ n. n ≡ self.entry.now)) }
        ensures here { IfOk result (λ opened. option_and_then (λ t. get t.searches number) (get self.old who.now) ≡ Some opened.now) }
        ensures nowhere { IfErr result (IsNowhere number (get self.old who.now)) }
    {
        let seat = self.seat_mut(who)?;
        let place = place_of(&seat.searches, seat.hand, &number);
        seat.hand = place;
        match seat.searches.get_index_mut(place) {
            Some(opened) => Ok(opened),
            None => Err(Fault::NoSuchSearch),
        }
    }
}
