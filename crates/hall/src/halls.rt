//! The hall of all tenants.
ghost use Rattle.std.specs.Prelude.{◌≡◌, ◌<◌, IfOk, IfErr, OnErr, is_some, option_copied, option_map, map, length};
ghost use Rattle.{std.specs.FinMap.get, std.specs.List.IsDistinct, names.specs.Name.is_same};
ghost use Rattle.hall.specs.declared.calls.requests.Request.TheVariants as request;
ghost use Rattle.hall.specs.declared.calls.replies.Reply.TheVariants as reply;
ghost use Rattle.hall.specs.Hall.{IsSound, IsServed, IsStepped, CarriesOut, told_as, new_hall, search_at};

use crate::calls::{Answer, Step, Stepped};
use crate::faults::Fault;
use crate::jobs::Job;
use crate::lists::{Rows, Sights};
use crate::open_searches::{OpenSearch, proof_of, told_of};
use crate::picking::{Busy, leave_going, settle};
use crate::remains::Remains;
use crate::tenants::Tenants;
use indexmap::IndexMap;
use names::Entity;
use proof_trees::Proof;
use quotas::Limits;
use search::{Hint, Query, Search, Tables};
use std::alloc::{AllocError, Global};
use std::marker::Model;
use std::sync::Arc;
use vaults::{Book, Change};

/// The journal of all tenants, by its name what each has opened, and which searches may still go on.
pub struct Hall {
    pub(crate) alloc: Global,
    book: Book,
    tenants: Tenants,
    pub(crate) busy: Busy,
    // The tables of a search that was ended, for the next one that is opened.
    spare: Tables,
}

impl Model for Hall {
    ghost use Rattle.std.specs.Coded.{codes};
    ghost use Rattle.std.specs.FinMap as fin;
    ghost use Rattle.search.specs.contracts.stages.Stage as running;
    ghost use Rattle.search.specs.contracts.findings.Monitor as memory;
    ghost use Rattle.hall.specs.Hall.{HallState};
    ghost use Rattle.hall.specs.Kept.{IsIndexed};

    ghost Value = { HallState };

    ghost coded = { Prim.hlevel (codes, fin.code, running.the_row.coded, memory.the_row.coded) };

    ghost view = { λ h. record { journal = h.book; tenants = h.tenants } };

    ghost invariant = { λ h. IsIndexed h.busy (record { journal = h.book; tenants = h.tenants }) };
}

// By hand, so that who holds one drops it by one call, whose proof stands here.
impl Drop for Hall {
    fn drop(self) {
        let Hall {
            alloc: _alloc,
            book: _book,
            tenants: _tenants,
            busy: _busy,
            spare: _spare,
        } = self;
    }
}

impl Hall {
    ghost use Rattle.hall.specs.declared.calls.steps.Step.TheVariants as step;
    ghost use Rattle.std.specs.Prelude.{MatchOption, IsSomeAnd};
    ghost use Rattle.{std.specs.Arc.arc_value, search.specs.Search.SearchState, hall.specs.Run.waits};
    ghost use Rattle.hall.specs.Hall.{Running};
    ghost use Rattle.std.specs.Borrow.{MutBor};
    ghost use Rattle.search.specs.Stage.{waiting_in};
    ghost use Rattle.hall.specs.Kept.{Continues, IsLent, IsNowhere};
    ghost use Rattle.hall.specs.Work.{IsTaken, SearchIsQuiet, IsCompletedAt};

    /// The hall of these tenants, where nothing was done yet.
    pub fn make(alloc: Global, roster: Vec<(Entity, Limits)>) -> Result<Hall, Fault>
        requires { IsDistinct is_same (map (λ row. row.0) roster.items) }
        ensures hall { IfOk result (λ h. h ≡ new_hall roster.items) }
        ensures only_memory { IfErr result (λ f. f ≡ Fault.Memory) }
    {
        Ok(Hall {
            alloc,
            book: Book::new(alloc),
            tenants: Tenants::new(alloc, &roster)?,
            busy: IndexMap::new(alloc),
            spare: Tables::new(alloc),
        })
    }

    /// Whether the name stands in the roster.
    pub fn has(&self, who: Entity) -> bool
        ensures { result ≡ is_some (get self.now.tenants who) }
    {
        self.tenants.seat(who).is_ok()
    }

    /// How many changes were accepted in all.
    pub fn journal_len(&self) -> u64
        ensures length { result ≡ length self.now.journal }
        ensures sound { IsSound self.now }
    {
        let _ = &self.tenants;
        self.book.journal_len()
    }

    /// Enters the tenant's change, and answers how many of its changes were accepted so far. Refused as 62, 44 of all changes,
    /// 41 of an upload and 42 of a grant to one reader or to all, then as the journal does (31 to 36), and for want of memory.
    pub fn change(&mut self, who: Entity, change: Change) -> Result<u64, Fault>
        ensures served { IsServed self.old who (request.Alter change) (told_as reply.Counted result) self.new }
    {
        self.alter(who, &change)
    }

    /// Enters the change, which stays the caller's.
    pub(crate) fn alter(&mut self, who: Entity, change: &Change) -> Result<u64, Fault>
        ensures served { IsServed self.old who (request.Alter change.now) (told_as reply.Counted result) self.new }
    {
        let seat = self.tenants.seat(who)?;
        seat.may_alter(&self.book, &who, change)?;
        Ok(self.book.enter(who, change)?)
    }

    /// Opens a search over what the tenant sees now, and answers its number. Refused as 62, 43, 45, then for want of memory.
    pub fn open(&mut self, who: Entity, query: Query) -> Result<u64, Fault>
        ensures served { IsServed self.old who (request.Seek query) (told_as reply.Opened result) self.new }
    {
        let seat = self.tenants.seat_mut(&who)?;
        seat.open(
            self.alloc,
            &mut self.book,
            &mut self.busy,
            who,
            query,
            &mut self.spare,
        )
    }

    /// What the tenant's search of the number has come to.
    pub fn poll(&self, who: Entity, number: u64) -> Result<Answer, Fault>
        ensures served { IsServed self.now who (request.Poll number) (told_as reply.Answered result) self.now }
    {
        let _seat = self.tenants.seat(who)?;
        let search = self.search(who, number).ok_or(Fault::NoSuchSearch)?;
        told_of(search)
    }

    /// Why the entity is a member of the role that the search asked about. Refused as 62, 51, 52, 53, then for want of memory.
    pub fn proof(&self, who: Entity, number: u64, member: Entity) -> Result<Proof, Fault>
        ensures served { IsServed self.now who (request.Proof number member) (told_as reply.Proof result) self.now }
    {
        let _seat = self.tenants.seat(who)?;
        let search = self.search(who, number).ok_or(Fault::NoSuchSearch)?;
        proof_of(self.alloc, search, &member)
    }

    /// Ends the tenant's search of the number. It takes no memory.
    pub fn end(&mut self, who: Entity, number: u64) -> Result<(), Fault>
        ensures served { IsServed self.old who (request.Close number) (told_as (λ u. reply.Closed) result) self.new }
    {
        let seat = self.tenants.seat_mut(&who)?;
        leave_going(&mut self.busy, &who, number, seat.goes_on(number));
        seat.end_in(number, &mut self.spare)
    }

    /// Ends the tenant's search of the number. A small one leaves its tables to the next that is opened. What is left of another is
    /// handed out: it may take long to drop, so who keeps others from the hall meanwhile can do it later. It takes no memory.
    pub fn close(&mut self, who: Entity, number: u64) -> Result<Option<Remains>, Fault>
        ensures served { IsServed self.old who (request.Close number) (told_as (λ r. reply.Closed) result) self.new }
    {
        let seat = self.tenants.seat_mut(&who)?;
        leave_going(&mut self.busy, &who, number, seat.goes_on(number));
        seat.end(number, &mut self.spare)
    }

    /// The credentials that the tenant issues and holds, in order. None of them is copied: the book shares them.
    pub fn vault(&mut self, who: Entity) -> Result<Rows, Fault>
        ensures served { IsServed self.old who request.Vault (told_as reply.Vault result) self.new }
    {
        let _seat = self.tenants.seat(who)?;
        let version = self.book.version_of(who)?;
        Ok(Rows::new(version))
    }

    /// The names whose vaults the tenant reads, its own among them, in order, each with the mark whether every tenant reads it.
    pub fn sees(&self, who: Entity) -> Result<Sights, Fault>
        ensures served { IsServed self.now who request.Sees (told_as reply.Sees result) self.now }
    {
        let _seat = self.tenants.seat(who)?;
        let seen = self.book.owners_read_by(who)?;
        Ok(Sights::new(seen))
    }

    /// Makes the step of the search that it names. It takes no memory that it couldn't do without: where a search lacks
    /// it, that search alone is broken.
    pub fn step(&mut self, step: Step) -> Stepped
        ensures { IsStepped self.old step result self.new }
    {
        let (who, number) = step.search();
        match self.lend(&who, number, &mut (), |opened, _none| opened.step(&step)) {
            Ok((stepped, _over)) => stepped,
            Err(_nowhere) => Stepped::Gone,
        }
    }

    /// Takes the waiting letter at a place of the tenant's search of the number, with what it is to be looked up in. Memory may
    /// lack to share that.
    pub fn take(&mut self, who: Entity, number: u64, place: u64) -> Result<Option<Job>, Fault>
        ensures taken { IfOk result (λ job. IsTaken self.old who number place job self.new) }
        ensures only_memory { IfErr result (λ f. f ≡ Fault.Memory) }
        ensures unchanged { OnErr result (self.new ≡ self.old) }
        ensures waits { OnErr result (IsSomeAnd (search_at self.old who number) (λ r. place < length (waiting_in r.search.stage))) }
    {
        let Ok((taken, _over)) = self.lend(
            &who,
            number,
            &mut (),
            |opened, _none| opened.take(place),
        ) else {
            return Ok(None);
        };
        match taken {
            Ok(Some(task)) => Ok(Some(Job { who, number, task })),
            Ok(None) => Ok(None),
            Err(AllocError) => Err(Fault::Memory),
        }
    }

    /// Lends the tenant's search of the number to what is done to it, beside something of who does it. Tells then whether the search
    /// has come to its end, and takes it out of those that may still go on where it has. The order of refusals: 62, 51.
    #[inline(always)]
    pub(crate) fn lend<A, T, F: FnOnce(&mut OpenSearch, &mut A) -> T>(
        &mut self,
        who: &Entity,
        number: u64,
        beside: &mut A,
        does: F,
    ) -> Result<(T, bool), Fault>
        requires callable { (lent : MutBor Running) (had : MutBor A) → had.now ≡ beside.old → F.pre does lent had }
        requires continues { (lent : MutBor Running) (had : MutBor A) (told : T) (left : MutBor Running) (has : MutBor A)
            → F.post does lent had told left has → Continues lent.now left.now }
        ensures lent { IfOk result (λ r. IsLent (F.post does) self.old who.now number beside.old r.0 r.1 self.new beside.new) }
        ensures nowhere { IfErr result (IsNowhere number (get self.old.tenants who.now)) }
        ensures unchanged { OnErr result (self.new ≡ self.old) }
        ensures same { OnErr result (beside.new ≡ beside.old) }
    {
        let opened = self.tenants.opened_mut(who, number)?;
        let told = does(opened, beside);
        let over = settle(&mut self.busy, who, number, opened.carried.search());
        Ok((told, over))
    }

    /// Finishes the letter of the job with what was looked up.
    pub fn finish(&mut self, job: Job, hint: Hint) -> Stepped
        ensures { IsStepped self.old (step.Finish job.who job.number job.letter hint) result self.new }
    {
        let Job { who, number, task } = job;
        self.step(Step::Finish(who, number, task.letter, hint))
    }

    /// Lets the letter of the job wait again.
    pub fn give_back(&mut self, job: Job) -> Stepped
        ensures { IsStepped self.old (step.GiveBack job.who job.number job.letter) result self.new }
    {
        let Job { who, number, task } = job;
        self.step(Step::GiveBack(who, number, task.letter))
    }

    /// Carries the tenant's search of the number on until nothing more of it can be, and tells what it has come to. The
    /// order of refusals: 62, 51, and want of memory, for which the answer alone can lack.
    pub fn drive(&mut self, who: Entity, number: u64) -> Result<Answer, Fault>
        ensures driven { CarriesOut self.old who (waits number) (told_as reply.Answered result) self.new }
        ensures quiet { SearchIsQuiet self.new who number }
    {
        match self.lend(&who, number, &mut (), |opened, _none| opened.drive()) {
            Ok((told, _over)) => told,
            Err(nowhere) => Err(nowhere),
        }
    }

    /// The tenant's search of the number, if it has not ended.
    pub fn search(&self, who: Entity, number: u64) -> Option<&Search>
        ensures { option_copied result ≡ option_map (λ r. r.search) (search_at self.now who number) }
    {
        let Ok(seat) = self.tenants.seat(who) else {
            return None;
        };
        Some(seat.searches.get(&number)?.carried.search())
    }

    /// The tenant's search of the number, shared, where there is one that is completed. Nothing changes it again, so who has it
    /// makes its list and its proofs without the hall. Memory may lack the first time, to share it.
    pub fn completed(&mut self, who: Entity, number: u64) -> Result<Option<Arc<Search>>, AllocError>
        ensures completed { IfOk result (λ r. MatchOption r ((s : SearchState) → IsCompletedAt self.old who number s → ⊥)
            (λ shared. IsCompletedAt self.old who number (arc_value shared))) }
        ensures lacks { OnErr result ((s : SearchState) × IsCompletedAt self.old who number s) }
        ensures same { self.new ≡ self.old }
    {
        let alloc = self.alloc;
        match self.lend(&who, number, &mut (), |opened, _none| opened.share(alloc)) {
            Ok((shared, _over)) => shared,
            Err(_nowhere) => Ok(None),
        }
    }
}
