//! What lies under the lock of a desk: the hall with the keeper of its history, and the count of the changes of which passes were told.
ghost use Rattle.std.specs.Prelude.{◌≡◌, ◌↔◌, ◌+◌, ◌<◌, ◌≤◌, ◌++◌, ◌∷◌, ℕ, true, false, [], length, vec_len};
ghost use Rattle.std.specs.Prelude.{None, Err, option_map, All, IfSome, IfOk, IfErr, OnOk, OnErr};
ghost use mathlib.Core.List.{IsPrefix};
ghost use Rattle.std.specs.Arc.{arc_value};
ghost use Rattle.std.specs.List.{sum_by};
ghost use Rattle.vaults.specs.Journal.{credentials};
ghost use Rattle.search.specs.Search.{settled_of};
ghost use Rattle.hall.specs.Answers.{answer_of, IsToldOver};
ghost use Rattle.hall.specs.declared.calls.requests.Request.TheVariants as request;
ghost use Rattle.hall.specs.{Work.StillWorks, Hall.IsServed, Hall.known, Hall.new_hall, Hall.search_at, Hall.told_as};
ghost use Rattle.pool.specs.declared.turns.Item.TheVariants as item;
ghost use Rattle.pool.specs.Histories.{own_of, HasStop, IsReadOff};
ghost use Rattle.pool.specs.Passes.{accepted_in, share_of};
ghost use Rattle.pool.specs.Rooms.{IsKept, request_concern};
ghost use Rattle.pool.specs.Served.{IsAnswered, IsTold, Suits, IsLent, IsPolled, IsPolledIn, IsVerdict};
ghost use Rattle.pool.specs.Verdicts.{IsTrueWhereCompleted};

use crate::faults::{DeskFault, DeskResult};
use crate::keepers::{Beginning, Keeper, Naming, Unnamed};
use crate::notices::{Concern, Notice};
use crate::passes::{Ended, Pass};
use crate::rights::{Admission, Authority};
use crate::tallies::Crew;
use crate::turns::Noted;
use crate::verdicts::{Gathered, Verdict};
use hall::{Fault, Hall, Remains, Reply, Request, proof_of, told_of};
use names::Entity;
use search::{Query, Search, Status};
use std::alloc::Global;
use std::marker::Model;
use std::snapshot::Snapshot;
use std::sync::Arc;
use std::sync::ledger::{Book as LedgerBook, Share};

/// How many passes may be out at once.
const MOST_OUT: u64 = 1 << 32;

/// What came of a request.
pub(crate) struct Served {
    pub(crate) reply: Reply,
    /// Whom it concerns.
    pub(crate) notice: Notice,
}

/// The hall, the keeper of all that was told, the ledger of accepted changes, and what stands of it with no pass that is out.
/// And the crew, and how many workers wait for something to do, so that nobody is woken where none sleeps; contracts don't
/// see these.
#[derive(Drop)]
pub(crate) struct Room<L: Naming> {
    pub(crate) hall: Hall,
    keeper: Keeper<L>,
    book: LedgerBook<L>,
    rest: Share<L>,
    pub(crate) crew: Crew<L>,
    out: u64,
    left: u64,
    pub(crate) stopped: bool,
    asleep: u64,
}

impl<L: Naming> Model for Room<L> {
    ghost use Rattle.std.specs.Prelude.{◌≡◌, ◌+◌, ◌<◌, ◌^◌, length};
    ghost use Rattle.std.specs.Coded.{codes};
    ghost use Rattle.std.specs.FinMap as fin;
    ghost use Rattle.search.specs.contracts.stages.Stage as running;
    ghost use Rattle.search.specs.contracts.findings.Monitor as memory;
    ghost use Rattle.std.specs.Prelude.{true};
    ghost use Rattle.pool.specs.Histories.{HasStop, Reaches};
    ghost use Rattle.pool.specs.Rooms.{RoomState};

    ghost Value = { RoomState };

    ghost coded = { Prim.hlevel (codes, fin.code, running.the_row.coded, memory.the_row.coded) };

    ghost view = { λ r. record {
      hall = r.hall;
      told = r.keeper;
      out = r.out;
      left = r.left;
      stopped = r.stopped;
    } };

    ghost invariant = { λ r.
        (r.book.total ≡ length r.hall.journal)
        × (r.rest.parts + r.out ≡ 2 ^ 32 + 1)
        × (0 < r.rest.parts)
        × (r.rest.amount ≡ r.left)
        × (L.parts ≡ 2 ^ 32 + 1)
        × Reaches L.roster r.keeper r.hall
        × (r.stopped ≡ true → HasStop r.keeper) };
}

impl<L: Naming> Room<L> {
    /// The room of a new hall, of which nothing was told yet, and where no pass is out, and the authority over it.
    pub(crate) fn new(hall: Hall, unnamed: Unnamed) -> (Room<L>, Authority<L>)
        requires hall { hall ≡ new_hall L.roster }
        requires named { unnamed ≡ record { ledger = L.name; parts = L.parts; table = L.table; letters = L.letters; rights = L.rights } }
        ensures { result.0 ≡ record { hall = hall; told = []; out = 0; left = 0; stopped = false } }
    {
        let (keeper, blank, letters, authority) = unnamed.named::<L>();
        let (book, rest) = blank.open::<L>();
        let room = Room {
            hall,
            keeper,
            book,
            rest,
            crew: Crew::new(letters),
            out: 0,
            left: 0,
            stopped: false,
            asleep: 0,
        };
        (room, authority)
    }

    /// What the lock keeps.
    pub(crate) fn kept(&self)
        ensures { IsKept self.now }
    {
        let _length = self.hall.journal_len();
    }

    /// A new pass of this tenant, which has seen all that was told, and has made no call. The right to it is used up, or comes back.
    pub(crate) fn admit(
        &mut self,
        admission: Admission<L>,
        who: Entity,
    ) -> Result<Pass<L>, (Admission<L>, DeskFault)>
        ensures pass { IfOk result (λ p. p ≡ record { tenant = who; name = p.name; seen = self.old.told }) }
        ensures none { IfOk result (λ p. own_of p.name p.seen ≡ []) }
        ensures ok { OnOk result (self.new ≡ record self.old { out = self.old.out + 1 }) }
        ensures refused { IfErr result (λ e. e.1 ≡ DeskFault.Hall Fault.Memory) }
        ensures full { OnErr result (self.old.out ≡ MOST_OUT) }
        ensures err { OnErr result (self.new ≡ self.old) }
    {
        if self.out == MOST_OUT {
            return Err((admission, DeskFault::Hall(Fault::Memory)));
        }
        let share = self.rest.split_off(1, 0);
        self.out += 1;
        let seen = self.keeper.front(admission);
        Ok(Pass::new(who, self.hall.journal_len(), share, seen))
    }

    /// Asks the hall for the pass's tenant, which is told what it answers. What is left of a search that ends by it stands in `remains`.
    fn ask(
        &mut self,
        pass: &mut Pass<L>,
        request: Request,
        remains: &mut Option<Remains>,
    ) -> Result<Reply, Fault>
        ensures served { IsServed self.old.hall pass.old.tenant request (told_as (λ r. r) result) self.new.hall }
        ensures told { IsTold pass.old pass.new request (told_as (λ r. r) result) }
        ensures seen { IsPrefix self.old.told pass.new.seen }
    {
        let who = pass.tenant();
        let asked = Snapshot::of(&request);
        let before = self.hall.journal_len();
        let result = ask_hall(&mut self.hall, who, request, remains);
        let told = Snapshot::of(&result);
        let noted = Noted::Told(who, asked, told);
        let after = self.hall.journal_len();
        pass.hear(&mut self.keeper, &mut self.book, &noted, before, after);
        result
    }

    /// Serves the request of the pass's tenant, and tells whom that concerns. What is left of a search that ends by it may take long
    /// to drop, so it stands in `remains` until the lock is released. It is large, and isn't moved where there is none.
    pub(crate) fn serve(
        &mut self,
        pass: &mut Pass<L>,
        request: Request,
        remains: &mut Option<Remains>,
    ) -> DeskResult<Served>
        ensures answered { IsAnswered (λ s. s.reply) (IsTold pass.old pass.new request) result }
        ensures suits { IfOk result (λ s. Suits request s.reply) }
        ensures notice { IfOk result (λ s. s.notice ≡ request_concern pass.old.tenant request) }
    {
        let concern = Concern::of_request(pass.tenant(), &request);
        let result = self.ask(pass, request, remains);
        match result {
            Ok(reply) => Ok(Served {
                reply,
                notice: Notice::of(concern),
            }),
            Err(fault) => Err(DeskFault::Hall(fault)),
        }
    }

    /// Where the request reads a completed search of the pass's tenant, and a list or a proof is made of it, that search: it doesn't
    /// change any more, so the reply is made once the lock is given back. It is lent to none who would be refused, nor where
    /// memory to share it lacks.
    pub(crate) fn lent(&mut self, pass: &mut Pass<L>, request: &Request) -> Option<Arc<Search>>
        ensures lent { IfSome result (λ search. IsLent self.old pass.old pass.new request.now (arc_value search)) }
        ensures pass { result ≡ None → pass.new ≡ pass.old }
        ensures room { result ≡ None → self.new ≡ self.old }
    {
        let (Request::Poll(number) | Request::Proof(number, _)) = *request else {
            return None;
        };
        let who = pass.tenant();
        if !self.takes_long(who, number, request) {
            return None;
        }
        let Ok(Some(search)) = self.hall.completed(who, number) else {
            return None;
        };
        let found: &Search = &search;
        let asked = Snapshot::of(request);
        let read = Snapshot::of(found);
        let noted = Noted::Read(who, asked, read);
        let length = self.hall.journal_len();
        pass.hear(&mut self.keeper, &mut self.book, &noted, length, length);
        Some(search)
    }

    /// Whether the reply may take long to make: it is a proof, or lists members.
    fn takes_long(&self, who: Entity, number: u64, request: &Request) -> bool {
        let Request::Poll(_) = request else {
            return true;
        };
        match self.hall.search(who, number) {
            Some(search) => matches!(search.query(), Query::Who(_)),
            None => false,
        }
    }

    /// Polls where the tenant has no such search, which the hall refuses.
    fn refuse(&mut self, pass: &mut Pass<L>, number: u64) -> DeskFault
        requires { None ≡ option_map (λ r. r.search) (search_at self.old.hall pass.old.tenant number) }
        ensures polled { IsPolled pass.old pass.new number (Err result) }
        ensures seen { IsPrefix self.old.told pass.new.seen }
    {
        let result = self.ask(pass, Request::Poll(number), &mut None);
        match result {
            Err(fault) => DeskFault::Hall(fault),
            Ok(reply) => match reply {
                Reply::Refused(fault) => DeskFault::Hall(fault),
                _ => unreachable!(),
            },
        }
    }

    /// What the search of the pass's tenant has come to, with what it is for and what it reads.
    pub(crate) fn poll(&mut self, pass: &mut Pass<L>, number: u64) -> DeskResult<Verdict>
        ensures { IsPolledIn self.old pass.old pass.new number result }
    {
        let who = pass.tenant();
        let length = self.hall.journal_len();
        let Some(search) = self.hall.search(who, number) else {
            return Err(self.refuse(pass, number));
        };
        let asked = Snapshot::of(&Request::Poll(number));
        let read = Snapshot::of(search);
        let noted = Noted::Read(who, asked, read);
        pass.hear(&mut self.keeper, &mut self.book, &noted, length, length);
        verdict_on(search)
    }

    /// Whether a wait for the search of this tenant is over.
    pub(crate) fn is_over(&self, who: Entity, number: u64) -> bool
        ensures { (result ≡ false) ↔ ((self.now.stopped ≡ false) × StillWorks self.now.hall (who, number)) }
    {
        let is_working = match self.hall.search(who, number) {
            Some(search) => search.status() == Status::Working,
            None => false,
        };
        self.stopped || !is_working
    }

    /// Takes a pass back, with its share. It had seen a beginning of what was told.
    pub(crate) fn leave(&mut self, pass: Ended<L>)
        ensures seen { IsPrefix pass.seen self.old.told }
        ensures out { self.new.out + 1 ≡ self.old.out }
        ensures left { self.new.left ≡ self.old.left + share_of pass }
        ensures room { self.new ≡ record self.old { out = self.new.out; left = self.new.left } }
    {
        let (share, told, seen) = pass.given_up();
        self.keeper.take_back(seen);
        self.rest.merge(share);
        self.book.audit(&mut self.rest);
        let _length = self.hall.journal_len();
        self.out -= 1;
        self.left += told;
    }

    /// Takes all passes back, and tells how many changes were accepted, and of how many of them those had been told that left.
    pub(crate) fn gather(
        &mut self,
        passes: Vec<Pass<L>>,
    ) -> Result<Gathered, (DeskFault, Vec<Pass<L>>)>
        ensures total { IfOk result (λ g. g.length ≡ g.left + sum_by share_of passes.items) }
        ensures seen { IfOk result (λ g. All (λ p. accepted_in p.seen ≤ g.length) passes.items) }
        ensures found { IfOk result (λ g. (g.length ≡ length self.old.hall.journal) × (g.left ≡ self.old.left)) }
        ensures all_in { OnOk result (vec_len passes ≡ self.old.out) }
        ensures room { OnOk result (self.new ≡ record self.old { out = 0; left = length self.old.hall.journal }) }
        ensures out { IfErr result (λ e. (e.0 ≡ DeskFault.PassesOut) × (e.1.items ≡ passes.items)) }
        ensures too_few { OnErr result (vec_len passes < self.old.out) }
        ensures err { OnErr result (self.new ≡ self.old) }
    {
        if (passes.len() as u64) < self.out {
            return Err((DeskFault::PassesOut, passes));
        }
        let left = self.left;
        for pass in passes {
            self.leave(pass.end());
        }
        self.book.audit(&mut self.rest);
        Ok(Gathered {
            length: self.hall.journal_len(),
            left,
        })
    }

    /// A worker sleeps from now on, until there is something to do.
    pub(crate) fn falls_asleep(&mut self)
        ensures { self.new ≡ self.old }
    {
        self.asleep = self.asleep.wrapping_add(1);
    }

    /// A worker is awake again.
    pub(crate) fn wakes_up(&mut self)
        ensures { self.new ≡ self.old }
    {
        self.asleep = self.asleep.wrapping_sub(1);
    }

    /// Whether a worker sleeps.
    pub(crate) fn has_sleepers(&self) -> bool {
        self.asleep != 0
    }

    /// All that was told, which has the stop.
    pub(crate) fn stop_seen(&mut self) -> Beginning<L>
        requires { self.old.stopped ≡ true }
        ensures stop { HasStop result.seen }
        ensures same { self.new ≡ self.old }
    {
        self.keeper.seen()
    }

    /// No worker goes on from now on, and no caller waits, which concerns everybody. The stop is told under a name of its own.
    pub(crate) fn stop(&mut self, authority: &Authority<L>) -> Notice
        ensures told { (name : ℕ) × (self.new.told ≡ self.old.told ++ item.Stopped name ∷ []) }
        ensures stopped { self.new ≡ record self.old { told = self.new.told; stopped = true } }
        ensures notice { result ≡ Concern.Everybody }
    {
        let _length = self.hall.journal_len();
        let mut front = self.keeper.front(authority.admission());
        self.keeper.tell(&mut front, &Noted::Stopped);
        self.stopped = true;
        Notice::of(Concern::Everybody)
    }
}

/// Has the hall serve the request. What is left of a search that ends by it stands in `remains`.
fn ask_hall(
    hall: &mut Hall,
    who: Entity,
    request: Request,
    remains: &mut Option<Remains>,
) -> Result<Reply, Fault>
    ensures served { IsServed hall.old who request (told_as (λ r. r) result) hall.new }
{
    match request {
        Request::Close(number) => {
            *remains = hall.close(who, number)?;
            Ok(Reply::Closed)
        }
        other => hall.ask(who, other),
    }
}

/// The reply to a request that reads the search.
pub(crate) fn read_off(alloc: Global, search: &Search, request: &Request) -> DeskResult<Reply>
    ensures { IsAnswered (λ r. r) (IsReadOff (known search.now) request.now) result }
{
    Ok(match request {
        Request::Proof(_, member) => Reply::Proof(proof_of(alloc, search, member)?),
        _ => Reply::Answered(told_of(search)?),
    })
}

/// The verdict on the search as it stands.
pub(crate) fn verdict_on(search: &Search) -> DeskResult<Verdict>
    requires { IsTrueWhereCompleted (credentials search.now.snapshot.vaults) search.now.query (answer_of (settled_of search.now)) }
    ensures { IsVerdict (IsToldOver (known search.now) request.Poll)
        (λ query shown. (query ≡ search.now.query) × (shown ≡ search.now.snapshot)) result }
{
    Ok(Verdict::new(search, told_of(search)?)?)
}
