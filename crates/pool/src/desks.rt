//! A hall under one lock: passes ask of it, and workers work for it.
ghost use Rattle.std.specs.Prelude.{◌≡◌, ◌↔◌, ◌⊎◌, ◌+◌, ◌<◌, ◌≤◌, true, false, [], length, map, vec_len, None, Contains};
ghost use Rattle.std.specs.Prelude.{All, IfOk, IfErr, IfSome, IfNone, OnOk, OnErr};
ghost use Rattle.std.specs.List.{IsDistinct, sum_by};
ghost use Rattle.std.specs.Sync.Mutex.{mutex_guard_value};
ghost use Rattle.names.specs.Name.{is_same};
ghost use Rattle.hall.specs.declared.calls.requests.Request.TheVariants as request;
ghost use Rattle.hall.specs.declared.calls.replies.Reply.TheVariants as reply;
ghost use Rattle.hall.specs.Batches.{IsEmpty, IsLookedUp};
ghost use Rattle.pool.specs.Histories.{own_of};
ghost use Rattle.pool.specs.Passes.{accepted_in, share_of};
ghost use Rattle.pool.specs.Rooms.{IsKept, IsIdle};
ghost use Rattle.pool.specs.Refusals.{IsPassRefusal};
ghost use Rattle.pool.specs.Served.{IsTold, IsAnswered, Suits, IsPolled, IsPolledIn, IsWaited};
ghost use Rattle.pool.specs.Workers.{IsEndBy, IsLeftBy};

use crate::bells::Bells;
use crate::faults::{DeskFault, DeskResult};
use crate::keepers::{Beginning, Naming, Unnamed};
use crate::passes::{Ended, Pass};
use crate::rights::{Admission, Authority};
use crate::rooms::{Room, Served, read_off, verdict_on};
use crate::tallies::Tally;
use crate::verdicts::{Gathered, Ticket, Verdict};
use crate::visits::BATCH;
use hall::{Batch, Ends, Fault, Hall, Next, Order, Proof, Query, Reply, Request, Rows, Sights};
use names::Entity;
use quotas::Limits;
use std::alloc::{AllocError, Global};
use std::marker::Model;
use std::sync::{Condvar, Mutex, MutexGuard, Wait};
use std::thread;
use vaults::Change;

/// How often a thread tries the lock before it sleeps for it, and lets others run in between: to be woken takes longer than
/// most have the lock. With two tries a tenant waits less where other programs compute, and many sessions get much fewer
/// answers.
const TRIES: usize = 16;

/// A hall under one lock, with the history of all that its tenants were told and the ledger of the accepted changes of which
/// passes were told. The type `L` names both, so a pass of another desk fits no call. All calls but `make` may wait for the
/// lock, and what they ensure holds if they return. Contracts see of a desk the names of its tenants, which never change.
pub struct Desk<L: Naming> {
    pub(crate) alloc: Global,
    room: Mutex<Room<L>>,
    /// Where callers wait, each for one search. It has the tenants' names, so that a contract can tell who gets a pass.
    over: Bells,
    /// Where workers wait for something to do.
    pub(crate) work: Condvar,
    /// Held by one of those who sleep for the room, until it has that. A worker that goes on alone waits for it before each visit.
    next: Mutex<()>,
    /// Held by the worker that finishes as many letters as it makes visits, where no gate may wait.
    line: Mutex<()>,
}

impl<L: Naming> Model for Desk<L> {
    ghost use Rattle.std.specs.Prelude.{ℕ, List};

    ghost Value = { List (List ℕ) };

    ghost view = { λ d. d.over };
}

// By hand, so that who holds one drops it by one call, whose proof stands here.
impl<L: Naming> Drop for Desk<L> {
    fn drop(self) {
        let Desk {
            alloc: _alloc,
            room: _room,
            over: _over,
            work: _work,
            next: _next,
            line: _line,
        } = self;
    }
}

impl<L: Naming> Desk<L> {
    /// A desk of these tenants, who have done nothing yet, and the authority over it. No pass is out.
    pub fn make(
        alloc: Global,
        roster: Vec<(Entity, Limits)>,
        unnamed: Unnamed,
    ) -> Result<(Desk<L>, Authority<L>), Fault>
        requires roster { roster.items ≡ L.roster }
        requires distinct { IsDistinct is_same (map (λ row. row.0) roster.items) }
        requires named { unnamed ≡ record { ledger = L.name; parts = L.parts; table = L.table; letters = L.letters; rights = L.rights } }
        ensures tenants { IfOk result (λ made. made.0 ≡ map (λ row. row.0) roster.items) }
        ensures only_memory { IfErr result (λ f. f ≡ Fault.Memory) }
    {
        let over = Bells::make(alloc, &roster)?;
        let hall = Hall::make(alloc, roster)?;
        let (room, authority) = Room::new(hall, unnamed);
        let desk = Desk {
            alloc,
            room: Mutex::new(room),
            over,
            work: Condvar::new(),
            next: Mutex::new(()),
            line: Mutex::new(()),
        };
        Ok((desk, authority))
    }

    /// For a call: takes the lock, after some tries by sleep. While a worker goes on alone it sleeps at once where others have the
    /// lock, and the first who sleeps is let in before that worker's next visit. Each time the hall is sound.
    fn enter<R: Wait>(&self, rt: &R) -> MutexGuard<'_, Room<L>>
        ensures { IsKept (mutex_guard_value result) }
    {
        if let Some(room) = self.room.try_lock() {
            room.kept();
            return room;
        }
        let one_goes_on_alone = self.line.try_lock().is_none();
        self.enter_after(rt, if one_goes_on_alone { 0 } else { TRIES })
    }

    /// Takes the lock, after so many tries by sleep.
    fn enter_after<R: Wait>(&self, rt: &R, tries: usize) -> MutexGuard<'_, Room<L>>
        ensures { IsKept (mutex_guard_value result) }
    {
        for _ in 0..tries {
            if let Some(room) = self.room.try_lock() {
                room.kept();
                return room;
            }
            thread::yield_now();
        }
        let _next = self.next.try_lock();
        let room = self.room.lock(rt);
        room.kept();
        room
    }

    /// For a worker that goes on alone, before it visits again: who sleeps for the lock and holds `next` has it first.
    pub(crate) fn let_in<R: Wait>(&self, rt: &R) {
        let _next = self.next.lock(rt);
    }

    /// A new pass of a tenant, which has made no call. The right to it is used up. It comes back where a pass is refused: as 62 to a
    /// stranger, and as 90 where 2^32 passes are out.
    pub fn pass<R: Wait>(
        &self,
        rt: &R,
        admission: Admission<L>,
        who: Entity,
    ) -> Result<Pass<L>, (Admission<L>, DeskFault)>
        ensures tenant { IfOk result (λ p. p.tenant ≡ who) }
        ensures none { IfOk result (λ p. own_of p.name p.seen ≡ []) }
        ensures known { OnOk result (Contains self.now who) }
        ensures refused { IfErr result (λ e. IsPassRefusal e.1) }
        ensures stranger { IfErr result (λ e. (e.1 ≡ DeskFault.Hall Fault.NoTenant) ↔ (Contains self.now who → ⊥)) }
    {
        if !self.over.has(&who) {
            return Err((admission, DeskFault::Hall(Fault::NoTenant)));
        }
        self.enter(rt).admit(admission, who)
    }

    /// Serves the pass's tenant. Refused as the hall refuses.
    pub fn serve<R: Wait>(&self, rt: &R, pass: &mut Pass<L>, request: Request) -> DeskResult<Reply>
        ensures answered { IsAnswered (λ r. r) (IsTold pass.old pass.new request) result }
        ensures suits { IfOk result (Suits request) }
    {
        let mut room = self.enter(rt);
        if let Some(search) = room.lent(pass, &request) {
            drop(room);
            return read_off(self.alloc, &search, &request);
        }
        let mut remains = None;
        let served = room.serve(pass, request, &mut remains);
        drop(room);
        match served {
            Ok(served) => {
                let Served { reply, notice } = served;
                notice.ring(&self.over, &self.work);
                drop(remains);
                Ok(reply)
            }
            Err(fault) => Err(fault),
        }
    }

    /// Makes a change, and answers how many changes of the tenant were accepted. Refused as `serve` is.
    pub fn change<R: Wait>(&self, rt: &R, pass: &mut Pass<L>, change: Change) -> DeskResult<u64>
        ensures { IsAnswered reply.Counted (IsTold pass.old pass.new (request.Alter change)) result }
    {
        match self.serve(rt, pass, Request::Alter(change))? {
            Reply::Counted(count) => Ok(count),
            Reply::Refused(fault) => Err(DeskFault::Hall(fault)),
            _ => unreachable!(),
        }
    }

    /// Opens a search over what the tenant sees now. Refused as `serve` is.
    pub fn open<R: Wait>(&self, rt: &R, pass: &mut Pass<L>, query: Query) -> DeskResult<Ticket>
        ensures answered { IsAnswered (λ t. reply.Opened t.no) (IsTold pass.old pass.new (request.Seek query)) result }
        ensures opened_at { IfOk result (λ t. t.opened_at ≡ accepted_in pass.new.seen) }
    {
        match self.serve(rt, pass, Request::Seek(query))? {
            Reply::Opened(no) => Ok(Ticket {
                no,
                opened_at: pass.front(),
            }),
            Reply::Refused(fault) => Err(DeskFault::Hall(fault)),
            _ => unreachable!(),
        }
    }

    /// What the tenant's search has come to. Refused as `serve` is, and where memory lacks to share what the search reads.
    pub fn poll<R: Wait>(&self, rt: &R, pass: &mut Pass<L>, number: u64) -> DeskResult<Verdict>
        ensures { IsPolled pass.old pass.new number result }
    {
        Self::look(self.enter(rt), pass, number)
    }

    /// Gives the lock back, and tells what the search has come to: of a completed one when nobody waits for the lock any more.
    fn look(
        mut room: MutexGuard<'_, Room<L>>,
        pass: &mut Pass<L>,
        number: u64,
    ) -> DeskResult<Verdict>
        ensures { IsPolledIn (mutex_guard_value room.entry) pass.old pass.new number result }
    {
        let Some(search) = room.lent(pass, &Request::Poll(number)) else {
            return room.poll(pass, number);
        };
        drop(room);
        verdict_on(&search)
    }

    /// Waits until the search has come to an end or isn't there, or the desk was stopped, and then answers as `poll` does.
    pub fn wait<R: Wait>(&self, rt: &R, pass: &mut Pass<L>, number: u64) -> DeskResult<Verdict>
        ensures { IsWaited pass.old pass.new number result }
    {
        let who = pass.tenant();
        let room = self.enter(rt);
        let bell = self.over.of(&who, number);
        let room = bell.wait_while(rt, room, |room| !room.is_over(who, number));
        room.kept();
        Self::look(room, pass, number)
    }

    /// Ends the tenant's search of the number. Refused as `serve` is.
    pub fn end<R: Wait>(&self, rt: &R, pass: &mut Pass<L>, number: u64) -> DeskResult<()>
        ensures { IsAnswered (λ u. reply.Closed) (IsTold pass.old pass.new (request.Close number)) result }
    {
        match self.serve(rt, pass, Request::Close(number))? {
            Reply::Closed => Ok(()),
            Reply::Refused(fault) => Err(DeskFault::Hall(fault)),
            _ => unreachable!(),
        }
    }

    /// The credentials that the tenant issues and holds, in order. Refused as `serve` is.
    pub fn vault<R: Wait>(&self, rt: &R, pass: &mut Pass<L>) -> DeskResult<Rows>
        ensures { IsAnswered reply.Vault (IsTold pass.old pass.new request.Vault) result }
    {
        match self.serve(rt, pass, Request::Vault)? {
            Reply::Vault(rows) => Ok(rows),
            Reply::Refused(fault) => Err(DeskFault::Hall(fault)),
            _ => unreachable!(),
        }
    }

    /// The names whose vaults the tenant reads, its own among them, in order, public ones marked. Refused as `serve` is.
    pub fn sees<R: Wait>(&self, rt: &R, pass: &mut Pass<L>) -> DeskResult<Sights>
        ensures { IsAnswered reply.Sees (IsTold pass.old pass.new request.Sees) result }
    {
        match self.serve(rt, pass, Request::Sees)? {
            Reply::Sees(sights) => Ok(sights),
            Reply::Refused(fault) => Err(DeskFault::Hall(fault)),
            _ => unreachable!(),
        }
    }

    /// Why the entity is a member of the role that the tenant's search of the number asked about. Refused as `serve` is.
    pub fn proof<R: Wait>(
        &self,
        rt: &R,
        pass: &mut Pass<L>,
        number: u64,
        member: Entity,
    ) -> DeskResult<Proof>
        ensures { IsAnswered reply.Proof (IsTold pass.old pass.new (request.Proof number member)) result }
    {
        match self.serve(rt, pass, Request::Proof(number, member))? {
            Reply::Proof(proof) => Ok(proof),
            Reply::Refused(fault) => Err(DeskFault::Hall(fault)),
            _ => unreachable!(),
        }
    }

    /// Takes a pass back, by which no call is made any more. Its share counts as that of a pass that left.
    pub fn leave<R: Wait>(&self, rt: &R, pass: Ended<L>) {
        self.enter(rt).leave(pass);
    }

    /// Takes back all passes that are out, and tells how many changes were accepted, all that these have seen among them, and of how
    /// many of them passes had been told that left before. Each that was told counts once. Where another pass is out they come back,
    /// with 92.
    pub fn gather<R: Wait>(
        &self,
        rt: &R,
        passes: Vec<Pass<L>>,
    ) -> Result<Gathered, (DeskFault, Vec<Pass<L>>)>
        ensures total { IfOk result (λ g. g.length ≡ g.left + sum_by share_of passes.items) }
        ensures seen { IfOk result (λ g. All (λ p. accepted_in p.seen ≤ g.length) passes.items) }
        ensures out { IfErr result (λ e. (e.0 ≡ DeskFault.PassesOut) × (e.1.items ≡ passes.items)) }
    {
        self.enter(rt).gather(passes)
    }

    /// Lets the workers end once they have given back what they hold, and ends each wait, for who has the authority.
    pub fn stop<R: Wait>(&self, rt: &R, authority: &Authority<L>) {
        let notice = self.enter(rt).stop(authority);
        notice.ring(&self.over, &self.work);
    }

    /// The tally of so many workers that are to run.
    pub(crate) fn hire<R: Wait>(&self, rt: &R, workers: u64) -> Option<Tally<L>>
        ensures { IfSome result (λ tally. tally ≡ record { workers = workers; letters = 0 }) }
    {
        self.enter(rt).crew.hire(workers)
    }

    /// For a worker: hands in the letters that it holds, and makes steps by which it takes others. It goes on with the
    /// search of its letters, if it may and something is left of that, or with the one that has its turn, once there is
    /// something to do. Who waits for a search that has come to its end is woken. Before it sleeps it gives up the line, so that who
    /// has it is awake, and goes on with what others hand in. Where it is to end it has seen a stop, or memory lacked.
    pub(crate) fn visit<R: Wait>(
        &self,
        rt: &R,
        turn: u64,
        may_go_on: bool,
        batch: &mut Batch,
        ends: &mut Ends,
        line: &mut Option<MutexGuard<'_, ()>>,
        tally: &mut Tally<L>,
    ) -> Result<Option<Beginning<L>>, AllocError>
        requires looked_up { IsLookedUp batch.old }
        requires space { BATCH ≤ batch.old.room }
        requires told { ends.old ≡ [] }
        requires worker { 0 < tally.old.workers }
        ensures left { IsLeftBy result batch.new }
        ensures space { batch.new.room ≡ batch.old.room }
        ensures told { ends.new ≡ [] }
        ensures worker { tally.new.workers ≡ tally.old.workers }
    {
        let order = if may_go_on {
            Order::GoOn
        } else {
            Order::TakeTurn
        };
        let mut room = self.enter_after(rt, TRIES);
        let visit = room.work(turn, order, batch, ends, tally);
        let Next::Idle = visit.next else {
            return self.release(room, turn, visit.next, ends);
        };
        self.tell(ends);
        *line = None;
        let mut room = self.sleep(rt, room, turn, batch, line);
        let visit = room.work(turn, Order::TakeTurn, batch, ends, tally);
        self.release(room, turn, visit.next, ends)
    }

    /// Sleeps until there is something to do, or the desk was stopped. Who does holds no letter, and not the line, since nobody is
    /// woken by who stands in it.
    fn sleep<'a, R: Wait>(
        &'a self,
        rt: &R,
        mut room: MutexGuard<'a, Room<L>>,
        turn: u64,
        batch: &Batch,
        line: &Option<MutexGuard<'_, ()>>,
    ) -> MutexGuard<'a, Room<L>>
        requires empty { IsEmpty batch.now }
        requires line { line.now ≡ None }
        ensures busy { IsIdle (mutex_guard_value result) → ⊥ }
        ensures kept { IsKept (mutex_guard_value result) }
    {
        let _none = batch;
        let _free = line;
        room.falls_asleep();
        let mut room = self.work.wait_while(rt, room, |room| room.is_idle(turn));
        room.wakes_up();
        room.kept();
        room
    }

    /// Gives the lock back after a visit that went on so. Wakes who waits for a search that has come to its end, and one worker
    /// more if one sleeps and something is left. What the worker has seen of the history where it is to end.
    #[inline(always)]
    fn release(
        &self,
        mut room: MutexGuard<'_, Room<L>>,
        turn: u64,
        next: Next,
        ends: &mut Ends,
    ) -> Result<Option<Beginning<L>>, AllocError>
        requires { (next ≡ Next.Idle) ⊎ (next ≡ Next.Unasked) → (mutex_guard_value room).stopped ≡ true }
        ensures end { IsEndBy next result }
        ensures told { ends.new ≡ [] }
    {
        let (end, is_left) = match next {
            Next::Worked { left } => (
                Ok(None),
                room.has_sleepers() && (left || !room.is_idle(turn)),
            ),
            Next::NoMemory => (Err(AllocError), false),
            Next::Idle | Next::Unasked => (Ok(Some(room.stop_seen())), false),
        };
        drop(room);
        if is_left {
            self.work.notify_one();
        }
        if !ends.is_empty() {
            self.tell(ends);
        }
        end
    }

    /// Wakes who waits for these searches.
    #[inline(never)]
    fn tell(&self, ends: &mut Ends)
        ensures { ends.new ≡ [] }
    {
        while let Some((who, number)) = ends.take() {
            self.over.of(&who, number).notify_all();
        }
    }

    /// For a worker that finishes a letter in each visit, where no gate may wait: it hands in what it holds, and goes on alone once
    /// the one that has the line gives it up.
    pub(crate) fn stand_in_line<R: Wait>(
        &self,
        rt: &R,
        batch: &mut Batch,
        ends: &mut Ends,
        tally: &mut Tally<L>,
    ) -> MutexGuard<'_, ()>
        requires looked_up { IsLookedUp batch.old }
        requires space { BATCH ≤ batch.old.room }
        requires told { ends.old ≡ [] }
        requires worker { 0 < tally.old.workers }
        ensures empty { IsEmpty batch.new }
        ensures space { batch.new.room ≡ batch.old.room }
        ensures told { ends.new ≡ [] }
        ensures worker { tally.new.workers ≡ tally.old.workers }
    {
        let _visit = self
            .enter_after(rt, TRIES)
            .work(0, Order::HandIn, batch, ends, tally);
        self.tell(ends);
        self.take_line(rt, batch)
    }

    /// Waits for the line. Who does holds no letter, since the one that has it may need that.
    fn take_line<R: Wait>(&self, rt: &R, batch: &Batch) -> MutexGuard<'_, ()>
        requires { IsEmpty batch.now }
    {
        let _none = batch;
        self.line.lock(rt)
    }
}
