//! Rights to call a desk that are none over it: who has a door is let in by it once, and who was let in makes its calls by its pass.
ghost use Rattle.std.specs.Prelude.{◌≡◌, ◌↔◌, [], Contains, IfOk, IfErr, OnOk};
ghost use Rattle.pool.specs.Histories.{own_of, IsLegal};
ghost use Rattle.pool.specs.Refusals.{IsPassRefusal};
ghost use Rattle.pool.specs.Served.{IsTold, IsAnswered, Suits, IsWaited};

use hall::{Fault, Reply, Request};
use names::Entity;
use pool::{Admission, Desk, DeskFault, DeskResult, Ended, Naming, Pass, Verdict};
use std::marker::Model;
use std::sync::Wait;

/// The right to be let in at a desk, once. By it nothing is asked, and nothing stopped. Contracts see the names of the desk's tenants.
#[derive(Drop)]
pub struct Door<'d, L: Naming> {
    desk: &'d Desk<L>,
    admission: Admission<L>,
}

impl<'d, L: Naming> Model for Door<'d, L> {
    ghost use Rattle.std.specs.Prelude.{ℕ, List};

    ghost Value = { List (List ℕ) };

    ghost view = { λ d. d.desk.now };
}

/// Who was let in at a desk, and the pass by which all its calls are made. It gets no other, and can't stop the desk. Contracts
/// see the pass.
#[derive(Drop)]
pub struct Caller<'d, L: Naming> {
    desk: &'d Desk<L>,
    pass: Pass<L>,
}

impl<'d, L: Naming> Model for Caller<'d, L> {
    ghost use Rattle.std.specs.Coded.{codes};
    ghost use Rattle.std.specs.FinMap as fin;
    ghost use Rattle.search.specs.contracts.stages.Stage as running;
    ghost use Rattle.search.specs.contracts.findings.Monitor as memory;
    ghost use Rattle.pool.specs.Passes.{PassState};

    ghost Value = { PassState };

    ghost coded = { Prim.hlevel (codes, fin.code, running.the_row.coded, memory.the_row.coded) };

    ghost view = { λ c. c.pass };
}

impl<'d, L: Naming> Door<'d, L> {
    /// A door to the desk, for who has the right to be let in.
    pub fn of(desk: &'d Desk<L>, admission: Admission<L>) -> Door<'d, L>
        ensures { result ≡ desk.now }
    {
        Door { desk, admission }
    }

    /// Lets the tenant in by a new pass, which has made no call. Where `Desk::pass` refuses it so does this, and the door comes back.
    pub fn let_in<R: Wait>(
        self,
        rt: &R,
        who: Entity,
    ) -> Result<Caller<'d, L>, (Door<'d, L>, DeskFault)>
        ensures tenant { IfOk result (λ c. c.tenant ≡ who) }
        ensures none { IfOk result (λ c. own_of c.name c.seen ≡ []) }
        ensures known { OnOk result (Contains self.entry who) }
        ensures door { IfErr result (λ e. e.0 ≡ self.entry) }
        ensures refused { IfErr result (λ e. IsPassRefusal e.1) }
        ensures stranger { IfErr result (λ e. (e.1 ≡ DeskFault.Hall Fault.NoTenant) ↔ (Contains self.entry who → ⊥)) }
    {
        let Door { desk, admission } = self;
        match desk.pass(rt, admission, who) {
            Ok(pass) => Ok(Caller { desk, pass }),
            Err((admission, fault)) => Err((Door { desk, admission }, fault)),
        }
    }
}

impl<L: Naming> Caller<'_, L> {
    /// For whom it calls.
    pub fn tenant(&self) -> Entity
        ensures { result ≡ self.now.tenant }
    {
        self.pass.tenant()
    }

    /// As `Desk::serve`, by the pass.
    pub fn serve<R: Wait>(&mut self, rt: &R, request: Request) -> DeskResult<Reply>
        ensures answered { IsAnswered (λ r. r) (IsTold self.old self.new request) result }
        ensures suits { IfOk result (Suits request) }
    {
        self.desk.serve(rt, &mut self.pass, request)
    }

    /// As `Desk::wait`, by the pass.
    pub fn wait<R: Wait>(&mut self, rt: &R, number: u64) -> DeskResult<Verdict>
        ensures { IsWaited self.old self.new number result }
    {
        self.desk.wait(rt, &mut self.pass, number)
    }

    /// As `Pass::legal`: what the pass has seen is legal.
    pub fn legal(&self)
        ensures { IsLegal L.roster self.now.seen }
    {
        self.pass.legal();
    }

    /// Makes no further call, and hands out the pass, which the desk may take back.
    pub fn end(self) -> Ended<L>
        ensures { result ≡ self.entry }
    {
        self.pass.end()
    }
}
