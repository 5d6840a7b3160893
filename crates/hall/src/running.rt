//! What happens to a hall, one event after another.
ghost use Rattle.std.specs.Prelude.{◌≡◌, ℕ, List, IfOk, IfErr, OnErr};
ghost use Rattle.hall.specs.declared.calls.requests.Request.TheVariants as request;
ghost use Rattle.hall.specs.declared.calls.replies.Reply.TheVariants as reply;
ghost use Rattle.hall.specs.Run.{any_time, told_in, told_to, IsRunOf};
ghost use Rattle.hall.specs.Hall.{account_of, IsServed, told_as, Happens, Run};

use crate::calls::{Event, Reply, Request};
use crate::faults::Fault;
use crate::halls::Hall;
use names::Entity;

impl Hall {
    /// Lets the events happen one after another, and answers a reply for each. Room for the replies is taken first.
    pub fn run(&mut self, events: &[Event]) -> Result<Vec<Reply>, Fault>
        ensures tenants { IfOk result (λ replies. (tenant : List ℕ)
            → IsRunOf any_time tenant (account_of self.old tenant) (told_to tenant self.old.journal (told_in events.now replies.items))
            (account_of self.new tenant)) }
        ensures events { IfOk result (λ replies. Run self.old events.now replies.items self.new) }
        ensures refused { IfErr result (λ f. f ≡ Fault.Memory) }
        ensures unchanged { OnErr result (self.new ≡ self.old) }
    {
        let mut replies = Vec::with_capacity(self.alloc, events.len())?;
        for event in events {
            let reply = self.happen(event);
            replies.push_reserved(reply);
        }
        Ok(replies)
    }

    /// Serves the tenant's request, of whatever kind.
    pub fn ask(&mut self, who: Entity, request: Request) -> Result<Reply, Fault>
        ensures served { IsServed self.old who request (told_as (λ r. r) result) self.new }
    {
        self.serve(who, &request)
    }

    /// Lets the event happen.
    fn happen(&mut self, event: &Event) -> Reply
        ensures { Happens self.old event.now result self.new }
    {
        match event {
            Event::Request(who, request) => match self.serve(*who, request) {
                Ok(reply) => reply,
                Err(fault) => Reply::Refused(fault),
            },
            Event::Step(step) => Reply::Stepped(self.step(*step)),
        }
    }

    /// Serves the tenant's request, which stays the caller's.
    fn serve(&mut self, who: Entity, request: &Request) -> Result<Reply, Fault>
        ensures served { IsServed self.old who request.now (told_as (λ r. r) result) self.new }
    {
        Ok(match request {
            Request::Alter(change) => Reply::Counted(self.alter(who, change)?),
            Request::Seek(query) => Reply::Opened(self.open(who, *query)?),
            Request::Poll(number) => Reply::Answered(self.poll(who, *number)?),
            Request::Close(number) => {
                self.end(who, *number)?;
                Reply::Closed
            }
            Request::Vault => Reply::Vault(self.vault(who)?),
            Request::Sees => Reply::Sees(self.sees(who)?),
            Request::Proof(number, member) => Reply::Proof(self.proof(who, *number, *member)?),
        })
    }
}
