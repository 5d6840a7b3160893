//! A session: the commands of one peer, each with its reply.
ghost use Rattle.std.specs.{Prelude.◌≡◌, Prelude.Option, Prelude.None, Prelude.Ok, Prelude.IfSome, Io.KnownBytes.Appends};
ghost use Rattle.pool.specs.{Histories.IsLegal, Passes.PassState};
ghost use Rattle.service.specs.{Command.form_of, Line.commands_of, Roster.names_of, Words.words};
ghost use Rattle.service.specs.Session.{IsGreeted, IsLetIn, IsCarriedOut, IsSessionReply, SessionWrote};

use crate::callers::{Caller, Door};
use crate::commands::{Command, read_command};
use crate::conversations::{Flow, Host, SessionEnd, converse, room_for};
use crate::refusals::Refusal;
use crate::replies::{fill_error, fill_hello, fill_reply, fill_text};
use crate::reply_buffers::ReplyBuffer;
use crate::rosters::Roster;
use crate::speakers::Speaker;
use crate::words::{Arguments, is_same, is_word, next_word, split_words};
use hall::Reply;
use names::Entity;
use pool::{Admission, Desk, DeskFault, Ended, Naming};
use std::alloc::Global;
use std::io::{Read, Write};
use std::marker::Model;
use std::sync::Wait;

/// One peer at the desk of a roster's tenants: its door, until it has said who it is, and then what it calls by. It has no right
/// over the desk.
#[derive(Drop)]
struct Session<'a, 'd, L: Naming, R> {
    rt: &'a R,
    roster: &'a Roster,
    door: Option<Door<'d, L>>,
    caller: Option<Caller<'d, L>>,
}

impl<'a, 'd, L: Naming, R> Model for Session<'a, 'd, L, R> {
    ghost use Rattle.std.specs.Prelude.{◌≡◌, None, Some};
    ghost use Rattle.std.specs.Coded.{codes};
    ghost use Rattle.std.specs.FinMap as fin;
    ghost use Rattle.search.specs.contracts.stages.Stage as running;
    ghost use Rattle.search.specs.contracts.findings.Monitor as memory;
    ghost use Rattle.service.specs.{Roster.names_of, Session.SessionState};

    ghost Value = { SessionState };

    ghost coded = { Prim.hlevel (codes, fin.code, running.the_row.coded, memory.the_row.coded) };

    ghost view = { λ s. record { rows = s.roster.now; pass = s.caller } };

    ghost invariant = { λ s. s.caller ≡ None → s.door ≡ Some (names_of s.roster.now) };
}

impl<L: Naming, R: Wait> Host for Session<'_, '_, L, R> {
    ghost use Rattle.service.specs.Session.{SessionAnswers};

    ghost Answers = { SessionAnswers L.roster };

    fn may_wait(&self, line: &[u8]) -> bool {
        matches!(next_word(line), Some((first, _rest)) if is_same(first, b"wait"))
    }

    fn answer(&mut self, line: &[u8], reply: &mut ReplyBuffer) -> Flow {
        if is_word(line, b"quit") {
            fill_text(reply, &Speaker::Peer, b"bye");
            return Flow::Ends;
        }
        if let Some(caller) = &mut self.caller {
            tell(self.rt, caller, line, reply);
            caller.legal();
            return Flow::GoesOn;
        }
        match greeted(self.roster, line) {
            Ok(who) => self.let_in(who, reply),
            Err(why) => fill_error(reply, &Speaker::Peer, why.number()),
        }
        Flow::GoesOn
    }

    fn refuse(&self, why: Refusal, reply: &mut ReplyBuffer) -> Flow {
        fill_error(reply, &Speaker::Peer, why.number());
        Flow::GoesOn
    }
}

/// Serves a session at the desk, which has the right to be let in there once, and gives its pass back to that.
pub fn serve_session<L: Naming, R: Wait, I: Read + Drop, W: Write>(
    rt: &R,
    alloc: Global,
    desk: &Desk<L>,
    admission: Admission<L>,
    roster: &Roster,
    reader: I,
    writer: &mut W,
) -> SessionEnd
    requires tenants { desk.now ≡ names_of roster.now }
    ensures { IfSome (I.remaining reader)
        (λ input. (pass : Option PassState) × SessionWrote L.roster roster.now (commands_of input) result pass
        (Appends (W.contents writer.old) (W.contents writer.new))) }
{
    let (end, pass) = answer_session(rt, alloc, Door::of(desk, admission), roster, reader, writer);
    if let Some(pass) = pass {
        desk.leave(rt, pass);
    }
    end
}

/// A session by a door: answers each line that isn't blank before the next one is taken, up to `quit` or the end of the input,
/// and hands out its pass then. The room for a line and for replies that are short is taken before anything is read.
pub fn answer_session<L: Naming, R: Wait, I: Read + Drop, W: Write>(
    rt: &R,
    alloc: Global,
    door: Door<'_, L>,
    roster: &Roster,
    reader: I,
    writer: &mut W,
) -> (SessionEnd, Option<Ended<L>>)
    requires tenants { door ≡ names_of roster.now }
    ensures { IfSome (I.remaining reader)
        (λ input. SessionWrote L.roster roster.now (commands_of input) result.0 result.1
        (Appends (W.contents writer.old) (W.contents writer.new))) }
{
    let Ok((mut lines, mut reply, mut out)) = room_for(alloc, reader) else {
        return (SessionEnd::Memory, None);
    };
    let mut session = Session {
        rt,
        roster,
        door: Some(door),
        caller: None,
    };
    let end = converse(&mut session, &mut lines, &mut reply, &mut out, writer);
    let pass = match session.caller {
        Some(caller) => Some(caller.end()),
        None => None,
    };
    (end, pass)
}

impl<L: Naming, R: Wait> Session<'_, '_, L, R> {
    /// Lets in the tenant that said its word, unless memory lacks for that.
    fn let_in(&mut self, who: Entity, reply: &mut ReplyBuffer)
        requires outside { self.old.pass ≡ None }
        ensures rows { self.new.rows ≡ self.old.rows }
        ensures let_in { IsLetIn (Ok who) reply.new self.new.pass }
        ensures legal { IfSome self.new.pass (λ p. IsLegal L.roster p.seen) }
    {
        let Some(door) = self.door.take() else {
            unreachable!();
        };
        match door.let_in(self.rt, who) {
            Ok(caller) => {
                fill_hello(reply, &caller.tenant());
                caller.legal();
                self.caller = Some(caller);
            }
            Err((door, _fault)) => {
                fill_error(reply, &Speaker::Peer, Refusal::Memory.number());
                self.door = Some(door);
            }
        }
    }
}

/// The tenant that says hello, if that is its word.
fn greeted(roster: &Roster, line: &[u8]) -> Result<Entity, Refusal>
    ensures { IsGreeted roster.now (words line.now) result }
{
    let said = match next_word(line) {
        Some((first, said)) if is_same(first, b"hello") => said,
        _ => return Err(Refusal::NoHello),
    };
    let Arguments::Two(name, word) = split_words(said) else {
        return Err(Refusal::Command);
    };
    let is_known = roster.check(name, word);
    match Entity::read(name) {
        Ok(who) if is_known => Ok(who),
        _ => Err(Refusal::BadHello),
    }
}

/// Answers a tenant's command.
fn tell<L: Naming, R: Wait>(
    rt: &R,
    caller: &mut Caller<'_, L>,
    line: &[u8],
    reply: &mut ReplyBuffer,
)
    ensures { IsSessionReply caller.old (form_of line.now) reply.new caller.new }
{
    match read_command(reply.alloc(), line) {
        Ok(command) => match carry_out(rt, caller, command) {
            Ok(told) => fill_reply(reply, &Speaker::Peer, &told),
            Err(fault) => fill_error(reply, &Speaker::Peer, fault.number()),
        },
        Err(refusal) => fill_error(reply, &Speaker::Peer, refusal.number()),
    }
}

/// Carries a tenant's command out at the desk, and answers what it came to.
fn carry_out<L: Naming, R: Wait>(
    rt: &R,
    caller: &mut Caller<'_, L>,
    command: Command,
) -> Result<Reply, DeskFault>
    ensures { IsCarriedOut caller.old caller.new command result }
{
    match command {
        Command::Request(request) => caller.serve(rt, request),
        Command::Wait(number) => match caller.wait(rt, number) {
            Ok(verdict) => Ok(Reply::Answered(verdict.answer)),
            Err(fault) => Err(fault),
        },
    }
}

#[cfg(test)]
mod tests;
