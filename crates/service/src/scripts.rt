//! A script: a roster, then the commands of its tenants, each with its reply.
ghost use Rattle.std.specs.{Prelude.◌≡◌, Prelude.◌⊎◌, Prelude.[], Prelude.IfSome, Io.KnownBytes.Appends};
ghost use Rattle.hall.specs.Hall.{CarriesOut};
ghost use Rattle.service.specs.Outcome.{IsSaid, deed_of, Becomes};
ghost use Rattle.service.specs.{Command.form_of, Line.commands_of, LineReader.IfKnown, Written.end_of, Written.ScriptWrote};

use crate::commands::{Command, read_command};
use crate::conversations::{Flow, Host, SessionEnd, converse, room_for};
use crate::faults::ScriptFault;
use crate::lines::LineReader;
use crate::outboxes::Outbox;
use crate::refusals::Refusal;
use crate::replies::{fill_error, fill_reply};
use crate::reply_buffers::ReplyBuffer;
use crate::rosters::take_roster;
use crate::speakers::Speaker;
use hall::{Hall, Reply};
use names::Entity;
use names::texts::{cut, trim_start};
use std::alloc::Global;
use std::io::{Read, Write};

impl Host for Hall {
    ghost use Rattle.service.specs.Outcome.{ScriptAnswers};

    ghost Answers = { ScriptAnswers };

    // A script's tenants wait for nobody else.
    fn may_wait(&self, _line: &[u8]) -> bool {
        false
    }

    fn answer(&mut self, line: &[u8], reply: &mut ReplyBuffer) -> Flow {
        let (before, said) = cut(trim_start(line), b':');
        let Some(said) = said else {
            fill_error(reply, &Speaker::Nobody, Refusal::Command.number());
            return Flow::GoesOn;
        };
        match Entity::read(before) {
            Ok(who) if self.has(who) => answer_tenant(reply.alloc(), who, said, self, reply),
            _ => fill_error(reply, &Speaker::Nobody, Refusal::BadHello.number()),
        }
        Flow::GoesOn
    }

    #[tactic(auto, using(crate::proofs::OutcomeLemmas::long_answered, crate::proofs::OutcomeLemmas::not_ascii_answered))]
    fn refuse(&self, why: Refusal, reply: &mut ReplyBuffer) -> Flow {
        fill_error(reply, &Speaker::Nobody, why.number());
        Flow::GoesOn
    }
}

/// Runs a script: a roster, then the commands of its tenants. Each line that isn't blank is answered before the next
/// line is taken. The room for a line and for a short reply is taken before anything is read.
pub fn run_script<R: Read + Drop, W: Write>(
    alloc: Global,
    reader: R,
    writer: &mut W,
) -> Result<(), ScriptFault>
    ensures { IfSome (R.remaining reader)
        (λ input. ScriptWrote (commands_of input) result (Appends (W.contents writer.old) (W.contents writer.new))) }
{
    run_script_keeping(alloc, reader, writer, &mut None)
}

/// Runs a script as `run_script` does, and keeps what the tenants have at its end: to drop it goes over each search that stayed
/// open.
pub fn run_script_keeping<R: Read + Drop, W: Write>(
    alloc: Global,
    reader: R,
    writer: &mut W,
    kept: &mut Option<Hall>,
) -> Result<(), ScriptFault>
    ensures { IfSome (R.remaining reader)
        (λ input. ScriptWrote (commands_of input) result (Appends (W.contents writer.old) (W.contents writer.new))) }
{
    let (mut lines, mut reply, mut out) = room_for(alloc, reader)?;
    run_lines(alloc, &mut lines, &mut reply, &mut out, writer, kept)
}

/// Runs the script of these lines.
fn run_lines<R: Read + Drop, W: Write>(
    alloc: Global,
    lines: &mut LineReader<R>,
    reply: &mut ReplyBuffer,
    out: &mut Outbox,
    writer: &mut W,
    kept: &mut Option<Hall>,
) -> Result<(), ScriptFault>
    requires nothing_waits { out.old ≡ [] }
    ensures { IfKnown lines.old
        (λ lines. ScriptWrote lines result (Appends (W.contents writer.old) (W.contents writer.new))) }
{
    let Ok(mut hall) = take_roster(alloc, lines, writer)?.hall(alloc) else {
        return Err(ScriptFault::Memory);
    };
    let end = converse(&mut hall, lines, reply, out, writer);
    *kept = Some(hall);
    result_of(end)
}

/// What a script comes to by the end of its conversation.
fn result_of(end: SessionEnd) -> Result<(), ScriptFault>
    ensures { (end ≡ SessionEnd.Quit) ⊎ (end ≡ end_of result) }
{
    match end {
        SessionEnd::Quit | SessionEnd::EndOfInput => Ok(()),
        SessionEnd::Read => Err(ScriptFault::Read),
        SessionEnd::Write => Err(ScriptFault::Write),
        SessionEnd::Memory => Err(ScriptFault::Memory),
    }
}

/// Answers what a tenant said.
fn answer_tenant(alloc: Global, who: Entity, said: &[u8], hall: &mut Hall, reply: &mut ReplyBuffer)
    ensures { Becomes hall.old (IsSaid who (form_of said.now)) reply.new hall.new }
{
    match read_command(alloc, said) {
        Ok(command) => fill_reply(reply, &Speaker::Tenant(who), &carry_out(hall, who, command)),
        Err(refusal) => fill_error(reply, &Speaker::Tenant(who), refusal.number()),
    }
}

/// Carries a tenant's command out, and answers its reply.
fn carry_out(hall: &mut Hall, who: Entity, command: Command) -> Reply
    ensures { CarriesOut hall.old who (deed_of command) result hall.new }
{
    match command {
        Command::Request(request) => match hall.ask(who, request) {
            Ok(reply) => reply,
            Err(fault) => Reply::Refused(fault),
        },
        Command::Wait(number) => match hall.drive(who, number) {
            Ok(answer) => Reply::Answered(answer),
            Err(fault) => Reply::Refused(fault),
        },
    }
}

#[cfg(test)]
mod tests;
