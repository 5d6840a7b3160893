//! A conversation: each line that comes in is answered before the next one is taken, and what is ready goes out before a line is read.
ghost use Rattle.std.specs.Prelude.{◌≡◌, ℕ, List, [], IfOk, OnOk, OnErr};
ghost use Rattle.std.specs.Io.KnownBytes.{Appends};
ghost use Rattle.service.specs.declared.lines.Stage.TheVariants.{Open};
ghost use Rattle.service.specs.declared.refusals.Refusal.TheVariants as refusal;
ghost use Rattle.service.specs.{Line.Line, Line.text, Line.too_long, Line.not_ascii};
ghost use Rattle.service.specs.{LineReader.IfKnown, LineReader.left_at, Written.Conversed, Written.WroteFront, Written.SendsUpTo};

use crate::lines::{LineReader, NextLine};
use crate::outboxes::Outbox;
use crate::refusals::Refusal;
use crate::reply_buffers::ReplyBuffer;
use crate::writing::WriteFault;
use names::texts::is_blank;
use std::alloc::{AllocError, Global};
use std::io::{Read, Write};

/// How a conversation ended.
#[derive(Clone, Copy, PartialEq, Eq)]
pub enum SessionEnd {
    /// The peer said `quit`. No later line was answered.
    Quit,
    /// The input ended.
    EndOfInput,
    /// The reader failed, or was read too often.
    Read,
    /// The writer failed, or took no byte.
    Write,
    /// There was no memory for a line and a reply. Nothing was read or written.
    Memory,
}

/// Whether a conversation goes on after a reply.
#[derive(Clone, Copy)]
pub(crate) enum Flow {
    GoesOn,
    Ends,
}

/// One who answers lines.
pub(crate) trait Host {
    ghost use Rattle.service.specs.declared.conversations.Flow.{Flow};

    /// How a line may be answered: what the host was, the line, the reply, whether it goes on, and what the host is then.
    ghost Answers: { Self → Line → List ℕ → Flow → Self → Type 0 };

    /// Whether the reply to a text may have to wait for others.
    fn may_wait(&self, line: &[u8]) -> bool;

    /// Puts the reply to a text that isn't blank into the buffer.
    fn answer(&mut self, line: &[u8], reply: &mut ReplyBuffer) -> Flow
        ensures { Answers self.old (text line.now) reply.new result self.new };

    /// Puts the reply to a line that is no text into the buffer.
    fn refuse(&self, why: Refusal, reply: &mut ReplyBuffer) -> Flow
        ensures long { why ≡ refusal.LineLong → Answers self.now too_long reply.new result self.now }
        ensures not_ascii { why ≡ refusal.NotAscii → Answers self.now not_ascii reply.new result self.now };
}

/// Takes the room that a conversation needs before anything is read: for a line, for a reply that is short, and for replies that wait.
pub(crate) fn room_for<I: Read + Drop>(
    alloc: Global,
    reader: I,
) -> Result<(LineReader<I>, ReplyBuffer, Outbox), AllocError>
    ensures source { IfOk result (λ room. room.0 ≡ left_at Open (I.remaining reader)) }
    ensures nothing_waits { IfOk result (λ room. room.2 ≡ []) }
{
    let reply = ReplyBuffer::make(alloc)?;
    let out = Outbox::make(alloc)?;
    let lines = LineReader::make(alloc, reader)?;
    Ok((lines, reply, out))
}

/// Answers each line that is left and isn't blank, up to the end of the input or of the conversation. Replies wait for one another
/// while the lines to answer were read ahead; all that are ready go out before a line is read, and before a line is answered that
/// may wait for others.
pub(crate) fn converse<H: Host, I: Read + Drop, W: Write>(
    host: &mut H,
    lines: &mut LineReader<I>,
    reply: &mut ReplyBuffer,
    out: &mut Outbox,
    writer: &mut W,
) -> SessionEnd
    requires nothing_waits { out.old ≡ [] }
    ensures { IfKnown lines.old (λ commands. Conversed H.Answers host.old host.new commands result
        (Appends (W.contents writer.old) (W.contents writer.new))) }
{
    for _ in 0..u64::MAX {
        let Ok(line) = lines.next_after(out, writer) else {
            return SessionEnd::Write;
        };
        let flow = match line {
            NextLine::Text(line) if is_blank(line) => continue,
            NextLine::Text(line) => {
                let Ok(flow) = answer(host, line, reply, out, writer) else {
                    return SessionEnd::Write;
                };
                flow
            }
            NextLine::Long => host.refuse(Refusal::LineLong, reply),
            NextLine::NotAscii => host.refuse(Refusal::NotAscii, reply),
            NextLine::End => return SessionEnd::EndOfInput,
            NextLine::Fault => return SessionEnd::Read,
        };
        let Ok(()) = out.put(writer, reply.as_slice()) else {
            return SessionEnd::Write;
        };
        match flow {
            Flow::GoesOn => {}
            Flow::Ends => {
                let Ok(()) = out.send(writer) else {
                    return SessionEnd::Write;
                };
                return SessionEnd::Quit;
            }
        }
    }
    let Ok(()) = out.send(writer) else {
        return SessionEnd::Write;
    };
    SessionEnd::Read
}

/// Answers a text. Where the reply may have to wait for others all that is ready goes out first.
fn answer<H: Host, W: Write>(
    host: &mut H,
    line: &[u8],
    reply: &mut ReplyBuffer,
    out: &mut Outbox,
    writer: &mut W,
) -> Result<Flow, WriteFault>
    ensures answers { IfOk result (λ flow. H.Answers host.old (text line.now) reply.new flow host.new) }
    ensures sent { OnOk result (SendsUpTo (W.contents writer.old) (W.contents writer.new) out.old out.new) }
    ensures err { OnErr result (WroteFront out.old (Appends (W.contents writer.old) (W.contents writer.new))) }
    ensures unanswered { OnErr result (host.new ≡ host.old) }
{
    if host.may_wait(line) {
        let Ok(()) = out.send(writer) else {
            return Err(WriteFault);
        };
    }
    Ok(host.answer(line, reply))
}
