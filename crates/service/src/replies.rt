//! The lines of a reply. Only a vault, lists of names and a proof may take memory.
ghost use Rattle.std.specs.Prelude.{◌≡◌, ◌≤◌, ◌++◌, [], ◌∷◌, length, filter, nat_lt, codes, map, decimal, OnOk, OnErr};
ghost use Rattle.std.specs.List.{flat_map};
ghost use Rattle.service.specs.Reply.{front_of, line_after, error_text, listed, seen_text, text_lines, lines_after, IsLong, IsFilled};
ghost use Rattle.vaults.specs.Blocks.{rows_in};

use crate::refusals::fault_text;
use crate::reply_buffers::ReplyBuffer;
use crate::speakers::Speaker;
use hall::{Answer, Fault, Proof, Reply, write_proof};
use names::Entity;
use names::texts::cut;
use std::alloc::{AllocError, Global};
use vaults::{Rows, Seen};

/// Fills the buffer with the lines of a reply, or where memory lacks for a long one with the line that says so.
pub(crate) fn fill_reply(buffer: &mut ReplyBuffer, who: &Speaker, reply: &Reply)
    ensures { IsFilled (front_of who.now) reply.now buffer.new }
{
    if write_reply_lines(buffer, who, reply).is_err() {
        fill_error(buffer, who, Fault::Memory.number());
    }
}

/// Fills the buffer with the lines of a reply. Memory may lack for a long one.
fn write_reply_lines(
    buffer: &mut ReplyBuffer,
    who: &Speaker,
    reply: &Reply,
) -> Result<(), AllocError>
    ensures whole { OnOk result (buffer.new ≡ lines_after (front_of who.now) reply.now) }
    ensures lacking { OnErr result (IsLong reply.now) }
{
    match reply {
        Reply::Counted(count) => fill_counted(buffer, who, b"ok ", *count),
        Reply::Opened(number) => fill_counted(buffer, who, b"search ", *number),
        Reply::Answered(answer) => return write_answer(buffer, who, answer),
        Reply::Closed => fill_text(buffer, who, b"ended"),
        Reply::Vault(rows) => return write_vault(buffer, who, &rows.lent()),
        Reply::Sees(seen) => return write_sees(buffer, who, seen.as_slice()),
        Reply::Proof(proof) => return write_steps(buffer, who, proof),
        Reply::Refused(fault) => fill_error(buffer, who, fault.number()),
        Reply::Stepped(_outcome) => buffer.clear(),
    }
    Ok(())
}

/// Fills the buffer with the line of an answer. Memory may lack for one that lists members.
fn write_answer(buffer: &mut ReplyBuffer, who: &Speaker, answer: &Answer) -> Result<(), AllocError>
    ensures whole { OnOk result (buffer.new ≡ lines_after (front_of who.now) (Reply.Answered answer.now)) }
    ensures lacking { OnErr result (IsLong (Reply.Answered answer.now)) }
{
    match answer {
        Answer::Working => fill_text(buffer, who, b"working"),
        Answer::Yes => fill_text(buffer, who, b"yes"),
        Answer::No => fill_text(buffer, who, b"no"),
        Answer::Members(names) => return write_members(buffer, who, names.as_slice()),
        Answer::Spent => fill_text(buffer, who, b"spent"),
        Answer::Broken => fill_text(buffer, who, b"broken"),
    }
    Ok(())
}

/// Fills the buffer with the line that lets a tenant in. It takes no memory.
pub(crate) fn fill_hello(buffer: &mut ReplyBuffer, name: &Entity)
    ensures { buffer.new ≡ line_after [] (codes "hello " ++ name.now) }
{
    buffer.begin(&Speaker::Peer);
    buffer.append(b"hello ");
    buffer.append(name.bytes());
    buffer.append(b"\n");
}

/// Fills the buffer with a word. It takes no memory.
pub(crate) fn fill_text(buffer: &mut ReplyBuffer, who: &Speaker, text: &[u8])
    requires word { length text.now ≤ 8 }
    ensures { buffer.new ≡ line_after (front_of who.now) text.now }
{
    buffer.begin(who);
    buffer.append(text);
    buffer.append(b"\n");
}

/// Fills the buffer with a few words and a number. It takes no memory.
pub(crate) fn fill_counted(buffer: &mut ReplyBuffer, who: &Speaker, word: &[u8], number: u64)
    requires word { length word.now ≤ 20 }
    ensures { buffer.new ≡ line_after (front_of who.now) (word.now ++ decimal number) }
{
    buffer.begin(who);
    buffer.append(word);
    buffer.append_number(number);
    buffer.append(b"\n");
}

/// Fills the buffer with a refusal's number and text. It takes no memory.
pub(crate) fn fill_error(buffer: &mut ReplyBuffer, who: &Speaker, number: u64)
    ensures { buffer.new ≡ line_after (front_of who.now) (error_text number) }
{
    buffer.begin(who);
    buffer.append(b"error ");
    buffer.append_number(number);
    buffer.append(b" ");
    buffer.append(fault_text(number).unwrap_or("").as_bytes());
    buffer.append(b"\n");
}

/// How many steps there are, and a line for each.
fn write_steps(buffer: &mut ReplyBuffer, who: &Speaker, proof: &Proof) -> Result<(), AllocError>
    ensures { OnOk result (buffer.new ≡ lines_after (front_of who.now) (Reply.Proof proof.now)) }
{
    let mut text = Vec::new(buffer.alloc());
    write_proof(proof, &mut text)?;
    fill_counted(buffer, who, b"proof ", proof.steps().len() as u64);
    write_lines(buffer, who, &text)
}

/// Appends the lines of a text.
fn write_lines(buffer: &mut ReplyBuffer, who: &Speaker, text: &[u8]) -> Result<(), AllocError>
    ensures { OnOk result (buffer.new ≡ buffer.old ++ flat_map (line_after (front_of who.now)) (text_lines text.now)) }
{
    let mut left = Some(text);
    while let Some(lines) = left {
        let (line, rest) = cut(lines, b'\n');
        write_line(buffer, who, line)?;
        left = rest;
    }
    Ok(())
}

/// Appends the line, where something stands in it.
fn write_line(buffer: &mut ReplyBuffer, who: &Speaker, line: &[u8]) -> Result<(), AllocError>
    ensures { OnOk result (buffer.new ≡ buffer.old
        ++ flat_map (line_after (front_of who.now)) (filter (λ line. nat_lt 0 (length line)) (line.now ∷ []))) }
{
    if line.is_empty() {
        return Ok(());
    }
    buffer.extend_front(who)?;
    buffer.extend(line)?;
    buffer.extend(b"\n")
}

/// How many credentials there are, and a line for each.
fn write_vault(buffer: &mut ReplyBuffer, who: &Speaker, rows: &Rows<'_>) -> Result<(), AllocError>
    ensures { OnOk result (buffer.new ≡ lines_after (front_of who.now) (Reply.Vault (rows_in rows.now))) }
{
    fill_counted(buffer, who, b"vault ", rows.len() as u64);
    for place in 0..rows.len() {
        buffer.extend_front(who)?;
        buffer.extend_by(rows.row(place))?;
        buffer.extend(b"\n")?;
    }
    Ok(())
}

/// The names that are seen in one line, each with a star directly behind it where its vault is public.
fn write_sees(buffer: &mut ReplyBuffer, who: &Speaker, seen: &[Seen]) -> Result<(), AllocError>
    ensures { OnOk result (buffer.new ≡ line_after (front_of who.now) (codes "sees" ++ listed (map seen_text seen.now))) }
{
    buffer.begin(who);
    buffer.append(b"sees");
    for one in seen {
        buffer.extend(b" ")?;
        buffer.extend(one.name.bytes())?;
        if one.to_all {
            buffer.extend(b"*")?;
        }
    }
    buffer.extend(b"\n")
}

/// The members of a role in one line.
fn write_members(
    buffer: &mut ReplyBuffer,
    who: &Speaker,
    names: &[Entity],
) -> Result<(), AllocError>
    ensures { OnOk result (buffer.new ≡ line_after (front_of who.now) (codes "members" ++ listed names.now)) }
{
    buffer.begin(who);
    buffer.append(b"members");
    for name in names {
        buffer.extend(b" ")?;
        buffer.extend(name.bytes())?;
    }
    buffer.extend(b"\n")
}
