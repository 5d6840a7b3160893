//! The lines of a reader.
ghost use Rattle.std.specs.Prelude.{◌≡◌, ◌⊎◌, ◌≤◌, ◌∷◌, ◌++◌, ◌^◌, [], Some, vec_len, vec_capacity, IfOk, OnOk, OnErr, IsTrue, IsFalse};
ghost use Rattle.std.specs.{Borrow.sem, Io.BufRead.Rests, Io.KnownBytes.Appends, List.list_all, Str.Lines.strip_carriage_return};
ghost use Rattle.service.specs.declared.lines.{TheConstants.KEPT, TheConstants.LONGEST_LINE, limit.TheConstants.MOST_READS};
ghost use Rattle.service.specs.Line.{line_of, is_printable};
ghost use Rattle.service.specs.LineReader.{Shows, ShowsAt, stripped_at, Gives, IsText, left_at, TakesBytes, unread_bytes};
ghost use Rattle.service.specs.Written.{WroteFront, SendsUpTo};
ghost use Rattle.service.specs.contracts.lines.LineReader.{the_row as reader-row};

use crate::outboxes::Outbox;
use crate::writing::WriteFault;
use limit::{Limited, MOST_READS};
use names::texts::cut;
use std::alloc::{AllocError, Global};
use std::io::{BufRead, BufReader, ErrorKind, Read, Write};
use std::marker::Model;

pub(crate) mod limit;

/// The most bytes that a line may have, without its end.
pub const LONGEST_LINE: usize = 4096;

/// How many bytes of a line are kept: a carriage return, and one more by which a longer line is known.
const KEPT: usize = 4098;

/// Reads an input line by line. A line ends at a newline, and one carriage return directly before that
/// is no part of it; what follows the last newline is a line too, where there is any.
#[derive(Drop)]
pub struct LineReader<R: Read> {
    ahead: BufReader<Limited<R>>,
    line: Vec<u8>,
    stage: Stage,
}

/// What `LineReader::next` found.
#[derive(Clone, Copy, PartialEq, Eq)]
pub enum NextLine<'a> {
    /// A line of spaces and visible characters, without its end.
    Text(&'a [u8]),
    /// A line of more than `LONGEST_LINE` bytes, whatever they are.
    Long,
    /// A line with a byte outside 32 to 126.
    NotAscii,
    /// There is no further line.
    End,
    /// The reader failed, or was read `MOST_READS` times.
    Fault,
}

/// Where a reader stands. An ended or failed one is read no further.
#[derive(Clone, Copy)]
enum Stage {
    Open,
    Ended,
    Failed,
}

impl<R: Read> Model for LineReader<R> {
    ghost use Rattle.std.specs.Prelude.{◌≤◌, vec_capacity};
    ghost use Rattle.service.specs.LineReader.{Source, left_at, unread_bytes};

    ghost Value = { Source };

    ghost view = { λ r. left_at r.stage (unread_bytes R.remaining r.ahead) };

    ghost invariant = { λ r. 4098 ≤ vec_capacity r.line };
}

impl<R: Read + Drop> LineReader<R> {
    /// Takes all the memory that reading will need. Without it the reader is dropped.
    pub fn make(alloc: Global, reader: R) -> Result<LineReader<R>, AllocError>
        ensures source { IfOk result (λ lines. lines ≡ left_at Stage.Open (R.remaining reader)) }
        ensures most_reads { MOST_READS ≡ 2 ^ 40 }
        ensures most_bytes { LONGEST_LINE ≡ 4096 }
    {
        let line = Vec::with_capacity(alloc, KEPT)?;
        let left = MOST_READS;
        let inner = reader;
        let Ok(ahead) = BufReader::new(alloc, Limited { inner, left }) else {
            return Err(AllocError);
        };
        let stage = Stage::Open;
        Ok(LineReader { ahead, line, stage })
    }

    /// The next line, as `next` gives it. Where it doesn't stand whole in what was read ahead all that waits goes out first.
    pub(crate) fn next_after<W: Write>(
        &mut self,
        out: &mut Outbox,
        writer: &mut W,
    ) -> Result<NextLine<'_>, WriteFault>
        ensures* after_borrow { sem 𝓛 (Rests (reader-row R.row R.Read) self.entry (λ new. IfOk result (λ line. Gives self.old line new))) }
        ensures sent { OnOk result (SendsUpTo (W.contents writer.old) (W.contents writer.new) out.old out.new) }
        ensures all { IfOk result (λ line. (line ≡ NextLine.End) ⊎ (line ≡ NextLine.Fault) → out.new ≡ []) }
        ensures err { OnErr result (WroteFront out.old (Appends (W.contents writer.old) (W.contents writer.new))) }
    {
        let Stage::Open = self.stage else {
            return match out.send(writer) {
                Ok(()) => Ok(end_at(self.stage)),
                Err(WriteFault) => Err(WriteFault),
            };
        };
        if take_ahead(&mut self.ahead, &mut self.line) {
            strip(Stage::Open, &mut self.line);
            return Ok(show(Stage::Open, &self.line));
        }
        let Ok(()) = out.send(writer) else {
            return Err(WriteFault);
        };
        let stage = read_line(&mut self.ahead, &mut self.line, out);
        self.stage = stage;
        strip(self.stage, &mut self.line);
        Ok(show(self.stage, &self.line))
    }

    /// The next line, lent from the room that `make` took, with no memory. The end and a fault stay: the reader is read no further.
    pub fn next(&mut self) -> NextLine<'_>
        ensures* after_borrow { sem 𝓛 (Rests (reader-row R.row R.Read) self.entry (λ new. Gives self.old result new)) }
        ensures text { IsText result }
    {
        let Stage::Open = self.stage else {
            return end_at(self.stage);
        };
        self.stage = take_line(&mut self.ahead, &mut self.line);
        strip(self.stage, &mut self.line);
        show(self.stage, &self.line)
    }
}

/// What a reader that stands here gives, which is read no further.
fn end_at<'a>(stage: Stage) -> NextLine<'a>
    ensures failed { stage ≡ Stage.Failed → result ≡ NextLine.Fault }
    ensures ended { stage ≡ Stage.Ended → result ≡ NextLine.End }
{
    match stage {
        Stage::Failed => NextLine::Fault,
        _ => NextLine::End,
    }
}

/// Takes the carriage return off a line that a newline ended.
fn strip(stage: Stage, line: &mut Vec<u8>)
    ensures stripped { line.new.items ≡ stripped_at stage line.old.items }
    ensures room { vec_capacity line.new ≡ vec_capacity line.old }
{
    if let Stage::Open = stage {
        drop_carriage_return(line);
    }
}

/// What is given of these bytes of a line, where the reader stands behind it.
fn show(stage: Stage, line: &[u8]) -> NextLine<'_>
    ensures shows { ShowsAt stage line.now result }
    ensures text { IsText result }
{
    match stage {
        Stage::Ended if line.is_empty() => NextLine::End,
        Stage::Open | Stage::Ended => classify(line),
        Stage::Failed => NextLine::Fault,
    }
}

/// What a line with these bytes, without its end, is.
fn classify(line: &[u8]) -> NextLine<'_>
    ensures shows { Shows result (line_of line.now) }
    ensures text { IsText result }
{
    if line.len() > LONGEST_LINE {
        NextLine::Long
    } else if is_text(line) {
        NextLine::Text(line)
    } else {
        NextLine::NotAscii
    }
}

/// Whether there are spaces and visible characters alone.
fn is_text(line: &[u8]) -> bool
    ensures { result ≡ list_all is_printable line.now }
{
    line.iter().all(|byte| (b' '..=b'~').contains(byte))
}

/// Takes the bytes of a line and its newline, keeps the first of them, and answers where the reader then stands.
fn take_line<R: Read + Drop>(ahead: &mut BufReader<Limited<R>>, line: &mut Vec<u8>) -> Stage
    requires { KEPT ≤ vec_capacity line.old }
    ensures taken { TakesBytes (unread_bytes R.remaining ahead.old) [] (Some result) (unread_bytes R.remaining ahead.new) line.new.items }
    ensures room { KEPT ≤ vec_capacity line.new }
{
    line.clear();
    // Each turn but the first reads once, and the one after the last read fails.
    for _turn in 0..=MOST_READS {
        if let Some(stage) = take_part(ahead, line) {
            return stage;
        }
    }
    Stage::Failed
}

/// Takes a line as `take_line` does, while no reply waits.
fn read_line<R: Read + Drop>(
    ahead: &mut BufReader<Limited<R>>,
    line: &mut Vec<u8>,
    out: &Outbox,
) -> Stage
    requires nothing_waits { out.now ≡ [] }
    requires space { KEPT ≤ vec_capacity line.old }
    ensures taken { TakesBytes (unread_bytes R.remaining ahead.old) [] (Some result) (unread_bytes R.remaining ahead.new) line.new.items }
    ensures space { KEPT ≤ vec_capacity line.new }
{
    let _none = out;
    take_line(ahead, line)
}

/// Takes the bytes of a line and its newline where these were read ahead, and keeps the first of them. Tells whether they were.
fn take_ahead<R: Read + Drop>(ahead: &mut BufReader<Limited<R>>, line: &mut Vec<u8>) -> bool
    requires { KEPT ≤ vec_capacity line.old }
    ensures taken { IsTrue result → TakesBytes (unread_bytes R.remaining ahead.old) [] (Some Stage.Open)
        (unread_bytes R.remaining ahead.new) line.new.items }
    ensures none { IsFalse result → ahead.new ≡ ahead.old }
    ensures room { KEPT ≤ vec_capacity line.new }
{
    let (part, rest) = cut(ahead.buffer(), b'\n');
    let Some(_rest) = rest else {
        return false;
    };
    line.clear();
    let kept = part.len().min(KEPT);
    line.extend_from_slice(&part[..kept]).unwrap();
    let count = part.len() + 1;
    ahead.consume(count);
    true
}

/// Takes what was read ahead of a line, or reads once, up to its newline. Answers where the reader then stands, unless the line goes on.
fn take_part<R: Read + Drop>(ahead: &mut BufReader<Limited<R>>, line: &mut Vec<u8>) -> Option<Stage>
    requires few { vec_len line.old ≤ KEPT }
    requires room { KEPT ≤ vec_capacity line.old }
    ensures taken { TakesBytes (unread_bytes R.remaining ahead.old) line.old.items result
        (unread_bytes R.remaining ahead.new) line.new.items }
    ensures few { vec_len line.new ≤ KEPT }
    ensures room { KEPT ≤ vec_capacity line.new }
{
    let bytes = match ahead.fill_buf() {
        Ok(bytes) => bytes,
        Err(fault) if fault.kind() == ErrorKind::Interrupted => return None,
        Err(_fault) => return Some(Stage::Failed),
    };
    let (part, rest) = cut(bytes, b'\n');
    let (count, end) = match rest {
        Some(_rest) => (part.len() + 1, Some(Stage::Open)),
        None if part.is_empty() => (0, Some(Stage::Ended)),
        None => (part.len(), None),
    };
    let kept = part.len().min(KEPT - line.len());
    line.extend_from_slice(&part[..kept]).unwrap();
    ahead.consume(count);
    end
}

/// Takes one carriage return off the end.
fn drop_carriage_return(line: &mut Vec<u8>)
    ensures stripped { line.new.items ≡ strip_carriage_return line.old.items }
    ensures room { vec_capacity line.new ≡ vec_capacity line.old }
{
    if let Some(b'\r') = line.last() {
        line.pop();
    }
}

#[cfg(test)]
mod tests;
