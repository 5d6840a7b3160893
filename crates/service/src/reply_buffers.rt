//! Where the lines of a reply are put, before they are written. Only a long reply takes memory.
ghost use Rattle.std.specs.Prelude.{◌≡◌, ◌≤◌, ◌+◌, ◌++◌, [], length, decimal, vec_len, vec_capacity, IfOk, OnOk};
ghost use Rattle.{service.specs.Reply.front_of, credential_text.specs.Spelling.canonical};

use crate::speakers::Speaker;
use credential_text::write_expr;
use std::alloc::{AllocError, Global};
use std::marker::Model;
use vaults::Row;

/// What a short reply needs: a name of 64 bytes, a colon and a space, the reply, and a newline.
const SHORT_REPLY: usize = 128;

/// The lines of a reply, as long as they aren't written. What a short one needs is always there.
#[derive(Drop)]
pub(crate) struct ReplyBuffer {
    bytes: Vec<u8>,
}

impl Model for ReplyBuffer {
    ghost use Rattle.std.specs.Prelude.{List, ℕ, ◌≤◌, vec_capacity};

    ghost Value = { List ℕ };

    ghost view = { λ r. r.bytes.items };

    ghost invariant = { λ r. 128 ≤ vec_capacity r.bytes };
}

impl ReplyBuffer {
    /// Takes the memory that short replies need.
    pub(crate) fn make(alloc: Global) -> Result<ReplyBuffer, AllocError>
        ensures { IfOk result (λ r. r ≡ []) }
    {
        let bytes = Vec::with_capacity(alloc, SHORT_REPLY)?;
        Ok(ReplyBuffer { bytes })
    }

    /// Where it takes its memory from.
    pub(crate) fn alloc(&self) -> Global {
        *self.bytes.allocator()
    }

    /// What stands in it.
    pub(crate) fn as_slice(&self) -> &[u8]
        ensures { result.now ≡ self.now }
    {
        self.bytes.as_slice()
    }

    /// Empties it.
    pub(crate) fn clear(&mut self)
        ensures { self.new ≡ [] }
    {
        self.bytes.clear();
    }

    /// Empties it, and begins a line to this one.
    pub(crate) fn begin(&mut self, who: &Speaker)
        ensures items { self.new ≡ front_of who.now }
        ensures short { length self.new ≤ 66 }
    {
        let (name, colon) = who.front();
        self.clear();
        self.append(name);
        self.append(colon);
    }

    /// Appends a text of a short reply.
    pub(crate) fn append(&mut self, text: &[u8])
        requires { length self.old + length text.now ≤ 128 }
        ensures { self.new ≡ self.old ++ text.now }
    {
        self.bytes.extend_from_slice(text).unwrap();
    }

    /// Appends the digits of a number, which are 20 at most.
    pub(crate) fn append_number(&mut self, number: u64)
        requires { length self.old + 20 ≤ 128 }
        ensures digits { self.new ≡ self.old ++ decimal number }
        ensures short { length (decimal number) ≤ 20 }
    {
        append_digits(&mut self.bytes, number);
    }

    /// Appends a text of a long reply.
    pub(crate) fn extend(&mut self, text: &[u8]) -> Result<(), AllocError>
        ensures { OnOk result (self.new ≡ self.old ++ text.now) }
    {
        self.bytes.extend_from_slice(text)
    }

    /// Begins a further line to this one.
    pub(crate) fn extend_front(&mut self, who: &Speaker) -> Result<(), AllocError>
        ensures { OnOk result (self.new ≡ self.old ++ front_of who.now) }
    {
        let (name, colon) = who.front();
        self.extend(name)?;
        self.extend(colon)
    }

    /// Appends the canonical spelling of a row.
    pub(crate) fn extend_by(&mut self, row: &Row) -> Result<(), AllocError>
        ensures { OnOk result (self.new ≡ self.old ++ canonical row.now) }
    {
        self.extend(row.owner().bytes())?;
        self.extend(b".")?;
        self.extend(row.name().bytes())?;
        self.extend(b" <- ")?;
        write_expr(row.body(), &mut self.bytes)
    }
}

/// Appends the decimal digits of a number into just the space that they take.
fn append_digits(out: &mut Vec<u8>, number: u64)
    requires space { vec_len out.old + length (decimal number) ≤ vec_capacity out.old }
    ensures items { out.new.items ≡ out.old.items ++ decimal number }
    ensures capacity { vec_capacity out.old ≤ vec_capacity out.new }
{
    if number >= 10 {
        append_digits(out, number / 10);
    }
    out.push(b'0' + (number % 10) as u8).unwrap();
}
