//! A reader and a writer for tests, which move one byte a call and fail at a call of choice.
ghost use Rattle.std.specs.Prelude.{Some};

use crate::faults::ScriptFault;
use crate::lines::LineReader;
use crate::rosters::Roster;
use std::alloc::Global;
use std::io;
use std::io::{Read, Write};

/// A call that no test makes.
pub(crate) const NEVER: u64 = u64::MAX;

/// Gives one byte a call. One call fails, after so many that don't.
#[derive(Drop)]
pub(crate) struct Drips<'a> {
    /// What is left unread.
    pub(crate) rest: &'a [u8],
    pub(crate) before_fault: u64,
}

impl Read for Drips<'_> {
    ghost remaining = { λ r. Some r.rest.now };

    fn read(&mut self, buf: &mut [u8]) -> io::Result<usize> {
        if self.before_fault == 0 {
            self.before_fault = NEVER;
            return Err(io::Error::other("no drip"));
        }
        self.before_fault -= 1;
        let room = buf.len().min(1);
        self.rest.read(&mut buf[..room])
    }
}

/// How a writer refuses.
#[derive(Clone, Copy)]
pub(crate) enum Refuses {
    WithAnError,
    ByTakingNothing,
}

/// Takes one byte a call. Where it refuses, it does so once, behind what it wants.
#[derive(Drop)]
pub(crate) struct Trickles<'a> {
    wanted: &'a [u8],
    refuses: Option<Refuses>,
    is_right: bool,
}

impl<'a> Trickles<'a> {
    pub(crate) fn new(wanted: &'a [u8], refuses: Option<Refuses>) -> Trickles<'a> {
        Trickles {
            wanted,
            refuses,
            is_right: true,
        }
    }

    /// Whether it took what it wants and nothing else.
    pub(crate) fn is_content(&self) -> bool {
        self.is_right && self.wanted.is_empty()
    }
}

impl Write for Trickles<'_> {
    fn write(&mut self, buf: &[u8]) -> io::Result<usize> {
        let Some(byte) = buf.first() else {
            return Ok(0);
        };
        if let Some((wanted, rest)) = self.wanted.split_first() {
            self.is_right &= *byte == *wanted;
            self.wanted = rest;
            return Ok(1);
        }
        match self.refuses.take() {
            Some(Refuses::WithAnError) => Err(io::Error::other("no trickle")),
            Some(Refuses::ByTakingNothing) => Ok(0),
            None => {
                self.is_right = false;
                Ok(1)
            }
        }
    }

    fn flush(&mut self) -> io::Result<()> {
        Ok(())
    }
}

/// The roster that this begins with.
pub(crate) fn roster_of<R: Read + Drop>(alloc: Global, reader: R) -> Result<Roster, ScriptFault> {
    let mut lines = LineReader::make(alloc, reader)?;
    Roster::read(alloc, &mut lines)
}
