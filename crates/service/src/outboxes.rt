//! Replies that are ready and wait for one another, so that many go out by one write.
ghost use Rattle.std.specs.{Prelude.◌≡◌, Prelude.◌++◌, Prelude.[], Prelude.IfOk, Prelude.OnOk, Prelude.OnErr, Io.KnownBytes.Appends};
ghost use Rattle.service.specs.Written.{WroteFront, SendsUpTo};

use crate::writing::{WriteFault, write_reply};
use std::alloc::{AllocError, Global};
use std::io::Write;
use std::marker::Model;

/// For how many bytes there is room: as many as are read at once.
const OUTBOX: usize = 8192;

/// Replies that are ready and not written yet.
#[derive(Drop)]
pub(crate) struct Outbox {
    bytes: Vec<u8>,
}

impl Model for Outbox {
    ghost use Rattle.std.specs.Prelude.{List, ℕ, ◌≤◌, vec_len, vec_capacity};

    ghost Value = { List ℕ };

    ghost view = { λ o. o.bytes.items };

    ghost invariant = { λ o. (8192 ≤ vec_capacity o.bytes) × (vec_len o.bytes ≤ 8192) };
}

impl Outbox {
    /// Takes all the memory that it will need. Nothing waits.
    pub(crate) fn make(alloc: Global) -> Result<Outbox, AllocError>
        ensures { IfOk result (λ out. out ≡ []) }
    {
        let bytes = Vec::with_capacity(alloc, OUTBOX)?;
        Ok(Outbox { bytes })
    }

    /// Puts a reply behind those that wait. Where there is no room for it these go out first; one that is longer than the room
    /// goes out at once.
    pub(crate) fn put<W: Write>(&mut self, writer: &mut W, reply: &[u8]) -> Result<(), WriteFault>
        ensures ok { OnOk result
            (SendsUpTo (W.contents writer.old) (W.contents writer.new) (self.old ++ reply.now) self.new) }
        ensures err { OnErr result (WroteFront (self.old ++ reply.now) (Appends (W.contents writer.old) (W.contents writer.new))) }
    {
        if reply.len() > OUTBOX - self.bytes.len() {
            let Ok(()) = self.send(writer) else {
                return Err(WriteFault);
            };
            if reply.len() > OUTBOX {
                let Ok(()) = write_reply(writer, reply) else {
                    return Err(WriteFault);
                };
                return Ok(());
            }
        }
        self.bytes.extend_from_slice(reply).unwrap();
        Ok(())
    }

    /// Writes all that waits.
    pub(crate) fn send<W: Write>(&mut self, writer: &mut W) -> Result<(), WriteFault>
        ensures nothing_waits { OnOk result (self.new ≡ []) }
        ensures ok { OnOk result (Appends (W.contents writer.old) (W.contents writer.new) self.old) }
        ensures err { OnErr result (WroteFront self.old (Appends (W.contents writer.old) (W.contents writer.new))) }
    {
        let Ok(()) = write_reply(writer, self.bytes.as_slice()) else {
            return Err(WriteFault);
        };
        self.bytes.clear();
        Ok(())
    }
}

#[cfg(test)]
mod tests;
