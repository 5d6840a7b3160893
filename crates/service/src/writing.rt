//! Writing a reply out.
ghost use Rattle.std.specs.Prelude.{OnOk, OnErr};
ghost use Rattle.{std.specs.Io.KnownBytes.Appends, service.specs.Written.WroteFront};

use std::io::Write;

/// A writer failed, or took no byte.
#[derive(Clone, Copy)]
pub(crate) struct WriteFault;

/// Writes the whole reply, in as many calls as the writer needs. An error, or a call that takes no byte, is a fault at once.
pub(crate) fn write_reply<W: Write>(writer: &mut W, reply: &[u8]) -> Result<(), WriteFault>
    ensures ok { OnOk result (Appends (W.contents writer.old) (W.contents writer.new) reply.now) }
    ensures err { OnErr result (WroteFront reply.now (Appends (W.contents writer.old) (W.contents writer.new))) }
{
    let mut sent = 0;
    while sent < reply.len() {
        match writer.write(&reply[sent..]) {
            Ok(0) => return Err(WriteFault),
            Ok(count) => sent += count,
            Err(_) => return Err(WriteFault),
        }
    }
    Ok(())
}
