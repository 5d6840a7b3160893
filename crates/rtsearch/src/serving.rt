ghost use Rattle.std.specs.Prelude.{◌≡◌, ◌≤◌, ◌⊎◌, ℕ, [], Some, IfSome};
ghost use Rattle.std.specs.Io.KnownBytes.{Appends};
ghost use Rattle.service.specs.Line.{commands_of};
ghost use Rattle.rtsearch.specs.Serving.{Served, NotServed};

use service::{ServeOptions, read_roster, serve};
use std::alloc::Global;
use std::io::{Read, Write};
use std::net::{Net, TcpListener, TcpStream};
use std::sync::Wait;
use std::thread::Threads;
use std::time::Clock;

/// Reads a roster, and serves its tenants at this port of 127.0.0.1: 0 where all connections were served, 1 on a fault of
/// the roster, of reading, of writing, of the socket, of a thread or of memory.
pub fn run_service<
    H: Net<Listener = TcpListener, Stream = TcpStream> + Threads + Wait + Clock + Sync,
    R: Read + Drop,
    W: Write,
>(rt: &H, alloc: Global, port: u16, options: ServeOptions, reader: &mut R, writer: &mut W) -> u8
    requires workers { (1 ≤ options.workers) × (options.workers ≤ 64) }
    requires sessions { (1 ≤ options.sessions) × (options.sessions ≤ 64) }
    ensures served { result ≡ 0 → IfSome (R.remaining reader.old)
        (λ input. (count : ℕ) × (options.accept ≡ Some count)
        × Served (commands_of input) count (Appends (W.contents writer.old) (W.contents writer.new))) }
    ensures failed { result ≡ 1 → IfSome (R.remaining reader.old)
        (λ input. Appends (W.contents writer.old) (W.contents writer.new) []
        ⊎ NotServed (commands_of input) options.accept (Appends (W.contents writer.old) (W.contents writer.new))) }
    ensures status { result ≤ 1 }
{
    let Ok(roster) = read_roster(alloc, reader, writer) else {
        return 1;
    };
    let Ok(listener) = TcpListener::bind(rt, ("127.0.0.1", port)) else {
        return 1;
    };
    match serve(rt, alloc, &roster, listener, options, writer) {
        Ok(_count) => 0,
        Err(_fault) => 1,
    }
}
