ghost use Rattle.std.specs.Prelude.{◌≡◌, ◌≤◌, ℕ, List, Ok, Err, IfSome, map};
ghost use Rattle.std.specs.String.{string_bytes};
ghost use Rattle.std.specs.Io.KnownBytes.{Appends};
ghost use Rattle.service.specs.Line.{commands_of};
ghost use Rattle.service.specs.Written.{ScriptWrote};
ghost use Rattle.service.specs.declared.faults.ScriptFault.{ScriptFault};
ghost use Rattle.rtsearch.specs.CommandLine.{AsksForScript, IsCommandLine, entered};
ghost use Rattle.rtsearch.specs.Running.{Ran, Failed};

use crate::command_line::{Errand, read_words};
use crate::serving::run_service;
use clap::error::ErrorKind;
use service::run_script_keeping;
use std::alloc::Global;
use std::io::{Read, Write};
use std::mem::ManuallyDrop;
use std::net::{Net, TcpListener, TcpStream};
use std::sync::Wait;
use std::thread::Threads;
use std::time::Clock;

/// Does what the words of the command line ask for, the program's name first, and answers the status of the program:
/// 0 where all input was read and answered, or all connections were served; 1 on a fault of the roster, of reading, of
/// writing, of a socket, of a thread or of memory; 2 where the command line is refused, whose text goes to the writer,
/// and nothing is read. `--help` and `--version` are among those.
pub fn run_words<
    H: Net<Listener = TcpListener, Stream = TcpStream> + Threads + Wait + Clock + Sync,
    R: Read + Drop,
    W: Write,
>(rt: &H, alloc: Global, words: &[String], reader: &mut R, writer: &mut W) -> u8
    ensures ran { result ≡ 0 → IfSome (R.remaining reader.old)
        (λ input. Ran (entered (map string_bytes words.now)) (commands_of input)
        (Appends (W.contents writer.old) (W.contents writer.new))) }
    ensures failed { result ≡ 1 → IfSome (R.remaining reader.old)
        (λ input. Failed (entered (map string_bytes words.now)) (commands_of input)
        (Appends (W.contents writer.old) (W.contents writer.new))) }
    ensures script { AsksForScript (map string_bytes words.now) → result ≤ 1 }
    ensures accepted { result ≡ 0 → IsCommandLine (map string_bytes words.now) }
    ensures fault { result ≡ 2 → IsCommandLine (map string_bytes words.now) → ⊥ }
    ensures refused { (IsCommandLine (map string_bytes words.now) → ⊥) → R.remaining reader.new ≡ R.remaining reader.old }
    ensures unread { result ≡ 2 → R.remaining reader.new ≡ R.remaining reader.old }
    ensures status { result ≤ 2 }
{
    match read_words(alloc, words) {
        Ok(Errand::Script) => script_status(alloc, reader, writer),
        Ok(Errand::Serve(port, options)) => run_service(rt, alloc, port, options, reader, writer),
        Err(error) => {
            if error.kind() == ErrorKind::OutOfMemory {
                return 1;
            }
            let _ = write!(writer, "{error}");
            2
        }
    }
}

/// Runs a script: 0 where all input was read and answered, 1 on a fault. What its tenants have at the end is left to the
/// system, which takes it back with the process.
fn script_status<R: Read + Drop, W: Write>(alloc: Global, reader: &mut R, writer: &mut W) -> u8
    ensures ran { result ≡ 0 → IfSome (R.remaining reader.old)
        (λ input. ScriptWrote (commands_of input) (Ok tt) (Appends (W.contents writer.old) (W.contents writer.new))) }
    ensures failed { result ≡ 1 → IfSome (R.remaining reader.old)
        (λ input. (fault : ScriptFault) × ScriptWrote (commands_of input) (Err fault)
        (Appends (W.contents writer.old) (W.contents writer.new))) }
    ensures status { result ≤ 1 }
{
    let mut kept = ManuallyDrop::new(None);
    match run_script_keeping(alloc, reader, writer, &mut kept) {
        Ok(()) => 0,
        Err(_fault) => 1,
    }
}
