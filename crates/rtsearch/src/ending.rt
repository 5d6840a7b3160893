ghost use Rattle.std.specs.Prelude.{◌≡◌, ◌≢◌, IfOk, IfErr, IsOk};
ghost use Rattle.std.specs.Process.{exit_status};
ghost use Rattle.std.specs.IoError.{error_kind};

use std::io;
use std::io::{ErrorKind, Write};
use std::process::ExitCode;

/// What answers a command line with a word that isn't UTF-8.
pub const NO_TEXT: &str = "error: a word of the command line is not UTF-8\n";

/// Ends the program: with the status that it came to; or, where the words of its command line couldn't be had, with 1
/// where memory lacked, and else with 2 and a line that says so.
pub fn end_with<W: Write>(told: io::Result<u8>, writer: &mut W) -> ExitCode
    ensures status { IfOk told (λ status. exit_status result ≡ status) }
    ensures lacked { IfErr told (λ e. error_kind e ≡ ErrorKind.OutOfMemory → exit_status result ≡ 1) }
    ensures refused { IfErr told (λ e. error_kind e ≢ ErrorKind.OutOfMemory → exit_status result ≡ 2) }
    ensures silent { IsOk told → W.contents writer.new ≡ W.contents writer.old }
{
    match told {
        Ok(status) => ExitCode::from(status),
        Err(error) if error.kind() == ErrorKind::OutOfMemory => ExitCode::from(1),
        Err(_error) => {
            let _ = writer.write_all(NO_TEXT.as_bytes());
            ExitCode::from(2)
        }
    }
}
