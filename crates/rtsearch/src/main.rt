//! The program: `rtsearch script` reads a roster and commands on standard input, and writes one reply to each;
//! `rtsearch serve` reads a roster there, and answers its tenants over TCP.
//!
//! What it does with its arguments is said in `specs/CommandLine.antt`, and how it ends in `specs/Running.antt` and
//! `specs/Serving.antt`.
//! Why so: docs/DECISIONS.md#rtsearch.
#![tactic(auto)]

mod command_line;
mod ending;
mod running;
mod serving;

use crate::ending::end_with;
use crate::running::run_words;
use std::alloc::AllocGlobal;
use std::env::Env;
use std::io::{Read, Write};
use std::net::{Net, TcpListener, TcpStream};
use std::process::ExitCode;
use std::sync::Wait;
use std::thread::Threads;
use std::time::Clock;
use std::{env, io};

/// Runs the program over its own words and these streams, and answers its status.
fn run<
    H: Env
        + AllocGlobal
        + Net<Listener = TcpListener, Stream = TcpStream>
        + Threads
        + Wait
        + Clock
        + Sync,
    R: Read + Drop,
    W: Write,
>(rt: &H, reader: &mut R, writer: &mut W) -> io::Result<u8> {
    let words: Vec<String> = env::args(rt)?.collect(rt.alloc())?;
    Ok(run_words(rt, rt.alloc(), words.as_slice(), reader, writer))
}

fn main(rt: HostRuntime) -> ExitCode {
    let told = run(&rt, &mut rt.stdin(), &mut rt.stdout());
    end_with(told, &mut rt.stdout())
}
