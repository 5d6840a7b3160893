ghost use Rattle.std.specs.Prelude.{◌≡◌, ◌≤◌, ℕ, List, [], ◌∷◌, codes, map, true, false, IfOk, IfErr, OnOk};
ghost use Rattle.std.specs.String.{string_bytes};
ghost use Rattle.clap.specs.Words.{app_of, kind_of, found_of, one_text, rule_of, subcommand_rows_of};
ghost use Rattle.rtsearch.specs.CommandLine.{AsksForScript, IsCommandLine, IsFaultOf, program, serve_command};
ghost use Rattle.rtsearch.specs.CommandLine.{number_rule, usually};
ghost use Rattle.rtsearch.specs.CommandLine.{entered, is_serve, port_test, threads_test, accept_test, idle_test};
ghost use Rattle.rtsearch.specs.CommandLine.{HasValue, MayHaveValue, HasOptions, IsValue, IsGiven, AreThreads, Asks};

use clap::builder::ValueParser;
use clap::error::ErrorKind;
use clap::{Arg, ArgMatches, Command, Error, value_parser};
use service::ServeOptions;
use std::alloc::{AllocError, Global};

/// What `--version` shows.
const VERSION: &str = "0.1.0";

/// What a command line asks for.
pub enum Errand {
    /// To run a script.
    Script,
    /// To serve connections at this port, or at any free one where it is 0.
    Serve(u16, ServeOptions),
}

/// Reads the words of the command line, the program's name first.
pub fn read_words<'a>(alloc: Global, words: &'a [String]) -> Result<Errand, Error>
    ensures script { IfErr result (λ e. AsksForScript (map string_bytes words.now) → kind_of e ≡ ErrorKind.OutOfMemory) }
    ensures accepted { OnOk result (IsCommandLine (map string_bytes words.now)) }
    ensures refused { IfErr result (IsFaultOf (map string_bytes words.now)) }
    ensures errand { IfOk result (Asks (entered (map string_bytes words.now))) }
{
    let program = program_line(alloc)?;
    let matches = program.try_get_matches_from(words)?;
    Ok(errand_of(&matches))
}

/// The program's command line.
fn program_line<'a>(alloc: Global) -> Result<Command<'a>, AllocError>
    ensures { IfOk result (λ c. app_of c ≡ program) }
{
    let serve = serve_line(alloc)?;
    let script = Command::new(alloc, "script").about(
        "Reads a roster and commands on standard input, and writes one reply to each",
    );
    let subcommands = vec![in alloc; script, serve]?;
    Command::new(alloc, "rtsearch")
        .about("Answers membership questions over RT0 credentials")
        .version(VERSION)
        .subcommand_required(true)
        .subcommands(subcommands)
}

/// The command line of `serve`, after that word.
fn serve_line<'a>(alloc: Global) -> Result<Command<'a>, AllocError>
    ensures { IfOk result (λ c. app_of c ≡ serve_command) }
{
    let threads = ValueParser::unsigned(1, 64);
    let connections = ValueParser::unsigned(1, 1_000_000);
    let seconds = ValueParser::unsigned(1, 86_400);
    let port = "The port on 127.0.0.1, 0 for any that is free";
    let workers = "How many threads go on with the searches";
    let sessions = "How many connections are answered at once";
    let accept = "Ends after so many connections";
    let idle =
        "Ends a session whose peer sends nothing, or takes nothing of a reply, for so many seconds";
    let options = vec![in alloc;
        usual_option(alloc, "port", port, value_parser!(u16), "0"),
        usual_option(alloc, "workers", workers, threads, "4"),
        usual_option(alloc, "sessions", sessions, threads, "8"),
        number_option(alloc, "accept", accept, connections),
        number_option(alloc, "idle", idle, seconds),
    ]?;
    Command::new(alloc, "serve")
        .about("Reads a roster on standard input, and serves its tenants on 127.0.0.1")
        .args(options)
}

/// An option of a number, which has this usual value where the words don't give one.
fn usual_option<'a>(
    alloc: Global,
    name: &'a str,
    help: &'a str,
    test: ValueParser<'a>,
    usual: &'a str,
) -> Arg<'a>
    ensures rule { rule_of result ≡ usually usual.entry.now (number_rule name.entry.now test.entry) }
    ensures local { result.global ≡ false }
{
    number_option(alloc, name, help, test).default_value(usual)
}

/// An option of this name, whose value is a number that passes this test.
fn number_option<'a>(alloc: Global, name: &'a str, help: &'a str, test: ValueParser<'a>) -> Arg<'a>
    ensures rule { rule_of result ≡ number_rule name.entry.now test.entry }
    ensures local { result.global ≡ false }
{
    Arg::new(alloc, name)
        .long(name)
        .help(help)
        .value_parser(test)
}

/// What the words ask for, by what was found in them.
fn errand_of(matches: &ArgMatches<'_>) -> Errand
    requires { is_serve (subcommand_rows_of matches.now) ≡ true → HasOptions (subcommand_rows_of matches.now) }
    ensures { Asks (subcommand_rows_of matches.now) result }
{
    match matches.subcommand_matches("serve") {
        Some(serve) => Errand::Serve(port_of(serve), options_of(serve)),
        None => Errand::Script,
    }
}

/// The port to serve at.
fn port_of(serve: &ArgMatches<'_>) -> u16
    requires { HasValue port_test (one_text (found_of serve.now) (codes "port")) }
    ensures { IsValue (one_text (found_of serve.now) (codes "port")) result }
{
    serve.get_one::<u16>("port").unwrap()
}

/// How many threads the service has, after how many connections it ends, and after how many silent seconds a session does.
fn options_of(serve: &ArgMatches<'_>) -> ServeOptions
    requires workers { HasValue threads_test (one_text (found_of serve.now) (codes "workers")) }
    requires sessions { HasValue threads_test (one_text (found_of serve.now) (codes "sessions")) }
    requires accept { MayHaveValue accept_test (one_text (found_of serve.now) (codes "accept")) }
    requires idle { MayHaveValue idle_test (one_text (found_of serve.now) (codes "idle")) }
    ensures workers { IsValue (one_text (found_of serve.now) (codes "workers")) result.workers × AreThreads result.workers }
    ensures sessions { IsValue (one_text (found_of serve.now) (codes "sessions")) result.sessions × AreThreads result.sessions }
    ensures accept { IsGiven (one_text (found_of serve.now) (codes "accept")) result.accept }
    ensures idle { IsGiven (one_text (found_of serve.now) (codes "idle")) result.idle_seconds }
{
    ServeOptions {
        workers: threads_of(serve, "workers"),
        sessions: threads_of(serve, "sessions"),
        accept: accept_of(serve),
        idle_seconds: idle_of(serve),
    }
}

/// How many threads an option asks for.
fn threads_of(serve: &ArgMatches<'_>, option: &str) -> u64
    requires { HasValue threads_test (one_text (found_of serve.now) option.now) }
    ensures value { IsValue (one_text (found_of serve.now) option.now) result }
    ensures range { AreThreads result }
{
    serve.get_one::<u64>(option).unwrap()
}

/// After how many connections the service ends, where the words say so.
fn accept_of(serve: &ArgMatches<'_>) -> Option<u64>
    requires { MayHaveValue accept_test (one_text (found_of serve.now) (codes "accept")) }
    ensures { IsGiven (one_text (found_of serve.now) (codes "accept")) result }
{
    serve.get_one::<u64>("accept")
}

/// After how many silent seconds a session ends, where the words say so.
fn idle_of(serve: &ArgMatches<'_>) -> Option<u64>
    requires { MayHaveValue idle_test (one_text (found_of serve.now) (codes "idle")) }
    ensures { IsGiven (one_text (found_of serve.now) (codes "idle")) result }
{
    serve.get_one::<u64>("idle")
}
