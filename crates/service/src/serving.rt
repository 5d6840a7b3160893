//! The service: connections that are answered, and the workers beside them.
ghost use Rattle.std.specs.Prelude.{◌≡◌, ◌≤◌, ◌⊎◌, ◌↔◌, ◌++◌, [], Some, Ok, Err, length, map, decimal, IsOk, IfOk, IfErr, OnOk, OnErr};
ghost use Rattle.std.specs.Io.KnownBytes.{Appends};
ghost use Rattle.service.specs.Served.{Answered, ServeWrote, WithPort, listening_line};
ghost use Rattle.service.specs.{Roster.names_of, Roster.tenant_of, Reply.line_after, Written.WroteFront};

use crate::arrivals::arrivals_at;
use crate::connections::{Answers, Service, answer_connections, end_all};
use crate::conversations::SessionEnd;
use crate::faults::ServeFault;
use crate::replies::fill_counted;
use crate::reply_buffers::ReplyBuffer;
use crate::rosters::Roster;
use crate::sessions::serve_session;
use crate::speakers::Speaker;
use crate::writing::{WriteFault, write_reply};
use pool::{Authority, Desk, DeskFault, Naming, NoGate, Unnamed, run_workers};
use std::alloc::Global;
use std::io::{Read, Write};
use std::marker::Brand;
use std::net::TcpListener;
use std::sync::Wait;
use std::thread::{self, Threads};
use std::time::Clock;

/// How many threads a service has, and when it ends.
#[derive(Clone, Copy)]
pub struct ServeOptions {
    /// How many workers go on with the searches, 1 to 64.
    pub workers: u64,
    /// How many connections are answered at once, 1 to 64. Further ones wait.
    pub sessions: u64,
    /// After how many connections the service ends. Without a number it goes on.
    pub accept: Option<u64>,
    /// After how many seconds, at least 1, in which its peer says nothing, or takes nothing of a reply, a session ends. The
    /// time that a peer waits for its reply doesn't count. Without a number it goes on.
    pub idle_seconds: Option<u64>,
}

/// Serves the roster's tenants, who have done nothing yet, to the peers that connect to the listener. Once the listener's
/// port is known a line tells it. After the last connection has been answered another line tells how many there were. On a
/// fault, also where a thread can't be started or all workers lacked memory, nothing more is accepted, waits for searches
/// end, each session ends where it reads or its peer takes nothing, and the fault is told once all have ended.
pub fn serve<R: Threads + Wait + Clock + Sync, W: Write>(
    rt: &R,
    alloc: Global,
    roster: &Roster,
    listener: TcpListener,
    options: ServeOptions,
    writer: &mut W,
) -> Result<u64, ServeFault>
    requires workers { (1 ≤ options.workers) × (options.workers ≤ 64) }
    requires sessions { (1 ≤ options.sessions) × (options.sessions ≤ 64) }
    ensures count { IfOk result (λ n. options.accept ≡ Some n) }
    ensures wrote { ServeWrote options.accept result (Appends (W.contents writer.old) (W.contents writer.new)) }
{
    let Ok(mut line) = ReplyBuffer::make(alloc) else {
        return Err(ServeFault::Memory);
    };
    let Ok(unnamed) = Unnamed::make(alloc) else {
        return Err(ServeFault::Memory);
    };
    let count = serve_with::<Brand, R, W>(
        rt, unnamed, roster, listener, options, writer, &mut line,
    )?;
    let Ok(()) = tell(writer, &mut line, b"served ", count) else {
        return Err(ServeFault::Write);
    };
    Ok(count)
}

/// Tells the listener's port by this line, and serves at a new desk of the roster's tenants, whose ledger and history have this name.
fn serve_with<L: Naming + Send + Sync, R: Threads + Wait + Clock + Sync, W: Write>(
    rt: &R,
    unnamed: Unnamed,
    roster: &Roster,
    listener: TcpListener,
    options: ServeOptions,
    writer: &mut W,
    line: &mut ReplyBuffer,
) -> Result<u64, ServeFault>
    requires roster { map tenant_of roster.now ≡ L.roster }
    requires named { unnamed ≡ record { ledger = L.name; parts = L.parts; table = L.table; letters = L.letters; rights = L.rights } }
    ensures count { IfOk result (λ n. options.accept ≡ Some n) }
    ensures told { OnOk result (WithPort (λ port. Appends (W.contents writer.old) (W.contents writer.new) (listening_line port))) }
    ensures fault { IfErr result (λ why. ServeWrote options.accept (Err why) (Appends (W.contents writer.old) (W.contents writer.new))) }
{
    let Ok((desk, authority)) = roster.desk::<L>(line.alloc(), unnamed) else {
        return Err(ServeFault::Memory);
    };
    let Ok(address) = listener.local_addr() else {
        return Err(ServeFault::Socket);
    };
    let port = u64::from(address.port());
    let Ok(()) = tell(writer, line, b"listening 127.0.0.1:", port) else {
        return Err(ServeFault::Write);
    };
    let service = AtDesk {
        rt,
        desk: &desk,
        authority: &authority,
        roster,
    };
    answer_beside_workers(
        rt,
        line.alloc(),
        &desk,
        &authority,
        &service,
        listener,
        options,
    )
}

/// Writes a line of these words and this number.
fn tell<W: Write>(
    out: &mut W,
    line: &mut ReplyBuffer,
    words: &[u8],
    count: u64,
) -> Result<(), WriteFault>
    requires { length words.now ≤ 20 }
    ensures ok { OnOk result (Appends (W.contents out.old) (W.contents out.new) (line_after [] (words.now ++ decimal count))) }
    ensures err { OnErr result
        (WroteFront (line_after [] (words.now ++ decimal count)) (Appends (W.contents out.old) (W.contents out.new))) }
{
    fill_counted(line, &Speaker::Peer, words, count);
    write_reply(out, line.as_slice())
}

/// The service at the desk of a roster's tenants. It has the authority over the desk, of which a session gets the right to be let
/// in once.
#[derive(Drop)]
struct AtDesk<'a, L: Naming, R> {
    rt: &'a R,
    desk: &'a Desk<L>,
    authority: &'a Authority<L>,
    roster: &'a Roster,
    ghost tenants: { desk.now ≡ names_of roster.now },
}

impl<L: Naming, R: Wait> Answers for AtDesk<'_, L, R> {
    fn answer<I: Read + Drop, W: Write>(
        &self,
        alloc: Global,
        reader: I,
        writer: &mut W,
    ) -> SessionEnd {
        serve_session(
            self.rt,
            alloc,
            self.desk,
            self.authority.admission(),
            self.roster,
            reader,
            writer,
        )
    }
}

impl<L: Naming, R: Wait> Service for AtDesk<'_, L, R> {
    fn stop(&self) {
        self.desk.stop(self.rt, self.authority);
    }
}

/// Runs the workers while the connections are answered, until the desk is stopped. Where one can't be started, or all end
/// sooner for want of memory, their thread ends the service.
fn answer_beside_workers<L: Naming + Send + Sync, R: Threads + Wait + Clock + Sync>(
    rt: &R,
    alloc: Global,
    desk: &Desk<L>,
    authority: &Authority<L>,
    service: &(impl Service + Sync),
    listener: TcpListener,
    options: ServeOptions,
) -> Result<u64, ServeFault>
    ensures { Answered options.accept result }
{
    let (entrance, arrivals) = arrivals_at(alloc, listener, options)?;
    let arrivals = &arrivals;
    thread::scope(
        thread::scope_env(),
        rt,
        move |scope| -> Result<u64, ServeFault>
            ensures { Answered options.accept result }
        {
            let Ok(working) = scope.spawn(move || {
                let worked = run_workers(
                    rt,
                    desk,
                    authority,
                    options.workers.clamp(1, 64),
                    &NoGate,
                );
                if worked.is_err() {
                    end_all(rt, service, arrivals);
                }
                worked
            }) else {
                return Err(ServeFault::NoThread);
            };
            let answered = answer_connections(
                rt,
                alloc,
                service,
                entrance,
                arrivals,
                options.accept,
            );
            desk.stop(rt, authority);
            first_fault(worked_well(working.join(rt)), answered)
        },
    )
}

/// How many connections were answered, or the fault of the workers, which ends the connections too, or else that of these.
fn first_fault(
    worked: Result<(), ServeFault>,
    answered: Result<u64, ServeFault>,
) -> Result<u64, ServeFault>
    ensures workers { IfErr worked (λ why. result ≡ Err why) }
    ensures connections { OnOk worked (IfErr answered (λ why. result ≡ Err why)) }
    ensures count { IfOk answered (λ count. OnOk worked (result ≡ Ok count)) }
{
    worked?;
    answered
}

/// The fault of the workers, if there was one.
fn worked_well(worked: Result<u64, DeskFault>) -> Result<(), ServeFault>
    ensures well { IsOk result ↔ IsOk worked }
    ensures why { IfErr result (λ why. (why ≡ ServeFault.NoThread) ⊎ (why ≡ ServeFault.Memory)) }
    ensures same { IfErr result (λ why. (why ≡ ServeFault.NoThread) ↔ (worked ≡ Err DeskFault.NoThread)) }
{
    match worked {
        Ok(_letters) => Ok(()),
        Err(DeskFault::NoThread) => Err(ServeFault::NoThread),
        Err(_fault) => Err(ServeFault::Memory),
    }
}

#[cfg(test)]
mod tests;
