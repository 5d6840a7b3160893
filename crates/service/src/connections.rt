//! The connections of a service: one thread accepts them, also after an accept that failed, and hands them to those that answer.
ghost use Rattle.std.specs.Prelude.{◌≡◌, ◌↔◌, ◌⊎◌, Some, pos, IsTrue, IfErr};
ghost use Rattle.std.specs.{IoError.error_kind, IoError.raw_os_error};
ghost use Rattle.service.specs.Served.{Answered};

use crate::arrivals::{Arrivals, Entrance, Place};
use crate::conversations::SessionEnd;
use crate::faults::ServeFault;
use crate::peers::{Says, Takes, limit, take_leave};
use crossbeam_channel::Sender;
use std::alloc::Global;
use std::io::{Error, ErrorKind, Read, Write};
use std::net::{OpenListener, TcpStream};
use std::sync::Wait;
use std::thread::{self, Threads};
use std::time::{Clock, Duration};

/// The system's numbers of a descriptor that isn't open and of one that is no socket. Their errors have no kind of their own.
const NOT_OPEN: i32 = 9;

const NO_SOCKET: i32 = 88;

/// How many milliseconds pass after the first accept that failed, and how many at most after a later one. A pause needs no
/// lock, comes to ten calls a second, and serves also where the whole system lacks descriptors.
const FIRST_PAUSE: u64 = 1;

const LONGEST_PAUSE: u64 = 100;

/// What answers the peers of a service. Several threads may call it at once.
pub(crate) trait Answers {
    /// Answers a peer, up to the end of what it says, and tells how that ended.
    fn answer<I: Read + Drop, W: Write>(
        &self,
        alloc: Global,
        reader: I,
        writer: &mut W,
    ) -> SessionEnd;
}

/// A service, which who answers a peer can't stop.
pub(crate) trait Service: Answers {
    /// Lets nobody wait for a search any more.
    fn stop(&self);
}

/// Answers so many connections, or all that come, by as many sessions at once as have a place, and tells how many there were
/// once all have ended. The listener is closed as soon as no more are accepted. Where accepting fails, or a session can't be
/// started, no session waits for a search any more, and each ends.
pub(crate) fn answer_connections<S: Service + Sync, R: Threads + Wait + Clock + Sync>(
    rt: &R,
    alloc: Global,
    service: &S,
    entrance: Entrance,
    arrivals: &Arrivals,
    accept: Option<u64>,
) -> Result<u64, ServeFault>
    ensures { Answered accept result }
{
    thread::scope(
        thread::scope_env(),
        rt,
        // The entrance is its own, and ends with it.
        move |scope| -> Result<u64, ServeFault>
            ensures { Answered accept result }
        {
            for place in &arrivals.places {
                let Ok(_) = scope.spawn(move || answer_queue(rt, alloc, service, arrivals, place))
                else {
                    end_all(rt, service, arrivals);
                    return Err(ServeFault::NoThread);
                };
            }
            let accepted = accept_all(rt, &entrance.listener, &entrance.queue, accept);
            match accepted {
                Ok(_count) => arrivals.close(),
                Err(_fault) => end_all(rt, service, arrivals),
            }
            accepted
        },
    )
}

/// Ends all sessions.
pub(crate) fn end_all<S: Service, R: Wait>(rt: &R, service: &S, arrivals: &Arrivals) {
    arrivals.stop(rt);
    service.stop();
}

/// Accepts so many connections, or all that come, and waits for each until there is room for it in the queue.
fn accept_all<R: Wait + Clock, S: OpenListener>(
    rt: &R,
    listener: &S,
    queue: &Sender<S::Stream>,
    accept: Option<u64>,
) -> Result<u64, ServeFault>
    ensures { Answered accept result }
{
    let mut count = 0;
    for _ in rt.forever() {
        if accept == Some(count) {
            return Ok(count);
        }
        let Ok(()) = queue.send(rt, next_connection(rt, listener)?) else {
            return Err(ServeFault::Memory);
        };
        count = count.saturating_add(1);
    }
    unreachable!()
}

/// The next connection. An accept that fails isn't the end: the peer may have gone, and what the system lacks comes back
/// when a session ends. So it is tried again after a pause, twice as long each time, until the listener itself is at fault.
fn next_connection<R: Wait + Clock, S: OpenListener>(
    rt: &R,
    listener: &S,
) -> Result<S::Stream, ServeFault>
    ensures { IfErr result (λ why. why ≡ ServeFault.Socket) }
{
    let mut pause = FIRST_PAUSE;
    for _ in rt.forever() {
        match listener.accept() {
            Ok((stream, _peer)) => return Ok(stream),
            Err(error) if is_lasting(&error) => return Err(ServeFault::Socket),
            Err(_error) => thread::sleep(rt, Duration::from_millis(pause)),
        }
        pause = pause.saturating_mul(2).min(LONGEST_PAUSE);
    }
    unreachable!()
}

/// Whether a failed accept shows that the listener itself is at fault, so that each later one fails too: it isn't listening, no
/// connections can be had of it, or it doesn't wait for them; or its descriptor isn't open, or no socket.
fn is_lasting(error: &Error) -> bool
    ensures { IsTrue result ↔ (error_kind error.now ≡ ErrorKind.InvalidInput) ⊎ (error_kind error.now ≡ ErrorKind.Unsupported)
        ⊎ (error_kind error.now ≡ ErrorKind.WouldBlock) ⊎ (raw_os_error error.now ≡ Some (pos 9))
        ⊎ (raw_os_error error.now ≡ Some (pos 88)) }
{
    matches!(
        error.kind(),
        ErrorKind::InvalidInput | ErrorKind::Unsupported | ErrorKind::WouldBlock
    ) || matches!(error.raw_os_error(), Some(NOT_OPEN | NO_SOCKET))
}

/// Answers connection after connection until the queue ends, and keeps each in this place meanwhile.
fn answer_queue<S: Answers, R: Wait + Clock>(
    rt: &R,
    alloc: Global,
    service: &S,
    arrivals: &Arrivals,
    place: &Place,
) {
    for _ in rt.forever() {
        let Ok(stream) = arrivals.queue.recv(rt) else {
            break;
        };
        *place.write(rt) = Some(stream);
        if let Some(stream) = &*place.read(rt) {
            answer_peer(rt, alloc, service, arrivals, stream);
        }
        *place.write(rt) = None;
    }
}

/// Answers a peer, each reply at once. One whose connection can't be bounded isn't answered.
fn answer_peer<S: Answers, R: Clock>(
    rt: &R,
    alloc: Global,
    service: &S,
    arrivals: &Arrivals,
    stream: &TcpStream,
) {
    if limit(stream, arrivals).is_err() {
        return;
    }
    let _ = stream.set_nodelay(true);
    let reader = Says { stream, arrivals };
    let mut writer = Takes {
        rt,
        stream,
        arrivals,
    };
    if service.answer(alloc, reader, &mut writer) == SessionEnd::Quit {
        let _ = take_leave(rt, stream);
    }
}

#[cfg(test)]
mod tests;
