//! What the connections of a service share: where they come from, and what ends them beside what their peers say.
ghost use Rattle.std.specs.{Prelude.◌≡◌, Prelude.◌≢◌, Prelude.◌*◌, Prelude.IfErr, Prelude.option_map, Duration.as_nanos};

use crate::faults::ServeFault;
use crate::serving::ServeOptions;
use crossbeam_channel::{Receiver, Sender, bounded};
use std::alloc::{AllocError, Global};
use std::io;
use std::net::{Shutdown, TcpListener, TcpStream};
use std::os::fd::OwnedFd;
use std::sync::atomic::{AtomicBool, Ordering};
use std::sync::{RwLock, Wait};
use std::time::Duration;

/// How many accepted connections wait for a session that is free. More wait in the listener. A queue without a bound would pile
/// up descriptors.
const QUEUED: usize = 1;

/// Where a session keeps the connection that it answers, so that others can end it.
pub(crate) type Place = RwLock<Option<TcpStream>>;

/// Where connections are accepted. With it ends the queue of those that wait for a session.
#[derive(Drop)]
pub(crate) struct Entrance {
    pub(crate) listener: TcpListener,
    pub(crate) queue: Sender<TcpStream>,
}

/// Where the sessions find their connections, and how these are ended.
#[derive(Drop)]
pub(crate) struct Arrivals {
    pub(crate) queue: Receiver<TcpStream>,
    /// One for each session.
    pub(crate) places: Vec<Place>,
    /// The listener once more, in the form that can be shut while a thread waits at it.
    listener: TcpStream,
    idle_seconds: Option<u64>,
    is_stopped: AtomicBool,
}

/// The two ends of the queue between a listener and so many sessions.
pub(crate) fn arrivals_at(
    alloc: Global,
    listener: TcpListener,
    options: ServeOptions,
) -> Result<(Entrance, Arrivals), ServeFault>
    ensures { IfErr result (λ why. why ≢ ServeFault.Write) }
{
    let Ok(again) = listener.try_clone() else {
        return Err(ServeFault::Socket);
    };
    let (Ok((sender, queue)), Ok(places)) = (
        bounded(alloc, QUEUED),
        free_places(alloc, options.sessions),
    ) else {
        return Err(ServeFault::Memory);
    };
    let entrance = Entrance {
        listener,
        queue: sender,
    };
    let arrivals = Arrivals {
        queue,
        places,
        listener: TcpStream::from(OwnedFd::from(again)),
        idle_seconds: options.idle_seconds,
        is_stopped: AtomicBool::new(false),
    };
    Ok((entrance, arrivals))
}

/// So many places without a connection.
fn free_places(alloc: Global, count: u64) -> Result<Vec<Place>, AllocError> {
    let mut places = Vec::new(alloc);
    for _ in 0..count {
        places.push(RwLock::new(None))?;
    }
    Ok(places)
}

impl Arrivals {
    /// Accepts nothing more: who connects is refused, and who waits to accept has a fault of the listener.
    pub(crate) fn close(&self) {
        let _ = self.listener.shutdown(Shutdown::Both);
    }

    /// Accepts nothing more, and ends each session where it reads, also where its peer is silent, or where a reply isn't
    /// taken at once.
    pub(crate) fn stop<R: Wait>(&self, rt: &R) {
        self.is_stopped.store(true, Ordering::SeqCst);
        self.close();
        for place in &self.places {
            if let Some(stream) = &*place.read(rt) {
                let _ = stream.shutdown(Shutdown::Read);
            }
        }
    }

    /// Fails once the service has stopped.
    pub(crate) fn go_on(&self) -> io::Result<()> {
        if self.is_stopped.load(Ordering::SeqCst) {
            return Err(io::Error::other("the service has stopped"));
        }
        Ok(())
    }

    /// How long a connection waits for its peer, if not for ever.
    pub(crate) fn idle(&self) -> Option<Duration>
        ensures { option_map as_nanos result ≡ option_map (λ seconds. seconds * 1_000_000_000) self.now.idle_seconds }
    {
        Some(Duration::from_secs(self.idle_seconds?))
    }
}
