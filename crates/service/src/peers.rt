//! The two directions of a connection, and its end.
use crate::arrivals::Arrivals;
use std::io::{self, Error, ErrorKind, Read, Write};
use std::net::{Shutdown, TcpStream};
use std::time::{Clock, Duration, Instant};

/// How many milliseconds one write waits for its peer. What was taken by then counts, and the next one goes on. A writer that
/// waits is woken only where a third of the system's buffer is free, for which a slow peer may need long; one that begins has
/// what room there is.
const WRITE: u64 = 250;

/// For how many milliseconds, and in how many reads of how many bytes, what a peer has sent behind its last line is dropped.
const FAREWELL: u64 = 1_000;

const LAST_READS: u64 = 1024;

const LAST_BYTES: usize = 4096;

/// Bounds how long each read and each write of the connection waits.
pub(crate) fn limit(stream: &TcpStream, arrivals: &Arrivals) -> io::Result<()> {
    stream.set_read_timeout(arrivals.idle())?;
    stream.set_write_timeout(Some(Duration::from_millis(WRITE)))
}

/// What a peer says. Once the service has stopped reading fails, so the session ends, and what comes then isn't answered.
#[derive(Drop)]
pub(crate) struct Says<'a> {
    pub(crate) stream: &'a TcpStream,
    pub(crate) arrivals: &'a Arrivals,
}

impl Read for Says<'_> {
    fn read(&mut self, buf: &mut [u8]) -> io::Result<usize> {
        self.arrivals.go_on()?;
        let read = self.stream.read(buf);
        self.arrivals.go_on().and(read)
    }
}

/// What a peer is told. A peer that takes some of it within its idle time has that time again for the rest. Once the
/// service has stopped only what is taken at once goes out.
#[derive(Drop)]
pub(crate) struct Takes<'a, R> {
    pub(crate) rt: &'a R,
    pub(crate) stream: &'a TcpStream,
    pub(crate) arrivals: &'a Arrivals,
}

impl<R: Clock> Write for Takes<'_, R> {
    fn write(&mut self, buf: &[u8]) -> io::Result<usize> {
        let since = Instant::now(self.rt)?;
        for _ in 0..u64::MAX {
            match self.stream.write(buf) {
                Ok(taken) if taken == buf.len() => return Ok(taken),
                Err(error) if error.kind() == ErrorKind::WouldBlock => self.wait_on(since)?,
                written => return self.arrivals.go_on().and(written),
            }
        }
        Err(Error::from(ErrorKind::TimedOut))
    }

    fn flush(&mut self) -> io::Result<()> {
        Ok(())
    }
}

impl<R: Clock> Takes<'_, R> {
    /// Fails where the peer has taken nothing for as long as it may, or the service has stopped.
    fn wait_on(&self, since: Instant) -> io::Result<()> {
        self.arrivals.go_on()?;
        match self.arrivals.idle() {
            Some(idle) if since.elapsed(self.rt)? >= idle => {
                Err(Error::from(ErrorKind::TimedOut))
            }
            _ => Ok(()),
        }
    }
}

/// Takes leave of a peer: tells it that no more comes, and drops what it has sent behind its last line. A connection that
/// is closed over unread bytes is reset, and its peer may never read the last reply.
pub(crate) fn take_leave<R: Clock>(rt: &R, mut stream: &TcpStream) -> io::Result<()> {
    let began = Instant::now(rt)?;
    stream.shutdown(Shutdown::Write)?;
    let mut dropped = [0; LAST_BYTES];
    for _ in 0..LAST_READS {
        let left = Duration::from_millis(FAREWELL).saturating_sub(began.elapsed(rt)?);
        stream.set_read_timeout(Some(left))?;
        if stream.read(&mut dropped)? == 0 {
            break;
        }
    }
    Ok(())
}
