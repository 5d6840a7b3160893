use super::*;
use crossbeam_channel::{Receiver, bounded};
use std::cell::Cell;
use std::io;
use std::net::SocketAddr;

/// Fails by these numbers of the system, one after the other, and then gives connections, which are counted.
#[derive(Drop)]
struct Reluctant<'a> {
    faults: &'a [i32],
    tried: Cell<usize>,
}

impl OpenListener for Reluctant<'_> {
    type Stream = usize;

    fn accept(&self) -> io::Result<(usize, SocketAddr)> {
        let tried = self.tried.get();
        self.tried.set(tried.saturating_add(1));
        match self.faults.get(tried) {
            Some(number) => Err(Error::from_raw_os_error(*number)),
            None => Ok((tried, SocketAddr::from(([127, 0, 0, 1], 0)))),
        }
    }
}

/// What comes first out of the queue once a listener has failed by these numbers, or the fault that ends it.
fn first_of<R: Wait + Clock>(
    rt: &R,
    faults: &[i32],
    sender: &Sender<usize>,
    queue: &Receiver<usize>,
) -> Result<usize, ServeFault> {
    let tried = Cell::new(0);
    accept_all(rt, &Reluctant { faults, tried }, sender, Some(1))?;
    queue.recv(rt).or(Err(ServeFault::Memory))
}

/// The first connection of a listener that fails by these numbers first, or the fault that ends it.
fn comes_of<R: Wait + Clock>(rt: &R, alloc: Global, faults: &[i32]) -> Result<usize, ServeFault> {
    match bounded(alloc, 1) {
        Ok((sender, queue)) => first_of(rt, faults, &sender, &queue),
        Err(_) => Err(ServeFault::Memory),
    }
}

/// The numbers of faults, and what comes of a listener that fails by them. The numbers are Linux's.
static FAULTS: [(&[i32], Result<usize, ServeFault>); 8] = [
    // These pass: no descriptor left for the process (24) or the system (23), no buffer (105), no memory (12); the peer has
    // gone (103, 71), can't be reached (113, 101) or may not connect (1).
    (&[], Ok(0)),
    (&[24, 23, 105, 12, 103, 71, 113, 101, 1], Ok(9)),
    (&[24; 12], Ok(12)),
    // These are the end: it isn't open (9), no socket (88), no stream (95), not listening (22), or doesn't wait (11).
    (&[24, 9], Err(ServeFault::Socket)),
    (&[24, 88], Err(ServeFault::Socket)),
    (&[24, 95], Err(ServeFault::Socket)),
    (&[24, 22], Err(ServeFault::Socket)),
    (&[24, 11], Err(ServeFault::Socket)),
];

#[test]
fn a_fault_that_passes_is_no_end(rt: HostRuntime) {
    for (faults, end) in &FAULTS {
        assert!(rt; comes_of(&rt, rt.alloc(), *faults) == *end);
    }
}
