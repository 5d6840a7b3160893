//! A run of more events than any play has.
use super::{entity, four_tenants};
use hall::{Event, Fault, Hall, Reply, Request};
use quotas::Limits;
use std::alloc::Global;

/// Whether each of so many events is answered that there is no such search.
fn answers_each(alloc: Global, hall: &mut Hall, count: u64) -> Result<bool, Fault> {
    let a = entity("A")?;
    let mut events = Vec::new(alloc);
    for _ in 0..count {
        events.push(Event::Request(a, Request::Poll(1)))?;
    }
    let replies = hall.run(&events)?;
    let mut are_refused = replies.len() as u64 == count;
    for reply in &replies {
        are_refused &= matches!(reply, Reply::Refused(Fault::NoSuchSearch));
    }
    Ok(are_refused)
}

#[test]
fn a_run_of_1001_events(rt: HostRuntime) -> Result<(), Fault> {
    let mut hall = four_tenants(rt.alloc(), Limits::usual())?;
    assert!(rt; answers_each(rt.alloc(), &mut hall, 1_001)?);
    Ok(())
}
