use super::*;

/// What goes out of an outbox into which these are put, before all the rest is sent and after it.
fn goes_out(alloc: Global, replies: &[&[u8]], before: usize, after: usize) -> bool {
    let Ok(mut out) = Outbox::make(alloc) else {
        return false;
    };
    let mut written = Vec::new(alloc);
    for reply in replies {
        if out.put(&mut written, *reply).is_err() {
            return false;
        }
    }
    let early = written.len();
    out.send(&mut written).is_ok() && early == before && written.len() == after
}

// A body that writes each reply by itself fails the first row, one that writes none before the end the second.
#[test]
fn replies_wait_for_one_another_as_far_as_there_is_room(rt: HostRuntime) {
    let long = [b'x'; 8193];
    assert!(rt; goes_out(rt.alloc(), &[b"ok 1\n", b"ok 2\n"], 0, 10));
    assert!(rt; goes_out(rt.alloc(), &[&long[..8190], b"ok 2\n"], 8190, 8195));
    assert!(rt; goes_out(rt.alloc(), &[&long[..8187], b"ok 2\n"], 0, 8192));
    assert!(rt; goes_out(rt.alloc(), &[b"ok 1\n", &long, b"ok 2\n"], 8198, 8203));
}
