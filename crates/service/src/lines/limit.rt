//! A bound on how often a reader is asked.
ghost use Rattle.std.specs.Prelude.{◌≡◌, ◌+◌, ◌<◌, ◌≤◌, ◌^◌, IsErr};
ghost use Rattle.std.specs.Io.{ReadsAtMost, KnownBytes.ReadConsumes};

use std::io::{self, Read};

/// How often a `LineReader` may call its reader's `read` before it gives up with a fault.
pub const MOST_READS: u64 = 1 << 40;

/// A reader that fails once it was read so often. Each call of `read` counts, also one that failed.
#[derive(Drop)]
pub(crate) struct Limited<R> {
    pub(crate) inner: R,
    pub(crate) left: u64,
    ghost few: { left ≤ 2 ^ 40 },
}

impl<R: Read> Read for Limited<R> {
    ghost remaining = { λ s. R.remaining s.inner };

    fn read(&mut self, buf: &mut [u8]) -> io::Result<usize>
        ensures bound { ReadsAtMost result buf.new }
        ensures bytes { ReadConsumes (R.remaining self.old.inner) (R.remaining self.new.inner) result buf.new }
        ensures counted { 0 < self.old.left → self.new.left + 1 ≡ self.old.left }
        ensures used_up { self.old.left ≡ 0 → IsErr result × (self.new ≡ self.old) }
    {
        if self.left == 0 {
            return Err(io::Error::other("the reader was read too often"));
        }
        self.left -= 1;
        self.inner.read(buf)
    }
}
