//! Any reader and writer of std as a source and a sink.
ghost use Rattle.std.specs.Prelude.{◌≡◌, ◌+◌, ◌^◌, ◌-◌, min};

use libc::net as system;
use libc::types::pollfd;
use mdcc_base::{Failed, Sink, Source};
use std::io::{ErrorKind, Read, Write};
use std::os::fd::{AsRawFd, RawFd};

/// How many milliseconds go by at most before a stream that was not ready is tried again.
const PATIENCE: i32 = 1000;

// Waits until a stream is ready for these events, or is closed or broken, which the next call at it then says.
fn wait_until(fd: RawFd, events: i16) {
    let mut requests = [pollfd {
        fd,
        events,
        revents: 0,
    }];
    system::poll(&mut requests, PATIENCE);
}

/// A reader, and how often it failed. A read that a signal ended is made again, and so is one that found nothing yet at a stream
/// that does not wait by itself.
#[derive(Drop)]
pub struct Reading<R: Read + AsRawFd + Drop> {
    inner: R,
    faults: u64,
}

impl<R: Read + AsRawFd + Drop> Reading<R> {
    /// A reader that has not failed.
    pub fn new(inner: R) -> Self {
        Reading { inner, faults: 0 }
    }
}

impl<R: Read + AsRawFd + Drop> Source for Reading<R> {
    ghost left = { λ s. R.remaining s.inner };

    ghost faults = { λ s. s.faults };

    #[tactic(auto, using(crate::proofs::Kept::kept, crate::proofs::Kept::kept_again, crate::proofs::Kept::kept_read))]
    fn read(&mut self, into: &mut [u8]) -> Result<usize, Failed> {
        for _ in 0..u64::MAX {
            match self.inner.read(into) {
                Ok(count) => return Ok(count),
                Err(error) => match error.kind() {
                    ErrorKind::Interrupted => {}
                    ErrorKind::WouldBlock => wait_until(self.inner.as_raw_fd(), system::POLLIN),
                    _ => break,
                },
            }
        }
        self.faults = self.faults.saturating_add(1);
        Err(Failed)
    }
}

/// A writer, and how often it failed. A write that takes nothing of some bytes is a failure. One that a signal ended is made again,
/// and so is one that found no room at a stream that does not wait by itself, as a pipe whose reader is slow.
#[derive(Drop)]
pub struct Writing<W: Write + AsRawFd + Drop> {
    inner: W,
    faults: u64,
}

impl<W: Write + AsRawFd + Drop> Writing<W> {
    /// A writer that has not failed.
    pub fn new(inner: W) -> Self {
        Writing { inner, faults: 0 }
    }
}

impl<W: Write + AsRawFd + Drop> Sink for Writing<W> {
    ghost held = { λ s. W.contents s.inner };

    ghost faults = { λ s. s.faults };

    #[tactic(auto, using(crate::proofs::Kept::kept, crate::proofs::Kept::kept_again, crate::proofs::Kept::kept_write))]
    fn write(&mut self, from: &[u8]) -> Result<usize, Failed> {
        for _ in 0..u64::MAX {
            match self.inner.write(from) {
                Ok(count) if count > 0 || from.is_empty() => return Ok(count),
                Ok(_) => break,
                Err(error) => match error.kind() {
                    ErrorKind::Interrupted => {}
                    ErrorKind::WouldBlock => wait_until(self.inner.as_raw_fd(), system::POLLOUT),
                    _ => break,
                },
            }
        }
        self.faults = self.faults.saturating_add(1);
        Err(Failed)
    }
}
