//! A link in memory with a pause: some receives give nothing, though something waits.
ghost use Rattle.std.specs.Prelude.{None};

use mdcc_base::{Address, Failed, Memory};
use mdcc_link::{Link, MemoryLink, Received};
use std::alloc::Global;

/// A link in memory of which the receives with numbers from the first to the last, counted from 1, give nothing. What waits goes on to.
#[derive(Drop)]
pub struct PausingLink {
    pub inner: MemoryLink,
    first: u32,
    last: u32,
    receives: u32,
}

impl PausingLink {
    /// A link with no endpoint and such a pause.
    pub fn new(alloc: Global, first: u32, last: u32) -> Result<PausingLink, Memory> {
        let inner = MemoryLink::new(alloc, &[])?;
        Ok(PausingLink {
            inner,
            first,
            last,
            receives: 0,
        })
    }
}

impl Link for PausingLink {
    ghost calls = { λ _. None };

    ghost lost = { λ link. link.inner.lost };

    ghost faults = { λ link. link.inner.faults };

    ghost waiting = { λ _ _. None };

    fn bind(&mut self, at: u8, address: Address) -> Result<(), Failed> {
        self.inner.bind(at, address)
    }

    fn send(&mut self, from: u8, to: Address, bytes: &[u8]) -> Result<(), Failed> {
        self.inner.send(from, to, bytes)
    }

    fn receive(&mut self, at: u8, into: &mut [u8]) -> Result<Received, Failed> {
        self.receives = self.receives.saturating_add(1);
        if self.first <= self.receives && self.receives <= self.last {
            return Ok(Received::Nothing);
        }
        self.inner.receive(at, into)
    }

    fn waits(&self, at: u8) -> bool {
        self.inner.waits(at)
    }

    fn set_wait(&mut self, _milliseconds: u16) {}
}
