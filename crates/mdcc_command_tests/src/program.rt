//! The program with words, an input, disks and a link in memory, of which some calls may fail.
ghost use Rattle.std.specs.Prelude.{◌≡◌, IfOk};

use crate::runs::{new_disks, run_over};
use mdcc_base::{Memory, MemorySink, MemorySource};
use mdcc_disks::{Disks, MemoryDisks};
use mdcc_link::{Link, MemoryLink};
use std::alloc::Global;
use std::test::Fail;

/// One centre.
pub(crate) const ONE: &str =
    r#"{"centres":1,"classic":1,"fast":1,"gamma":100,"bounds":[[0,1000]],"hosts":["127.0.0.1"],"port":9000}"#;

/// The same with cells for a hundred short facts, which is faster.
pub(crate) const SMALL: &str =
    r#"{"centres":1,"classic":1,"fast":1,"gamma":100,"bounds":[[0,1000]],"hosts":["127.0.0.1"],"port":9000,"cells":100}"#;

/// The calls that fail, by their numbers from 1.
#[derive(Clone, Copy)]
pub(crate) struct Scripts<'a> {
    pub reads: &'a [u32],
    pub writes: &'a [u32],
    pub disks: &'a [u32],
    pub link: &'a [u32],
}

/// No call fails.
pub(crate) const NO_FAULTS: Scripts<'static> = Scripts {
    reads: &[],
    writes: &[],
    disks: &[],
    link: &[],
};

/// What a run wrote and answered, and whether the disks of all centres but the first have no bytes then.
#[derive(Drop)]
pub(crate) struct Ran {
    pub status: u8,
    pub out: MemorySink,
    pub err: MemorySink,
    pub others_empty: bool,
}

impl Ran {
    /// Whether it ended with this status and this line.
    fn ends(&self, err: &str, status: u8) -> bool {
        self.status == status && self.err.bytes() == err.as_bytes()
    }

    /// Whether it wrote and answered this.
    pub(crate) fn is(&self, out: &str, err: &str, status: u8) -> bool {
        self.ends(err, status) && self.out.bytes() == out.as_bytes()
    }

    /// Whether it wrote a prefix of these lines, and answered this.
    pub(crate) fn is_prefix(&self, lines: &str, err: &str, status: u8) -> bool {
        self.ends(err, status) && lines.as_bytes().starts_with(self.out.bytes())
    }
}

/// Disks of which those of centre 1 have these bytes.
pub(crate) fn disks_of(alloc: Global, log: &[u8], other: &[u8]) -> Result<MemoryDisks, Fail>
    ensures { IfOk result (λ disks. disks.count ≡ 25) }
{
    let mut disks = new_disks(alloc, &[])?;
    disks.write_at(1, 0, log).ok().ok_or("a write")?;
    disks.write_at(17, 0, other).ok().ok_or("a write")?;
    Ok(disks)
}

// Whether the disks of all centres but the first have no bytes.
fn are_others_empty(disks: &MemoryDisks) -> bool {
    for place in 1..26u8 {
        if place != 1 && place != 17 && !disks.bytes(place).is_empty() {
            return false;
        }
    }
    true
}

// The words, each in memory of its own.
fn words_of(alloc: Global, words: &[&str]) -> Result<Vec<String>, Memory> {
    let mut all = Vec::new(alloc);
    for word in words {
        all.push(String::from_str(alloc, word)?)?;
    }
    Ok(all)
}

/// Runs the program with these words and this input.
pub(crate) fn run_on<L: Link>(
    alloc: Global,
    words: &[&str],
    input: &str,
    scripts: &Scripts,
    disks: &mut MemoryDisks,
    link: &mut L,
) -> Result<Ran, Fail>
    requires { disks.old.count ≡ 25 }
{
    let words = words_of(alloc, words)?;
    let mut source = MemorySource::new(alloc, input.as_bytes(), scripts.reads)?;
    let mut out = MemorySink::new(alloc, scripts.writes)?;
    let mut err = MemorySink::new(alloc, &[])?;
    let status = run_over(alloc, &words, &mut source, &mut out, &mut err, disks, link);
    let others_empty = are_others_empty(disks);
    Ok(Ran {
        status,
        out,
        err,
        others_empty,
    })
}

/// Runs the program over empty disks and a link where one datagram may wait for the client of centre 1.
pub(crate) fn run_new(
    alloc: Global,
    words: &[&str],
    input: &str,
    scripts: &Scripts,
    waiting: Option<&[u8]>,
) -> Result<Ran, Fail> {
    let mut disks = new_disks(alloc, scripts.disks)?;
    let mut link = MemoryLink::new(alloc, scripts.link)?;
    if let Some(datagram) = waiting {
        link.put(17, datagram)?;
    }
    run_on(alloc, words, input, scripts, &mut disks, &mut link)
}

/// Runs the program so over disks of which those of centre 1 have these bytes.
pub(crate) fn run_on_log(
    alloc: Global,
    words: &[&str],
    input: &str,
    log: &[u8],
    other: &[u8],
) -> Result<Ran, Fail> {
    let mut disks = disks_of(alloc, log, other)?;
    let mut link = MemoryLink::new(alloc, &[])?;
    run_on(alloc, words, input, &NO_FAULTS, &mut disks, &mut link)
}
