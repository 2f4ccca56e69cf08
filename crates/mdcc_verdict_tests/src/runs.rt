//! The program with one word, over objects in memory.
ghost use Rattle.std.specs.Prelude.{◌≡◌, IfOk};

use mdcc_base::{Memory, MemorySink, MemorySource};
use mdcc_command::run;
use mdcc_disks::MemoryDisks;
use mdcc_link::MemoryLink;
use std::alloc::Global;
use std::test::Fail;

/// What the program wrote and answered.
#[derive(Drop)]
pub(crate) struct Ran {
    pub(crate) status: u8,
    pub(crate) out: MemorySink,
    pub(crate) err: MemorySink,
}

/// Empty disks of nine centres.
pub(crate) fn new_disks(alloc: Global) -> Result<MemoryDisks, Memory>
    ensures { IfOk result (λ disks. disks.count ≡ 25) }
{
    MemoryDisks::new(alloc, 25, &[])
}

// Runs the program with these words, where the writes of these numbers fail.
fn run_by(
    alloc: Global,
    words: &[String],
    input: &[u8],
    script: &[u32],
    disks: &mut MemoryDisks,
) -> Result<Ran, Fail>
    requires { disks.old.count ≡ 25 }
{
    let mut source = MemorySource::new(alloc, input, &[])?;
    let mut out = MemorySink::new(alloc, script)?;
    let mut err = MemorySink::new(alloc, &[])?;
    let mut link = MemoryLink::new(alloc, &[])?;
    let status = run(
        alloc,
        words,
        &mut source,
        &mut out,
        &mut err,
        disks,
        &mut link,
    );
    Ok(Ran { status, out, err })
}

/// Runs the program with one word, over these disks.
pub(crate) fn run_word(
    alloc: Global,
    word: &str,
    input: &[u8],
    script: &[u32],
    disks: &mut MemoryDisks,
) -> Result<Ran, Fail>
    requires { disks.old.count ≡ 25 }
{
    let mut words = Vec::new(alloc);
    words.push(String::from_str(alloc, word)?)?;
    run_by(alloc, words.as_slice(), input, script, disks)
}

/// Whether it wrote and answered this.
pub(crate) fn is_run(ran: &Ran, out: &str, err: &str, status: u8) -> bool {
    ran.status == status && ran.out.bytes() == out.as_bytes() && ran.err.bytes() == err.as_bytes()
}
