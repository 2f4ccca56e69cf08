//! The top call over disks and a link in memory.
ghost use Rattle.std.specs.Prelude.{◌≡◌, IfOk};

use mdcc_base::{Memory, MemorySink, MemorySource};
use mdcc_command::run;
use mdcc_disks::MemoryDisks;
use mdcc_link::{Link, MemoryLink};
use std::alloc::Global;

/// Empty disks of nine centres, of which the calls of these numbers fail.
pub fn new_disks(alloc: Global, script: &[u32]) -> Result<MemoryDisks, Memory>
    ensures { IfOk result (λ disks. disks.count ≡ 25) }
{
    MemoryDisks::new(alloc, 25, script)
}

/// The status that the program ends with over such disks.
pub fn run_over<L: Link>(
    alloc: Global,
    words: &[String],
    source: &mut MemorySource,
    out: &mut MemorySink,
    err: &mut MemorySink,
    disks: &mut MemoryDisks,
    link: &mut L,
) -> u8
    requires { disks.old.count ≡ 25 }
{
    run(alloc, words, source, out, err, disks, link)
}

/// The status that the program ends with where it uses neither disks nor a link, as in a replay.
pub fn run_with_words(
    alloc: Global,
    words: &[String],
    source: &mut MemorySource,
    out: &mut MemorySink,
    err: &mut MemorySink,
) -> Result<u8, Memory> {
    let mut disks = new_disks(alloc, &[])?;
    let mut link = MemoryLink::new(alloc, &[])?;
    Ok(run_over(alloc, words, source, out, err, &mut disks, &mut link))
}
