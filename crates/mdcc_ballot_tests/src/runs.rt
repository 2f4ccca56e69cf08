//! The program over disks and a link in memory, which no replay uses.
ghost use Rattle.std.specs.Prelude.{◌≡◌, ◌≤◌, ◌+◌, IfSome, ℕ};
ghost use Rattle.mdcc_disks.specs.Memory.{disk_of};

use mdcc_base::{MemorySink, MemorySource};
use mdcc_command::run;
use mdcc_disks::MemoryDisks;
use mdcc_link::MemoryLink;
use std::alloc::Global;

// Disks of nine centres.
fn new_disks(alloc: Global) -> Option<MemoryDisks>
    ensures { IfSome result (λ disks. (a : ℕ) → 1 ≤ a → a ≤ 9 → (disk_of disks (a + 16)).told ≡ (disk_of disks a).told) }
{
    match MemoryDisks::new(alloc, 25, &[]) {
        Ok(disks) => Some(disks),
        Err(_) => None,
    }
}

/// The status that the program ends with.
pub(crate) fn run_with_words(
    alloc: Global,
    words: &[String],
    source: &mut MemorySource,
    out: &mut MemorySink,
    err: &mut MemorySink,
) -> Option<u8> {
    let mut disks = new_disks(alloc)?;
    let mut link = MemoryLink::new(alloc, &[]).ok()?;
    Some(run(alloc, words, source, out, err, &mut disks, &mut link))
}
