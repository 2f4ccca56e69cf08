//! An output that a killed process does not reach any more.
ghost use Rattle.std.specs.Prelude.{◌≡◌, ◌+◌, ◌<◌, length, IfOk};
ghost use Rattle.std.specs.Io.{WritesAtMost};
ghost use Rattle.std.specs.Io.KnownBytes.{WriteAppends};
ghost use Rattle.mdcc_base.specs.Causes.{HasCause};
ghost use Rattle.mdcc_killed_process.specs.Killed.{ReachesNoOutput, held_of_killed};

use mdcc_base::{Failed, Sink};

/// The output of a process that is killed after so many writes to it: of those that would come later none is made, and to the process it
/// is as if each of them failed.
#[derive(Drop)]
pub struct KilledOutput<O> {
    /// The output itself, as the process leaves it.
    pub output: O,
    /// How many writes are made until it is killed.
    pub left: u64,
    /// How many writes were not made. The count stands still at 2^64 - 1.
    pub missed: u64,
}

impl<O: Sink> KilledOutput<O> {
    /// The output of a process that is killed after so many writes.
    pub fn new(output: O, left: u64) -> KilledOutput<O>
        ensures { result ≡ record { output = output; left = left; missed = 0 } }
    {
        KilledOutput {
            output,
            left,
            missed: 0,
        }
    }
}

impl<O: Sink> Sink for KilledOutput<O> {
    ghost held = { held_of_killed O.held };

    ghost faults = { λ killed. O.faults killed.output + killed.missed };

    fn write(&mut self, from: &[u8]) -> Result<usize, Failed>
        ensures bound { WritesAtMost result from.now }
        ensures some { 0 < length from.now → IfOk result (λ n. 0 < n) }
        ensures bytes { WriteAppends (held_of_killed O.held self.old) (held_of_killed O.held self.new) result from.now }
        ensures cause { HasCause (O.faults self.old.output + self.old.missed) (O.faults self.new.output + self.new.missed) result }
        ensures killed { self.old.left ≡ 0 → ReachesNoOutput self.old self.new result }
    {
        if self.left == 0 {
            self.missed = self.missed.saturating_add(1);
            return Err(Failed);
        }
        self.left -= 1;
        self.output.write(from)
    }
}
