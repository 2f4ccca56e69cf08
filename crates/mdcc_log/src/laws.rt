//! What opening reads and keeps of what a crash leaves.
ghost use Rattle.mdcc_disks.specs.Contents.{tears_of};
ghost use Rattle.mdcc_log.specs.Crash.{CurrentIsRead, BetweenIsRead};
ghost use Rattle.mdcc_log.specs.Examples.{ExamplesAreRead};
ghost use Rattle.mdcc_log.specs.Room.{RoomyGrows};
ghost use Rattle.mdcc_log.specs.Kept.{CurrentStays, BetweenStays, IdleStays, OtherIsSpare, CheckpointIsRead, DueIsRead};
ghost use Rattle.mdcc_log.specs.Tails.{CopyIsRead, LogIsRead};

/// The payloads of the area in use are read, whatever a crash left of the other.
pub fn current_is_read()
    ensures { CurrentIsRead }
{}

/// Of what a crash of an append leaves, the payloads from before it are read, or those and the new one.
pub fn between_is_read()
    ensures { BetweenIsRead }
{}

/// The same where a checkpoint follows the append, with each area as a crash at a moment of its own left it.
pub fn due_is_read()
    ensures { DueIsRead }
{}

/// After a crash at any moment of a checkpoint all payloads are read.
pub fn checkpoint_is_read()
    ensures { CheckpointIsRead }
{}

/// A crash of an opening leaves the area in use with the same payloads.
pub fn current_stays()
    ensures { CurrentStays }
{}

/// It leaves what a crash of an append left as such.
pub fn between_stays()
    ensures { BetweenStays }
{}

/// It leaves the area that is not in use so.
pub fn idle_stays()
    ensures { IdleStays }
{}

/// The area that is not taken is of a smaller generation, or no whole one.
pub fn other_is_spare()
    ensures { OtherIsSpare }
{}

/// Areas that were computed byte by byte.
pub fn examples_are_read()
    ensures { ExamplesAreRead }
{}

/// A log that takes no more than one of version 1, with generations left, stays so with each payload.
pub fn roomy_grows()
    ensures { RoomyGrows }
{}

/// The log of the area in use is read, where the other area is not taken next to it.
pub fn log_is_read()
    ensures { LogIsRead }
{}

/// A whole copy of it in the other area is read in its place: with the same payloads, and no tail.
pub fn copy_is_read()
    ensures { CopyIsRead }
{}

/// A disk in memory tears no byte to 1. So there an opening that crashes leaves the same payloads.
pub fn no_gate_is_torn_open()
    ensures { tears_of 1 → ⊥ }
{}
