//! Changes of a file that are durable before they are answered.
ghost use Rattle.std.specs.Prelude.{◌≡◌, ◌≤◌, ◌∷◌, [], length, take, IsTrue, OnOk};
ghost use Rattle.mdcc_base.specs.Causes.{HasCause};
ghost use Rattle.mdcc_disks.specs.Disks.{IsOverwritten, IsTorn, IsCut, Only, KeepsOthers, LeavesOnly};
ghost use Rattle.mdcc_disks.specs.Disks.DiskCall.{Write, Cut, Sync};
ghost use Rattle.mdcc_log_file.specs.Log.{log_bytes};
ghost use Rattle.mdcc_log_file.specs.Calls.{MadeSome, with_calls, begin_calls};

use mdcc_base::Failed;
use mdcc_disks::Disks;

const FRESH: [u8; 9] = [77, 68, 67, 67, 76, 79, 71, 49, 0];

/// Writes the bytes and makes them durable, over a file that is durable.
pub fn write_through<D: Disks>(
    disks: &mut D,
    place: u8,
    offset: u64,
    bytes: &[u8],
) -> Result<(), Failed>
    requires within { IsTrue (D.disk disks.old place).told → offset ≤ length (D.disk disks.old place).bytes }
    requires durable { IsTrue (D.disk disks.old place).told
        → Only (D.disk disks.old place).bytes (D.may_leave disks.old place) }
    ensures written { IsTrue (D.disk disks.old place).told
        → OnOk result (IsOverwritten (D.disk disks.old place).bytes offset bytes.now (D.disk disks.new place).bytes) }
    ensures durable { IsTrue (D.disk disks.old place).told
        → OnOk result (Only (D.disk disks.new place).bytes (D.may_leave disks.new place)) }
    ensures any_moment { IsTrue (D.disk disks.old place).told
        → LeavesOnly D.moment D.left_since disks.old disks.new place
        (IsTorn D.tears offset bytes.now (D.disk disks.old place).bytes) }
    ensures others { KeepsOthers D.disk D.may_leave D.moment D.left_since disks.old disks.new place }
    ensures cause { HasCause (D.disk disks.old place).faults (D.disk disks.new place).faults result }
    ensures calls { MadeSome (Write offset bytes.now ∷ Sync ∷ [])
        (D.disk disks.old place).calls (D.disk disks.new place).calls }
    ensures all_calls { OnOk result ((D.disk disks.new place).calls
        ≡ with_calls (Write offset bytes.now ∷ Sync ∷ []) (D.disk disks.old place).calls) }
{
    disks.write_at(place, offset, bytes)?;
    disks.sync(place)
}

/// Cuts the file and makes that durable, over a file that is durable.
pub fn cut_through<D: Disks>(disks: &mut D, place: u8, size: u64) -> Result<(), Failed>
    requires within { IsTrue (D.disk disks.old place).told → size ≤ length (D.disk disks.old place).bytes }
    requires durable { IsTrue (D.disk disks.old place).told
        → Only (D.disk disks.old place).bytes (D.may_leave disks.old place) }
    ensures cut { IsTrue (D.disk disks.old place).told
        → OnOk result ((D.disk disks.new place).bytes ≡ take size (D.disk disks.old place).bytes) }
    ensures durable { IsTrue (D.disk disks.old place).told
        → OnOk result (Only (D.disk disks.new place).bytes (D.may_leave disks.new place)) }
    ensures any_moment { IsTrue (D.disk disks.old place).told
        → LeavesOnly D.moment D.left_since disks.old disks.new place
        (IsCut size (D.disk disks.old place).bytes) }
    ensures others { KeepsOthers D.disk D.may_leave D.moment D.left_since disks.old disks.new place }
    ensures cause { HasCause (D.disk disks.old place).faults (D.disk disks.new place).faults result }
    ensures calls { MadeSome (Cut size ∷ Sync ∷ [])
        (D.disk disks.old place).calls (D.disk disks.new place).calls }
    ensures all_calls { OnOk result ((D.disk disks.new place).calls
        ≡ with_calls (Cut size ∷ Sync ∷ []) (D.disk disks.old place).calls) }
{
    disks.cut(place, size)?;
    disks.sync(place)
}

/// Begins a log in a file of at most nine bytes.
pub fn begin<D: Disks>(disks: &mut D, place: u8) -> Result<(), Failed>
    requires fresh { IsTrue (D.disk disks.old place).told → length (D.disk disks.old place).bytes ≤ 9 }
    requires durable { IsTrue (D.disk disks.old place).told
        → Only (D.disk disks.old place).bytes (D.may_leave disks.old place) }
    ensures begun { IsTrue (D.disk disks.old place).told
        → OnOk result ((D.disk disks.new place).bytes ≡ log_bytes []) }
    ensures durable { IsTrue (D.disk disks.old place).told
        → OnOk result (Only (D.disk disks.new place).bytes (D.may_leave disks.new place)) }
    ensures any_moment { IsTrue (D.disk disks.old place).told
        → LeavesOnly D.moment D.left_since disks.old disks.new place (λ c. length c ≤ 9) }
    ensures others { KeepsOthers D.disk D.may_leave D.moment D.left_since disks.old disks.new place }
    ensures cause { HasCause (D.disk disks.old place).faults (D.disk disks.new place).faults result }
    ensures calls { MadeSome begin_calls (D.disk disks.old place).calls (D.disk disks.new place).calls }
    ensures all_calls { OnOk result ((D.disk disks.new place).calls ≡ with_calls begin_calls (D.disk disks.old place).calls) }
{
    disks.cut(place, 0)?;
    disks.write_at(place, 0, &FRESH)?;
    disks.sync(place)
}
