// The gate after the last batch: what is written after it while it is closed, and the gate itself.
ghost use Rattle.std.specs.Prelude.{◌≡◌, ◌<◌, ◌≤◌, ◌+◌, ◌^◌, ◌++◌, [], ◌∷◌, take, drop, length};
ghost use Rattle.std.specs.Prelude.{IsTrue, OnOk};
ghost use Rattle.kom_disk.specs.Disk.{Only};
ghost use Rattle.kom_disk.specs.Faults.{CountsFault};
ghost use Rattle.kom_disk.specs.Moments.{LeavesOnly};
ghost use Rattle.batch_log.specs.Gates.{IsAtRest, IsStable, IsShut, IsGated, IsShutOrWhole};

use kom_disk::{Disk, Failed};

/// Writes a chunk after the closed gate at the place, and opens the gate once the chunk is stable.
pub fn write_gated<D: Disk>(disk: &mut D, place: u64, chunk: &[u8]) -> Result<(), Failed>
    requires within { (place < D.size disk.old) × (place < 2 ^ 41) }
    requires at_rest { IsTrue D.tells → IsAtRest place (D.bytes disk.old) (D.images disk.old) }
    ensures opened { IsTrue D.tells → OnOk result
        (IsStable (take place (D.bytes disk.old) ++ 1 ∷ chunk.now) (D.bytes disk.new)
        (D.images disk.new)) }
    ensures any_moment { IsTrue D.tells → LeavesOnly D.moment D.images_at disk.old disk.new
        (IsShutOrWhole (take place (D.bytes disk.old)) chunk.now) }
    ensures size { OnOk result (place + 1 + length chunk.now ≤ D.size disk.new) }
    ensures no_shorter { D.size disk.old ≤ D.size disk.new }
    ensures faults { CountsFault (D.faults disk.old) (D.faults disk.new) result }
{
    write_after(disk, place, chunk)?;
    set_gate(disk, place, 1)
}

// Writes a chunk after the closed gate, and makes it stable.
fn write_after<D: Disk>(disk: &mut D, place: u64, chunk: &[u8]) -> Result<(), Failed>
    requires within { (place < D.size disk.old) × (place < 2 ^ 41) }
    requires at_rest { IsTrue D.tells → IsAtRest place (D.bytes disk.old) (D.images disk.old) }
    ensures written { IsTrue D.tells → OnOk result
        (IsStable (D.bytes disk.old ++ chunk.now) (D.bytes disk.new) (D.images disk.new)) }
    ensures any_moment { IsTrue D.tells → LeavesOnly D.moment D.images_at disk.old disk.new
        (IsShut (take place (D.bytes disk.old))) }
    ensures size { OnOk result (place + 1 + length chunk.now ≤ D.size disk.new) }
    ensures no_shorter { D.size disk.old ≤ D.size disk.new }
    ensures faults { CountsFault (D.faults disk.old) (D.faults disk.new) result }
{
    disk.write_at(place + 1, chunk)?;
    disk.sync()
}

/// Writes the gate at the place, and makes it stable. What stands after it stays.
pub fn set_gate<D: Disk>(disk: &mut D, place: u64, gate: u8) -> Result<(), Failed>
    requires within { place < D.size disk.old }
    requires stable { IsTrue D.tells → Only (D.bytes disk.old) (D.images disk.old) }
    ensures written { IsTrue D.tells → OnOk result
        (IsStable (take place (D.bytes disk.old) ++ gate ∷ drop (place + 1) (D.bytes disk.old))
        (D.bytes disk.new) (D.images disk.new)) }
    ensures any_moment { IsTrue D.tells → LeavesOnly D.moment D.images_at disk.old disk.new
        (IsGated (take place (D.bytes disk.old)) (drop (place + 1) (D.bytes disk.old))) }
    ensures size { OnOk result (D.size disk.new ≡ D.size disk.old) }
    ensures no_shorter { D.size disk.old ≤ D.size disk.new }
    ensures faults { CountsFault (D.faults disk.old) (D.faults disk.new) result }
{
    disk.write_at(place, &[gate])?;
    disk.sync()
}

/// Cuts off what stands after the closed gate at the place, and makes the cut stable.
pub fn cut_after<D: Disk>(disk: &mut D, place: u64) -> Result<(), Failed>
    requires within { (place < D.size disk.old) × (place + 1 < 2 ^ 64) }
    requires stable { IsTrue D.tells → Only (D.bytes disk.old) (D.images disk.old) }
    requires closed { IsTrue D.tells → IsShut (take place (D.bytes disk.old)) 0 (D.bytes disk.old) }
    ensures at_rest { IsTrue D.tells → OnOk result
        (IsStable (take place (D.bytes disk.old) ++ 0 ∷ []) (D.bytes disk.new)
        (D.images disk.new)) }
    ensures any_moment { IsTrue D.tells → LeavesOnly D.moment D.images_at disk.old disk.new
        (IsShut (take place (D.bytes disk.old))) }
    ensures within { place < D.size disk.new }
    ensures faults { CountsFault (D.faults disk.old) (D.faults disk.new) result }
{
    disk.cut(place + 1)?;
    disk.sync()
}
