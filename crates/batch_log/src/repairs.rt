// The repair of a file's end: its gate is closed, and nothing stands after it.
ghost use Rattle.std.specs.Prelude.{◌≡◌, ◌≢◌, ◌<◌, ◌+◌, ◌^◌, ◌++◌, [], ◌∷◌, take, drop, IsTrue};
ghost use Rattle.std.specs.Prelude.{OnOk};
ghost use Rattle.kom_disk.specs.Disk.{Only};
ghost use Rattle.kom_disk.specs.Faults.{CountsFault};
ghost use Rattle.kom_disk.specs.Moments.{LeavesOnly};
ghost use Rattle.batch_log.specs.Gates.{IsStable, IsShut};
ghost use Rattle.batch_log.specs.Repair.{HasGate, Mends};

use crate::gates::{cut_after, set_gate};
use kom_disk::{Disk, Failed};

/// Closes the gate at this place of a file of this length, where it is another, and cuts off what
/// stands after it. A stop at any moment leaves a closed gate; or, where the gate was not closed,
/// some gate and all that stood after it.
pub fn repair<D: Disk>(disk: &mut D, place: u64, gate: u8, len: u64) -> Result<(), Failed>
    requires within { (place < len) × (len ≡ D.size disk.old) }
    requires gate { IsTrue D.tells → HasGate (take place (D.bytes disk.old)) gate
        (drop (place + 1) (D.bytes disk.old)) (D.bytes disk.old) }
    requires stable { IsTrue D.tells → Only (D.bytes disk.old) (D.images disk.old) }
    ensures repaired { IsTrue D.tells → OnOk result
        (IsStable (take place (D.bytes disk.old) ++ 0 ∷ []) (D.bytes disk.new)
        (D.images disk.new)) }
    ensures any_moment { IsTrue D.tells → LeavesOnly D.moment D.images_at disk.old disk.new
        (Mends (take place (D.bytes disk.old)) gate (drop (place + 1) (D.bytes disk.old))) }
    ensures within { place < D.size disk.new }
    ensures faults { CountsFault (D.faults disk.old) (D.faults disk.new) result }
{
    close_gate(disk, place, gate)?;
    cut_rest(disk, place, len)
}

// Closes the gate, where it is another.
fn close_gate<D: Disk>(disk: &mut D, place: u64, gate: u8) -> Result<(), Failed>
    requires within { place < D.size disk.old }
    requires gate { IsTrue D.tells → HasGate (take place (D.bytes disk.old)) gate
        (drop (place + 1) (D.bytes disk.old)) (D.bytes disk.old) }
    requires stable { IsTrue D.tells → Only (D.bytes disk.old) (D.images disk.old) }
    ensures closed { IsTrue D.tells → OnOk result
        (IsStable (take place (D.bytes disk.old) ++ 0 ∷ drop (place + 1) (D.bytes disk.old))
        (D.bytes disk.new) (D.images disk.new)) }
    ensures any_moment { IsTrue D.tells → LeavesOnly D.moment D.images_at disk.old disk.new
        (Mends (take place (D.bytes disk.old)) gate (drop (place + 1) (D.bytes disk.old))) }
    ensures size { OnOk result (D.size disk.new ≡ D.size disk.old) }
    ensures within { place < D.size disk.new }
    ensures faults { CountsFault (D.faults disk.old) (D.faults disk.new) result }
{
    if gate == 0 {
        return Ok(());
    }
    set_gate(disk, place, 0)
}

// Cuts off what stands after the closed gate, where anything does.
fn cut_rest<D: Disk>(disk: &mut D, place: u64, len: u64) -> Result<(), Failed>
    requires within { (place < len) × (len ≡ D.size disk.old) }
    requires closed { IsTrue D.tells → HasGate (take place (D.bytes disk.old)) 0
        (drop (place + 1) (D.bytes disk.old)) (D.bytes disk.old) }
    requires stable { IsTrue D.tells → Only (D.bytes disk.old) (D.images disk.old) }
    ensures cut { IsTrue D.tells → OnOk result
        (IsStable (take place (D.bytes disk.old) ++ 0 ∷ []) (D.bytes disk.new)
        (D.images disk.new)) }
    ensures any_moment { IsTrue D.tells → LeavesOnly D.moment D.images_at disk.old disk.new
        (IsShut (take place (D.bytes disk.old))) }
    ensures within { place < D.size disk.new }
    ensures faults { CountsFault (D.faults disk.old) (D.faults disk.new) result }
{
    let left = len - place;
    if left == 1 {
        return Ok(());
    }
    cut_after(disk, place)
}
