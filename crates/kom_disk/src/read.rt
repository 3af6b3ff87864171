// Reads that stop at the end of a disk.
ghost use Rattle.std.specs.Prelude.{◌≡◌, ◌-◌, ◌++◌, length, take, drop, min, IsTrue, IfOk, OnErr};
ghost use Rattle.kom_disk.specs.Disk.{AddsNone, Passes, told_read};
ghost use Rattle.kom_disk.specs.Faults.{CountsFault};

use crate::{Disk, Failed};

/// Fills the first part of `into` with what is there from `at` on, and tells how many bytes those
/// are. After an error `into` may hold anything.
pub fn read_up_to<D: Disk>(disk: &mut D, at: u64, into: &mut [u8]) -> Result<usize, Failed>
    ensures count { IfOk result (λ n. n ≡ min (length into.old) (D.size disk.new - at)) }
    ensures given { IsTrue D.tells
        → IfOk result (λ n. into.new ≡ take n (drop at (D.bytes disk.old)) ++ drop n into.old) }
    ensures bytes { IsTrue D.tells → D.bytes disk.new ≡ D.bytes disk.old }
    ensures stop { IsTrue D.tells → AddsNone (D.images disk.old) (D.images disk.new) }
    ensures time { Passes D.tells (D.moment disk.old) (D.moment disk.new) (D.images_at disk.old)
        (D.images_at disk.new) }
    ensures told { IsTrue D.tells_reads
        → IfOk result (λ n. D.reads disk.new ≡ D.reads disk.old ++ told_read at (take n into.new)) }
    ensures untold { IsTrue D.tells_reads → OnErr result (D.reads disk.new ≡ D.reads disk.old) }
    ensures faults { CountsFault (D.faults disk.old) (D.faults disk.new) result }
{
    let there = disk.len()?.saturating_sub(at);
    let count = into.len().min(there as usize);
    if count == 0 {
        return Ok(0);
    }
    disk.read(at, &mut into[..count])?;
    Ok(count)
}
