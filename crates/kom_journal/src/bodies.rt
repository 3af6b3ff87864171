// A body, read and made a block at a time.
ghost use Rattle.std.specs.Prelude.{◌≡◌, ◌<◌, ◌≤◌, ◌+◌, ◌-◌, ◌⊎◌, [], IsTrue, IfOk, IfErr, OnOk};
ghost use Rattle.std.specs.Prelude.{Ok, Err, vec_len};
ghost use Rattle.kom_disk.specs.Faults.{Rose};
ghost use Rattle.kom_disk.specs.Moments.{LeavesOnly};
ghost use Rattle.batch_log.specs.Walk.{Stays};
ghost use Rattle.kom_journal.specs.Reading.{part, FallsTo};

use crate::errors::OpenFault;
use crate::making::{BodyMaker, Stop, make_parts};
use batch_log::read_block;
use kom_disk::Disk;
use std::alloc::Global;

// How many bytes are read at a time, unless a part has more.
const BLOCK: usize = 1 << 16;

/// A buffer for blocks of a body.
pub(crate) fn new_buffer(alloc: Global) -> Result<Vec<u8>, OpenFault>
    ensures long { IfOk result (λ buffer. 0 < vec_len buffer) }
    ensures memory { IfErr result (λ fault. fault ≡ OpenFault.Memory) }
{
    match vec![in alloc; 0; BLOCK] {
        Ok(buffer) => Ok(buffer),
        Err(_) => Err(OpenFault::Memory),
    }
}

/// Makes the body that stands between two places. The buffer grows where a part is longer.
pub(crate) fn make_body<D: Disk, M: BodyMaker>(
    alloc: Global,
    disk: &mut D,
    maker: &mut M,
    buffer: &mut Vec<u8>,
    from: u64,
    end: u64,
) -> Result<(), Stop>
    requires within { (from ≤ end) × (end ≤ D.size disk.old) }
    requires room { 0 < vec_len buffer.old }
    ensures made { IsTrue D.tells → OnOk result
        (M.makes maker.old maker.new (part from end (D.bytes disk.old)) []) }
    ensures unfit { IsTrue D.tells → result ≡ Err Stop.Unfit
        → M.refuses maker.old (part from end (D.bytes disk.old)) }
    ensures room { 0 < vec_len buffer.new }
    ensures size { D.size disk.new ≡ D.size disk.old }
    ensures bytes { IsTrue D.tells → D.bytes disk.new ≡ D.bytes disk.old }
    ensures stop { IsTrue D.tells → LeavesOnly D.moment D.images_at disk.old disk.new
        (Stays (D.images disk.old)) }
    ensures fault { result ≡ Err Stop.Fault → Rose (D.faults disk.old) (D.faults disk.new) }
    ensures no_fault { OnOk result (D.faults disk.new ≡ D.faults disk.old) }
{
    let mut at = from;
    while at < end {
        let used = make_block(alloc, disk, maker, buffer, at, end)?;
        at += used;
    }
    Ok(())
}

// Makes the parts of the next block, and tells how many bytes are theirs; or makes the buffer
// longer, where it holds no whole part.
fn make_block<D: Disk, M: BodyMaker>(
    alloc: Global,
    disk: &mut D,
    maker: &mut M,
    buffer: &mut Vec<u8>,
    at: u64,
    end: u64,
) -> Result<u64, Stop>
    requires within { (at < end) × (end ≤ D.size disk.old) }
    requires room { 0 < vec_len buffer.old }
    ensures made { IsTrue D.tells → IfOk result (λ used. M.makes maker.old maker.new
        (part at end (D.bytes disk.old)) (part (at + used) end (D.bytes disk.old))) }
    ensures within { IfOk result (λ used. at + used ≤ end) }
    ensures falls { IfOk result (λ used. FallsTo (end - at) (end - vec_len buffer.old)
        (end - (at + used)) (end - vec_len buffer.new)) }
    ensures unfit { IsTrue D.tells → result ≡ Err Stop.Unfit
        → M.refuses maker.old (part at end (D.bytes disk.old)) }
    ensures room { 0 < vec_len buffer.new }
    ensures size { D.size disk.new ≡ D.size disk.old }
    ensures bytes { IsTrue D.tells → D.bytes disk.new ≡ D.bytes disk.old }
    ensures stop { IsTrue D.tells → LeavesOnly D.moment D.images_at disk.old disk.new
        (Stays (D.images disk.old)) }
    ensures fault { result ≡ Err Stop.Fault → Rose (D.faults disk.old) (D.faults disk.new) }
    ensures no_fault { IfOk result (λ used. D.faults disk.new ≡ D.faults disk.old) }
{
    let left = end - at;
    let held = match read_block(disk, at, end, buffer.as_mut_slice()) {
        Ok(held) => held,
        Err(_) => return Err(Stop::Fault),
    };
    let used = make_parts(alloc, maker, &buffer[..held])?;
    if used < held && held as u64 == left {
        return Err(Stop::Unfit);
    }
    if used == 0 {
        grow(buffer, left)?;
    }
    Ok(used as u64)
}

// Makes a buffer longer, up to so many bytes.
fn grow(buffer: &mut Vec<u8>, most: u64) -> Result<(), Stop>
    requires some { 0 < vec_len buffer.old }
    requires shorter { vec_len buffer.old < most }
    ensures longer { OnOk result (vec_len buffer.old < vec_len buffer.new) }
    ensures some { 0 < vec_len buffer.new }
    ensures memory { (result ≡ Ok tt) ⊎ (result ≡ Err Stop.Memory) }
{
    let len = most.min(2 * buffer.len() as u64);
    match buffer.resize(len as usize, 0) {
        Ok(()) => Ok(()),
        Err(_) => Err(Stop::Memory),
    }
}
