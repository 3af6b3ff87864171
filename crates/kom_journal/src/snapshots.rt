// The snapshot of a file, and one in memory, read.
ghost use Rattle.std.specs.Prelude.{◌≡◌, ◌<◌, ◌∷◌, ℕ, List, drop, IsTrue, IfOk, IfErr, Err};
ghost use Rattle.kom_disk.specs.Faults.{Rose};
ghost use Rattle.kom_disk.specs.Moments.{LeavesOnly};
ghost use Rattle.batch_log.specs.Walk.{Stays};
ghost use Rattle.kom_model.specs.Whole.{IsWhole};
ghost use Rattle.kom_snapshot.specs.Listed.{IsListed};
ghost use Rattle.kom_journal.specs.Snapshots.{HasSnapshotAt, IsNoSnapshot, IsNoSnapshotCause};
ghost use Rattle.kom_journal.specs.Snapshots.{IsSnapshotOf};

use crate::bodies::{make_body, new_buffer};
use crate::errors::{NotSnapshot, OpenFault};
use crate::making::{Stop, make_parts};
use crate::restoring::SnapshotMaker;
use crate::rows::MadeRows;
use batch_log::{Found, look};
use kom_disk::Disk;
use kom_state::StoredRows;
use std::alloc::Global;

// The place of the gate before a snapshot, and of the snapshot, after that and its length.
const GATE: u64 = 24;

const SNAPSHOT: u64 = 33;

/// Makes the rows of the snapshot of a file of this length, and tells the place after it.
pub(crate) fn make_snapshot<D: Disk>(
    alloc: Global,
    disk: &mut D,
    len: u64,
) -> Result<(MadeRows, u64), OpenFault>
    requires long { (25 < len) × (len ≡ D.size disk.old) }
    requires open { IsTrue D.tells → (rest : List ℕ) × (drop 24 (D.bytes disk.old) ≡ 1 ∷ rest) }
    ensures made { IsTrue D.tells
        → IfOk result (λ made. HasSnapshotAt made.1 made.0.db (D.bytes disk.old)) }
    ensures within { IfOk result (λ made. made.1 < len) }
    ensures none { IsTrue D.tells → IfErr result (IsNoSnapshotCause (D.bytes disk.old)) }
    ensures size { D.size disk.new ≡ D.size disk.old }
    ensures bytes { IsTrue D.tells → D.bytes disk.new ≡ D.bytes disk.old }
    ensures stop { IsTrue D.tells → LeavesOnly D.moment D.images_at disk.old disk.new
        (Stays (D.images disk.old)) }
    ensures fault { result ≡ Err OpenFault.Fault → Rose (D.faults disk.old) (D.faults disk.new) }
    ensures no_fault { IfOk result (λ made. D.faults disk.new ≡ D.faults disk.old) }
{
    let mut buffer = new_buffer(alloc)?;
    let found = match look(disk, GATE, len) {
        Ok(found) => found,
        Err(_) => return Err(OpenFault::Fault),
    };
    let size = match found {
        Found::Batch(size) => size,
        Found::End(_) => return Err(OpenFault::Damaged(GATE)),
        Found::Broken => return Err(OpenFault::Damaged(GATE)),
    };
    let end = SNAPSHOT + size;
    let mut maker = SnapshotMaker::new(alloc);
    match make_body(alloc, disk, &mut maker, &mut buffer, SNAPSHOT, end) {
        Ok(()) => Ok((maker.rows, end)),
        Err(Stop::Fault) => Err(OpenFault::Fault),
        Err(Stop::Unfit) => Err(OpenFault::Damaged(GATE)),
        Err(Stop::Memory) => Err(OpenFault::Memory),
    }
}

/// The rows that these bytes are a snapshot of.
pub fn read_snapshot(alloc: Global, bytes: &[u8]) -> Result<StoredRows, NotSnapshot>
    ensures rows { IfOk result (λ rows. IsSnapshotOf rows.db bytes.now) }
    ensures whole { IfOk result (λ rows. IsWhole rows.db) }
    ensures listed { IfOk result (λ rows. IsListed rows.db) }
    ensures wrong { result ≡ Err NotSnapshot.Wrong → IsNoSnapshot bytes.now }
{
    let mut maker = SnapshotMaker::new(alloc);
    match make_parts(alloc, &mut maker, bytes) {
        Ok(used) if used < bytes.len() => Err(NotSnapshot::Wrong),
        Ok(_) => Ok(maker.rows.into_stored()),
        Err(Stop::Unfit) => Err(NotSnapshot::Wrong),
        Err(Stop::Memory | Stop::Fault) => Err(NotSnapshot::Memory),
    }
}
