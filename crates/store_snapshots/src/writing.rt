// The snapshot of the rows, written.
ghost use Rattle.std.specs.Prelude.{◌≡◌, ◌≢◌, ◌<◌, ◌+◌, ◌^◌, [], ℕ, None, IsTrue, OnOk, IfOk};
ghost use Rattle.std.specs.Prelude.{IfErr, MatchResult};
ghost use Rattle.kom_disk.specs.Disk.{Only};
ghost use Rattle.kom_disk.specs.Faults.{Rose};
ghost use Rattle.kom_disk.specs.Moments.{LeavesOnly};
ghost use Rattle.batch_log.specs.Gates.{IsStable};
ghost use Rattle.kom_model.specs.Whole.{IsWhole};
ghost use Rattle.kom_snapshot.specs.Listed.{IsListed};
ghost use Rattle.kom_snapshot.specs.Snap.{snap};
ghost use Rattle.kom_snapshot.specs.Snapshot.{parts_of};
ghost use Rattle.store_files.specs.Choices.{IsBeside};
ghost use Rattle.store_files.specs.Writing.{HasSnapshot, StaysBeside, new_file};
ghost use Rattle.store_files.specs.declared.choices.Choice.{Choice};
ghost use Rattle.store_snapshots.specs.Coders.{FileComes, FileGoesOn, HasParts};
ghost use Rattle.store_snapshots.specs.Snapshots.{AreCoded, IsBesideOrNew, snapshot_bytes};

use crate::coder::{Coder, put_block};
use crate::errors::Unwritten;
use kom_disk::Disk;
use kom_state::StoredRows;
use kom_telling::tell;
use std::alloc::Global;
use store_files::SnapshotFile;

/// Writes the snapshot of the rows into a file of this length that is not chosen, as one of this
/// generation, and tells the place of the closed gate after it. Unless the disk failed, a file that
/// is given up may still stand beside what is chosen. Memory is taken for the keys of the rows, and
/// for a block.
pub fn write_snapshot<D: Disk>(
    alloc: Global,
    rows: &StoredRows,
    disk: D,
    len: u64,
    generation: u64,
) -> Result<(D, u64), (D, Unwritten)>
    requires len { len ≡ D.size disk }
    requires stable { IsTrue D.tells → Only (D.bytes disk) (D.images disk) }
    requires whole { IsWhole rows.now.db }
    requires listed { IsListed rows.now.db }
    ensures new { IsTrue D.tells → IfOk result (λ new. IsStable
        (new_file generation (snapshot_bytes rows.now.db)) (D.bytes new.0) (D.images new.0)) }
    ensures coded { OnOk result (AreCoded rows.now.db) }
    ensures place { IfOk result (λ new. D.size new.0 ≡ new.1 + 1) }
    ensures any_moment { IsTrue D.tells → (choice : Choice) → IsBeside choice (D.bytes disk)
        → MatchResult result
        (λ new. LeavesOnly D.moment D.images_at disk new.0
        (IsBesideOrNew choice generation rows.now.db))
        (λ refused. LeavesOnly D.moment D.images_at disk refused.0
        (IsBesideOrNew choice generation rows.now.db)) }
    ensures given_up { IsTrue D.tells → (choice : Choice) → IsBeside choice (D.bytes disk)
        → IfErr result (λ refused. refused.1 ≢ Unwritten.Fault
        → LeavesOnly D.moment D.images_at disk refused.0 (StaysBeside choice)) }
    ensures full { (n : ℕ) → IfErr result (λ refused. refused.1 ≡ Unwritten.Full n → 2 ^ 40 < n) }
    ensures fault { IfErr result (λ refused. refused.1 ≡ Unwritten.Fault
        → Rose (D.faults disk) (D.faults refused.0)) }
    ensures no_fault { IfOk result (λ new. D.faults new.0 ≡ D.faults disk) }
    ensures calm { IfErr result (λ refused. refused.1 ≢ Unwritten.Fault
        → D.faults refused.0 ≡ D.faults disk) }
{
    let file = match SnapshotFile::begin(disk, len, generation) {
        Ok(file) => file,
        Err((disk, _)) => return Err((disk, Unwritten::Fault)),
    };
    match tell_into(alloc, rows, file) {
        Ok(file) => match file.finish() {
            Ok(new) => Ok(new),
            Err((disk, _)) => Err((disk, Unwritten::Fault)),
        },
        Err((file, why)) => Err((file.into_disk(), why)),
    }
}

// Puts all parts of the snapshot into a file that has none.
fn tell_into<D: Disk>(
    alloc: Global,
    rows: &StoredRows,
    file: SnapshotFile<D>,
) -> Result<SnapshotFile<D>, (SnapshotFile<D>, Unwritten)>
    requires whole { IsWhole rows.now.db }
    requires listed { IsListed rows.now.db }
    requires empty { HasSnapshot D.tells D.bytes D.size [] file }
    ensures told { IfOk result (HasSnapshot D.tells D.bytes D.size (snapshot_bytes rows.now.db)) }
    ensures coded { OnOk result (AreCoded rows.now.db) }
    ensures goes_on { MatchResult result
        (λ new. FileGoesOn D.tells D.moment D.images_at D.faults file new)
        (λ refused. FileGoesOn D.tells D.moment D.images_at D.faults file refused.0) }
    ensures no_fault { IfOk result (λ new. D.faults new.disk ≡ D.faults file.disk) }
    ensures calm { IfErr result (λ refused. refused.1 ≢ Unwritten.Fault
        → D.faults refused.0.disk ≡ D.faults file.disk) }
    ensures fault { IfErr result (λ refused. refused.1 ≡ Unwritten.Fault
        → Rose (D.faults file.disk) (D.faults refused.0.disk)) }
    ensures full { (n : ℕ) → IfErr result (λ refused. refused.1 ≡ Unwritten.Full n → 2 ^ 40 < n) }
{
    let mut coder = Coder::new(alloc, file);
    let told = tell_whole(alloc, rows, &mut coder);
    let file = coder.into_file();
    match told {
        Ok(()) => Ok(file),
        Err(why) => Err((file, why)),
    }
}

// Puts all parts, and what waits then.
fn tell_whole<D: Disk>(
    alloc: Global,
    rows: &StoredRows,
    coder: &mut Coder<D>,
) -> Result<(), Unwritten>
    requires whole { IsWhole rows.now.db }
    requires listed { IsListed rows.now.db }
    requires empty { HasSnapshot D.tells D.bytes D.size [] coder.old.file }
    requires waits { coder.old.block.items ≡ [] }
    requires unrefused { coder.old.refused ≡ None }
    ensures told { OnOk result
        (HasSnapshot D.tells D.bytes D.size (snapshot_bytes rows.now.db) coder.new.file) }
    ensures coded { OnOk result (AreCoded rows.now.db) }
    ensures comes { FileComes D.tells D.moment D.images_at D.faults coder.old.file
        coder.new.file result }
{
    tell_parts(alloc, rows, coder)?;
    put_block(&mut coder.file, &mut coder.block)
}

// Puts all parts.
fn tell_parts<D: Disk>(
    alloc: Global,
    rows: &StoredRows,
    coder: &mut Coder<D>,
) -> Result<(), Unwritten>
    requires whole { IsWhole rows.now.db }
    requires listed { IsListed rows.now.db }
    requires empty { HasSnapshot D.tells D.bytes D.size [] coder.old.file }
    requires waits { coder.old.block.items ≡ [] }
    requires unrefused { coder.old.refused ≡ None }
    ensures told { OnOk result (HasParts D.tells D.bytes D.size (parts_of (snap rows.now.db))
        coder.new.file coder.new.block.items) }
    ensures comes { FileComes D.tells D.moment D.images_at D.faults coder.old.file
        coder.new.file result }
{
    match tell(alloc, rows, coder) {
        Ok(()) => Ok(()),
        Err(_) => match coder.refused {
            Some(why) => Err(why),
            None => Err(Unwritten::Memory),
        },
    }
}
