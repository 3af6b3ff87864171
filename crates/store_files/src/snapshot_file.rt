// A file whose snapshot is given block by block.
ghost use Rattle.std.specs.Prelude.{◌≡◌, ◌<◌, ◌+◌, ◌^◌, ◌↔◌, ◌++◌, ℕ, List, [], length, IsTrue, Ok};
ghost use Rattle.std.specs.Prelude.{Err, IfOk, IfErr, OnOk, MatchResult};
ghost use Rattle.kom_disk.specs.Disk.{Only};
ghost use Rattle.kom_disk.specs.Faults.{CountsFault, Rose};
ghost use Rattle.kom_disk.specs.Moments.{LeavesOnly};
ghost use Rattle.batch_log.specs.Gates.{IsStable};
ghost use Rattle.store_files.specs.Choices.{IsBeside};
ghost use Rattle.store_files.specs.Writing.{AreShut, HasSnapshot, StaysBeside, IsNoStore};
ghost use Rattle.store_files.specs.Writing.{IsNoStoreOrNew, new_file, size_with, unfinished_file};
ghost use Rattle.store_files.specs.declared.choices.Choice.{Choice};

use crate::cuts::cut_to_header;
use crate::writing::{SNAPSHOT, write_behind, write_front, write_rest};
use batch_log::FlushFault;
use kom_disk::{Disk, Failed};
use std::marker::Model;

// The greatest length of a file.
const MAX_SIZE: u64 = 1 << 40;

/// A file into which a snapshot is written. Until it is finished a stop leaves what is not chosen
/// beside any other.
#[derive(Drop)]
pub struct SnapshotFile<D: Disk> {
    disk: D,
    generation: u64,
    /// How long the snapshot is so far.
    len: u64,
}

impl<D: Disk> Model for SnapshotFile<D> {
    ghost use Rattle.store_files.specs.Writing.{SnapshotView, IsKeptShut};

    ghost Value = { SnapshotView D };

    ghost view = { λ file. record {
      disk = file.disk;
      generation = file.generation;
      len = file.len;
    } };

    ghost invariant = { λ file. IsKeptShut D.tells file.generation file.len (D.size file.disk)
        (D.images file.disk) };
}

impl<D: Disk> SnapshotFile<D> {
    /// Begins a file of this generation over one of this length that is not chosen: cuts that to
    /// its header, and writes a head and a closed gate, with a sync after each.
    pub fn begin(mut disk: D, len: u64, generation: u64) -> Result<SnapshotFile<D>, (D, Failed)>
        requires len { len ≡ D.size disk }
        requires stable { IsTrue D.tells → Only (D.bytes disk) (D.images disk) }
        ensures generation { IfOk result (λ file. file.generation ≡ generation) }
        ensures empty { IfOk result (λ file. HasSnapshot D.tells D.bytes D.size [] file) }
        ensures any_moment { IsTrue D.tells → (choice : Choice) → IsBeside choice (D.bytes disk)
            → MatchResult result
            (λ file. LeavesOnly D.moment D.images_at disk file.disk (StaysBeside choice))
            (λ failed. LeavesOnly D.moment D.images_at disk failed.0 (StaysBeside choice)) }
        ensures cause { IfErr result (λ failed. Rose (D.faults disk) (D.faults failed.0)) }
        ensures no_cause { IfOk result (λ file. D.faults file.disk ≡ D.faults disk) }
    {
        match begin_file(&mut disk, len, generation) {
            Ok(()) => Ok(SnapshotFile {
                disk,
                generation,
                len: 0,
            }),
            Err(failed) => Err((disk, failed)),
        }
    }

    /// Writes the next block of the snapshot, which needs no sync. After a fault the file cannot be
    /// finished.
    pub fn push_block(&mut self, block: &[u8]) -> Result<(), FlushFault>
        ensures pushed { (snapshot : List ℕ) → HasSnapshot D.tells D.bytes D.size snapshot self.old
            → OnOk result
            (HasSnapshot D.tells D.bytes D.size (snapshot ++ block.now) self.new) }
        ensures full { (n : ℕ) → (result ≡ Err (FlushFault.Full n))
            ↔ ((2 ^ 40 < n) × (n ≡ size_with self.old block.now)) }
        ensures left { (n : ℕ) → result ≡ Err (FlushFault.Full n) → self.new ≡ self.old }
        ensures any_moment { IsTrue D.tells
            → LeavesOnly D.moment D.images_at self.old.disk self.new.disk IsNoStore }
        ensures generation { self.new.generation ≡ self.old.generation }
        ensures cause { result ≡ Err FlushFault.Fault
            → Rose (D.faults self.old.disk) (D.faults self.new.disk) }
        ensures no_cause { OnOk result (D.faults self.new.disk ≡ D.faults self.old.disk) }
    {
        let end = SNAPSHOT + self.len;
        let size = end + 1 + block.len() as u64;
        if size > MAX_SIZE {
            return Err(FlushFault::Full(size));
        }
        match write_behind(&mut self.disk, end, block) {
            Ok(()) => {
                self.len += block.len() as u64;
                Ok(())
            }
            Err(Failed) => Err(FlushFault::Fault),
        }
    }

    /// Ends the snapshot: writes a closed gate after it and its length before it, syncs, opens the
    /// gate before it, and syncs again. It tells the place of the closed gate.
    pub fn finish(mut self) -> Result<(D, u64), (D, Failed)>
        requires { D.size self.disk ≡ self.len + 33 }
        ensures new { IsTrue D.tells → (snapshot : List ℕ)
            → HasSnapshot D.tells D.bytes D.size snapshot self
            → IfOk result (λ new. IsStable (new_file self.generation snapshot) (D.bytes new.0)
            (D.images new.0)) }
        ensures place { IfOk result (λ new.
            (new.1 ≡ self.len + 33) × (D.size new.0 ≡ new.1 + 1)) }
        ensures any_moment { IsTrue D.tells → (snapshot : List ℕ)
            → HasSnapshot D.tells D.bytes D.size snapshot self → MatchResult result
            (λ new. LeavesOnly D.moment D.images_at self.disk new.0
            (IsNoStoreOrNew self.generation snapshot))
            (λ failed. LeavesOnly D.moment D.images_at self.disk failed.0
            (IsNoStoreOrNew self.generation snapshot)) }
        ensures cause { IfErr result (λ failed. Rose (D.faults self.disk) (D.faults failed.0)) }
        ensures no_cause { IfOk result (λ new. D.faults new.0 ≡ D.faults self.disk) }
    {
        let place = SNAPSHOT + self.len;
        match write_rest(&mut self.disk, self.len) {
            Ok(()) => Ok((self.disk, place)),
            Err(failed) => Err((self.disk, failed)),
        }
    }

    /// The disk, of which the snapshot is given up.
    pub fn into_disk(self) -> D
        ensures { result ≡ self.disk }
    {
        self.disk
    }
}

// Cuts a file of this length to its header, and begins another over it.
fn begin_file<D: Disk>(disk: &mut D, len: u64, generation: u64) -> Result<(), Failed>
    requires len { len ≡ D.size disk.old }
    requires stable { IsTrue D.tells → Only (D.bytes disk.old) (D.images disk.old) }
    ensures written { IsTrue D.tells → OnOk result
        (D.bytes disk.new ≡ unfinished_file generation []) }
    ensures size { OnOk result (D.size disk.new ≡ 33) }
    ensures shut { IsTrue D.tells → OnOk result (AreShut generation (D.images disk.new)) }
    ensures any_moment { IsTrue D.tells → (choice : Choice) → IsBeside choice (D.bytes disk.old)
        → LeavesOnly D.moment D.images_at disk.old disk.new (StaysBeside choice) }
    ensures faults { CountsFault (D.faults disk.old) (D.faults disk.new) result }
{
    cut_to_header(disk, len)?;
    write_front(disk, generation)
}
