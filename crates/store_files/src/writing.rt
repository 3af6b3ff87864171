// The steps of a file with a snapshot.
ghost use Rattle.std.specs.Prelude.{◌≡◌, ◌<◌, ◌≤◌, ◌+◌, ◌^◌, ◌++◌, ℕ, List, [], ◌∷◌, length, max};
ghost use Rattle.std.specs.Prelude.{IsTrue, OnOk};
ghost use Rattle.kom_disk.specs.Disk.{Only, overwritten};
ghost use Rattle.kom_disk.specs.Faults.{CountsFault};
ghost use Rattle.kom_disk.specs.Moments.{LeavesOnly};
ghost use Rattle.batch_log.specs.Batches.{with_length};
ghost use Rattle.batch_log.specs.Gates.{IsStable};
ghost use Rattle.store_files.specs.Heads.{head_of};
ghost use Rattle.store_files.specs.Writing.{AreShut, IsNoStore, IsNoStoreOrNew, new_file};
ghost use Rattle.store_files.specs.Writing.{unfinished_file};

use batch_log::set_gate;
use kom_disk::{Disk, Failed};

// The place of the gate before a snapshot.
const GATE: u64 = 24;

// The place of a snapshot's length.
const LENGTH: u64 = 25;

/// The place of the snapshot.
pub(crate) const SNAPSHOT: u64 = 33;

// Writes a head and a closed gate over a header or less, and makes them stable.
fn write_head<D: Disk>(disk: &mut D, generation: u64) -> Result<(), Failed>
    requires short { D.size disk.old ≤ 16 }
    requires stable { IsTrue D.tells → Only (D.bytes disk.old) (D.images disk.old) }
    ensures written { IsTrue D.tells → OnOk result
        (IsStable (head_of generation ++ 0 ∷ []) (D.bytes disk.new) (D.images disk.new)) }
    ensures size { OnOk result (D.size disk.new ≡ 25) }
    ensures any_moment { IsTrue D.tells
        → LeavesOnly D.moment D.images_at disk.old disk.new IsNoStore }
    ensures faults { CountsFault (D.faults disk.old) (D.faults disk.new) result }
{
    disk.write_at(0, &head_bytes(generation))?;
    disk.sync()
}

// A head and a closed gate.
fn head_bytes(generation: u64) -> [u8; 25]
    ensures { result ≡ head_of generation ++ 0 ∷ [] }
{
    let mut head = *b"KOMSTORE\x02\0\0\0\0\0\0\0\0\0\0\0\0\0\0\0\0";
    head[16..24].copy_from_slice(&generation.to_le_bytes());
    head
}

/// Writes over what stands after the closed gate, or at the end. No sync is needed before or after
/// it: each image has that gate still.
pub(crate) fn write_behind<D: Disk>(disk: &mut D, at: u64, block: &[u8]) -> Result<(), Failed>
    requires within { (24 < at) × (at ≤ D.size disk.old) }
    ensures written { IsTrue D.tells → OnOk result
        (D.bytes disk.new ≡ overwritten (D.bytes disk.old) at block.now) }
    ensures size { OnOk result (D.size disk.new ≡ max (D.size disk.old) (at + length block.now)) }
    ensures no_shorter { D.size disk.old ≤ D.size disk.new }
    ensures shut { IsTrue D.tells → (generation : ℕ)
        → AreShut generation (D.images disk.old) → AreShut generation (D.images disk.new) }
    ensures any_moment { IsTrue D.tells → (generation : ℕ)
        → AreShut generation (D.images disk.old)
        → LeavesOnly D.moment D.images_at disk.old disk.new IsNoStore }
    ensures faults { CountsFault (D.faults disk.old) (D.faults disk.new) result }
{
    disk.write_at(at, block)
}

/// Begins a file over a header or less: a head, a closed gate, and zeros where the length of the
/// snapshot will stand.
pub(crate) fn write_front<D: Disk>(disk: &mut D, generation: u64) -> Result<(), Failed>
    requires short { D.size disk.old ≤ 16 }
    requires stable { IsTrue D.tells → Only (D.bytes disk.old) (D.images disk.old) }
    ensures written { IsTrue D.tells → OnOk result
        (D.bytes disk.new ≡ unfinished_file generation []) }
    ensures size { OnOk result (D.size disk.new ≡ 33) }
    ensures shut { IsTrue D.tells → OnOk result (AreShut generation (D.images disk.new)) }
    ensures any_moment { IsTrue D.tells
        → LeavesOnly D.moment D.images_at disk.old disk.new IsNoStore }
    ensures faults { CountsFault (D.faults disk.old) (D.faults disk.new) result }
{
    write_head(disk, generation)?;
    write_behind(disk, LENGTH, &[0; 8])
}

/// Writes what is left of a file whose snapshot has this length: a closed gate at its end, and the
/// length. It makes all of it stable, and opens the gate before the snapshot.
pub(crate) fn write_rest<D: Disk>(disk: &mut D, len: u64) -> Result<(), Failed>
    requires ends { (D.size disk.old ≡ len + 33) × (len < 2 ^ 40) }
    ensures new { IsTrue D.tells → (generation : ℕ) (snapshot : List ℕ)
        → D.bytes disk.old ≡ unfinished_file generation snapshot
        → AreShut generation (D.images disk.old) → OnOk result
        (IsStable (new_file generation snapshot) (D.bytes disk.new) (D.images disk.new)) }
    ensures size { OnOk result (D.size disk.new ≡ len + 34) }
    ensures any_moment { IsTrue D.tells → (generation : ℕ) (snapshot : List ℕ)
        → D.bytes disk.old ≡ unfinished_file generation snapshot
        → AreShut generation (D.images disk.old)
        → LeavesOnly D.moment D.images_at disk.old disk.new
        (IsNoStoreOrNew generation snapshot) }
    ensures faults { CountsFault (D.faults disk.old) (D.faults disk.new) result }
{
    write_length(disk, len)?;
    set_gate(disk, GATE, 1)
}

// Writes a closed gate after a snapshot, and the length before it, and makes all of it stable.
fn write_length<D: Disk>(disk: &mut D, len: u64) -> Result<(), Failed>
    requires ends { (D.size disk.old ≡ len + 33) × (len < 2 ^ 40) }
    ensures written { IsTrue D.tells → (generation : ℕ) (snapshot : List ℕ)
        → D.bytes disk.old ≡ unfinished_file generation snapshot → OnOk result
        (IsStable (head_of generation ++ 0 ∷ with_length snapshot ++ 0 ∷ []) (D.bytes disk.new)
        (D.images disk.new)) }
    ensures stable { IsTrue D.tells → OnOk result (Only (D.bytes disk.new) (D.images disk.new)) }
    ensures size { OnOk result (D.size disk.new ≡ len + 34) }
    ensures any_moment { IsTrue D.tells → (generation : ℕ)
        → AreShut generation (D.images disk.old)
        → LeavesOnly D.moment D.images_at disk.old disk.new IsNoStore }
    ensures faults { CountsFault (D.faults disk.old) (D.faults disk.new) result }
{
    write_behind(disk, SNAPSHOT + len, &[0])?;
    write_behind(disk, LENGTH, &len.to_le_bytes())?;
    disk.sync()
}
