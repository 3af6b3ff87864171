// A file that is no store any more.
ghost use Rattle.std.specs.Prelude.{◌≡◌, ◌≤◌, take, IsTrue, OnOk};
ghost use Rattle.kom_disk.specs.Disk.{Only};
ghost use Rattle.kom_disk.specs.Faults.{CountsFault};
ghost use Rattle.kom_disk.specs.Moments.{LeavesOnly};
ghost use Rattle.batch_log.specs.Gates.{IsStable};
ghost use Rattle.store_files.specs.Choices.{IsBeside};
ghost use Rattle.store_files.specs.Writing.{StaysBeside};
ghost use Rattle.store_files.specs.declared.choices.Choice.{Choice};

use kom_disk::{Disk, Failed};

// How long a header is.
const HEADER: u64 = 16;

/// Cuts a file of this length to its header, and makes the cut stable. Beside what is chosen
/// without it a stop at any moment leaves it so.
pub fn cut_to_header<D: Disk>(disk: &mut D, len: u64) -> Result<(), Failed>
    requires len { len ≡ D.size disk.old }
    requires stable { IsTrue D.tells → Only (D.bytes disk.old) (D.images disk.old) }
    ensures cut { IsTrue D.tells → OnOk result
        (IsStable (take 16 (D.bytes disk.old)) (D.bytes disk.new) (D.images disk.new)) }
    ensures size { OnOk result (D.size disk.new ≤ 16) }
    ensures any_moment { IsTrue D.tells → (choice : Choice) → IsBeside choice (D.bytes disk.old)
        → LeavesOnly D.moment D.images_at disk.old disk.new (StaysBeside choice) }
    ensures faults { CountsFault (D.faults disk.old) (D.faults disk.new) result }
{
    if len <= HEADER {
        return Ok(());
    }
    disk.cut(HEADER)?;
    disk.sync()
}
