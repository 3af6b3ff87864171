// A byte that names one of two slots, and the slots. A new content is written into the slot that is
// not named, and is stable before the byte names it.
ghost use Rattle.std.specs.Prelude.{◌≡◌, ◌≤◌, IsTrue, OnOk, IfOk, if◌then◌else◌};
ghost use Rattle.kom_disk.specs.Faults.{CountsFault};
ghost use Rattle.kom_disk.specs.Moments.{LeavesOnly};
ghost use Rattle.disk_example.specs.Cell.{content_of, other_of, IsSettled, Stays, IsEither};
ghost use Rattle.disk_example.specs.Cell.{Changes};

use kom_disk::{Disk, Failed, calls_in_turn, whole_calls};
use std::marker::Brand;

const LEN: u64 = 17;

const FIRST: u64 = 1;

const SECOND: u64 = 9;

/// Why a cell is not opened.
#[derive(Clone, Copy, Debug, PartialEq, Eq)]
pub enum OpenError {
    /// The disk failed.
    Failed,
    /// The disk is too short for a cell.
    Short,
}

impl From<Failed> for OpenError {
    fn from(_: Failed) -> OpenError {
        OpenError::Failed
    }
}

/// Eight bytes on a disk.
#[derive(Drop)]
pub struct Cell<D: Disk> {
    pub disk: D,
    /// The second slot is named.
    pub is_second: bool,
    ghost is_long: { 17 ≤ D.size disk },
}

impl<D: Disk + Drop> Cell<D> {
    /// The cell that the disk holds, all of it stable.
    pub fn open(mut disk: D) -> Result<Cell<D>, OpenError>
        ensures { IsTrue D.tells
            → IfOk result (λ cell. IsSettled cell.is_second (D.bytes cell.disk) (D.images cell.disk)
            × (content_of (D.bytes cell.disk) ≡ content_of (D.bytes disk))) }
    {
        if disk.len()? < LEN {
            return Err(OpenError::Short);
        }
        let mut named = [0];
        disk.read(0, &mut named)?;
        disk.sync()?;
        Ok(Cell {
            disk,
            is_second: named[0] == 1,
        })
    }
}

impl<D: Disk> Cell<D> {
    /// The content.
    pub fn content(&mut self) -> Result<[u8; 8], Failed>
        requires { IsTrue D.tells
            → IsSettled self.old.is_second (D.bytes self.old.disk) (D.images self.old.disk) }
        ensures given { IsTrue D.tells
            → IfOk result (λ content. content ≡ content_of (D.bytes self.old.disk)) }
        ensures same { IsTrue D.tells → D.bytes self.new.disk ≡ D.bytes self.old.disk }
        ensures settled { IsTrue D.tells
            → IsSettled self.new.is_second (D.bytes self.new.disk) (D.images self.new.disk) }
        ensures faults { CountsFault (D.faults self.old.disk) (D.faults self.new.disk) result }
    {
        let mut content = [0; 8];
        self.disk.read(other_slot(!self.is_second), &mut content)?;
        Ok(content)
    }

    /// Replaces the content. A stop at any moment leaves the old one or the new one, and after `Ok`
    /// the new one. After an error the cell has to be opened again.
    pub fn replace(&mut self, content: &[u8; 8]) -> Result<(), Failed>
        requires { IsTrue D.tells
            → IsSettled self.old.is_second (D.bytes self.old.disk) (D.images self.old.disk) }
        ensures replaced { IsTrue D.tells
            → OnOk result
            (IsSettled self.new.is_second (D.bytes self.new.disk) (D.images self.new.disk)
            × (content_of (D.bytes self.new.disk) ≡ content.now)) }
        ensures any_moment { IsTrue D.tells
            → LeavesOnly D.moment D.images_at self.old.disk self.new.disk
            (IsEither (content_of (D.bytes self.old.disk)) content.now) }
        ensures changed { IsTrue D.tells
            → OnOk result (LeavesOnly D.moment D.images_at self.old.disk self.new.disk
            (Changes (D.moment self.new.disk) (content_of (D.bytes self.old.disk)) content.now)) }
        ensures faults { CountsFault (D.faults self.old.disk) (D.faults self.new.disk) result }
    {
        self.write_other(content)?;
        self.name_other()
    }

    // Writes the slot that is not named.
    fn write_other(&mut self, content: &[u8; 8]) -> Result<(), Failed>
        requires { IsTrue D.tells
            → IsSettled self.old.is_second (D.bytes self.old.disk) (D.images self.old.disk) }
        ensures written { IsTrue D.tells
            → OnOk result
            (IsSettled self.new.is_second (D.bytes self.new.disk) (D.images self.new.disk)
            × (content_of (D.bytes self.new.disk) ≡ content_of (D.bytes self.old.disk))
            × (other_of (D.bytes self.new.disk) ≡ content.now)) }
        ensures any_moment { IsTrue D.tells
            → LeavesOnly D.moment D.images_at self.old.disk self.new.disk
            (Stays (content_of (D.bytes self.old.disk))) }
        ensures faults { CountsFault (D.faults self.old.disk) (D.faults self.new.disk) result }
    {
        whole_calls();
        calls_in_turn::<D, D, Brand>(&self.disk);
        self.disk.write_at(other_slot(self.is_second), content)?;
        self.disk.sync()
    }

    // Names the other slot.
    fn name_other(&mut self) -> Result<(), Failed>
        requires { IsTrue D.tells
            → IsSettled self.old.is_second (D.bytes self.old.disk) (D.images self.old.disk) }
        ensures named { IsTrue D.tells
            → OnOk result
            (IsSettled self.new.is_second (D.bytes self.new.disk) (D.images self.new.disk)
            × (content_of (D.bytes self.new.disk) ≡ other_of (D.bytes self.old.disk))) }
        ensures any_moment { IsTrue D.tells
            → LeavesOnly D.moment D.images_at self.old.disk self.new.disk
            (IsEither (content_of (D.bytes self.old.disk)) (other_of (D.bytes self.old.disk))) }
        ensures changed { IsTrue D.tells
            → OnOk result (LeavesOnly D.moment D.images_at self.old.disk self.new.disk
            (Changes (D.moment self.new.disk) (content_of (D.bytes self.old.disk))
            (other_of (D.bytes self.old.disk)))) }
        ensures faults { CountsFault (D.faults self.old.disk) (D.faults self.new.disk) result }
    {
        calls_in_turn::<D, D, Brand>(&self.disk);
        self.disk.write_at(0, &[u8::from(!self.is_second)])?;
        self.disk.sync()?;
        self.is_second = !self.is_second;
        Ok(())
    }
}

// Where the slot begins that is not named.
fn other_slot(is_second: bool) -> u64
    ensures { result ≡ (if is_second then 1 else 9) }
{
    if is_second { FIRST } else { SECOND }
}
