//! What is tried of disks of several kinds.
use kom_disk::{Disk, Failed};

/// Leaves `abxy` on a disk, and reads it.
pub fn write_cut_and_read<D: Disk>(disk: &mut D) -> Result<[u8; 4], Failed> {
    disk.cut(0)?;
    disk.write_at(0, b"abcd")?;
    disk.write_at(2, b"xyz")?;
    disk.sync()?;
    disk.cut(4)?;
    disk.sync()?;
    let mut back = [0; 4];
    disk.read(0, &mut back)?;
    Ok(back)
}

pub fn needs_send<T: Send>(_: &T) {}
