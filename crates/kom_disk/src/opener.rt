// What opens disks over files.
ghost use Rattle.std.specs.Prelude.{◌≡◌, ◌≤◌, string_bytes, IfOk};
ghost use Rattle.kom_disk.specs.Faults.{CountsFault, Rose};

use crate::Failed;
use crate::file_disk::FileDisk;
use crate::place::{HostPlace, OpenedFile, Place};
use std::alloc::AllocError;
use std::fs::File;
use std::io;
use std::rt::Files;

/// Opens disks over files, and counts each opening that fails, since that one leaves no disk to
/// count it.
#[derive(Drop)]
pub struct Opener {
    /// How many openings have failed. The count stands still at the end of its type.
    pub faults: u64,
}

impl Opener {
    pub fn new() -> Opener
        ensures { result.faults ≡ 0 }
    {
        Opener { faults: 0 }
    }

    /// Opens the file of this path, and locks it for as long as the disk lives: a second opening
    /// fails, in this process or in another one, and is counted. The entries of its folder are
    /// synced. A missing file is an empty disk, which the first write makes, readable and writable
    /// for its owner alone; that write fails if another process has made the file since.
    ///
    /// It fails where the folder is missing or not readable, at a directory, and at a file that
    /// this process may not both read and write; a file that nobody may write is opened by root
    /// alone. A device is opened as an empty disk: on `/dev/full` each write fails, on `/dev/null`
    /// what is written is gone, and on both each sync fails and each cut but one past the end.
    pub fn open<R>(&mut self, rt: &R, path: &str) -> Result<FileDisk<HostPlace<R>>, Failed>
    where
        R: Files<File = File> + AllocGlobal + Copy,
        ensures path { IfOk result (λ disk. string_bytes disk.place.path ≡ path.now) }
        ensures unfailed { IfOk result (λ disk. disk.faults ≡ 0) }
        ensures faults { CountsFault self.old.faults self.new.faults result }
    {
        match host_place(rt, path) {
            Ok(place) => self.open_place(place),
            Err(_) => Err(self.fail()),
        }
    }

    /// Opens the file of this path for reading alone: it is not made and not locked, and writes
    /// fail. It fails where the file is missing.
    pub fn open_to_read<R>(&mut self, rt: &R, path: &str) -> Result<FileDisk<HostPlace<R>>, Failed>
    where
        R: Files<File = File> + AllocGlobal + Copy,
        ensures path { IfOk result (λ disk. string_bytes disk.place.path ≡ path.now) }
        ensures unfailed { IfOk result (λ disk. disk.faults ≡ 0) }
        ensures faults { CountsFault self.old.faults self.new.faults result }
    {
        match host_place(rt, path) {
            Ok(place) => self.open_place_to_read(place),
            Err(_) => Err(self.fail()),
        }
    }

    /// As `open`, of any place.
    pub fn open_place<P: Place>(&mut self, place: P) -> Result<FileDisk<P>, Failed>
        ensures place { IfOk result (λ disk. disk.place ≡ place) }
        ensures unfailed { IfOk result (λ disk. disk.faults ≡ 0) }
        ensures faults { CountsFault self.old.faults self.new.faults result }
    {
        match open_locked(&place) {
            Ok((file, len)) => Ok(FileDisk::new(place, file, len)),
            Err(_) => Err(self.fail()),
        }
    }

    /// As `open_to_read`, of any place.
    pub fn open_place_to_read<P: Place>(&mut self, place: P) -> Result<FileDisk<P>, Failed>
        ensures place { IfOk result (λ disk. disk.place ≡ place) }
        ensures unfailed { IfOk result (λ disk. disk.faults ≡ 0) }
        ensures faults { CountsFault self.old.faults self.new.faults result }
    {
        match open_measured(&place) {
            Ok((file, len)) => Ok(FileDisk::new(place, Some(file), len)),
            Err(_) => Err(self.fail()),
        }
    }

    fn fail(&mut self) -> Failed
        ensures { Rose self.old.faults self.new.faults × (self.old.faults ≤ self.new.faults) }
    {
        self.faults = self.faults.saturating_add(1);
        Failed
    }
}

fn host_place<R>(rt: &R, path: &str) -> Result<HostPlace<R>, AllocError>
where
    R: Files<File = File> + AllocGlobal + Copy,
    ensures { IfOk result (λ place. string_bytes place.path ≡ path.now) }
{
    Ok(HostPlace::new(*rt, String::from_str(rt.alloc(), path)?))
}

fn open_locked<P: Place>(place: &P) -> io::Result<(Option<P::File>, u64)> {
    let file = place.open()?;
    let len = match &file {
        Some(file) => {
            file.lock()?;
            file.measure()?
        }
        None => 0,
    };
    place.sync_folder()?;
    Ok((file, len))
}

fn open_measured<P: Place>(place: &P) -> io::Result<(P::File, u64)> {
    let file = place.open_to_read()?;
    let len = file.measure()?;
    Ok((file, len))
}
