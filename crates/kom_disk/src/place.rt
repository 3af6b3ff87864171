// What a disk over a file asks of the system, and the system itself.
ghost use Rattle.std.specs.Prelude.{◌≡◌};

use std::fs::{File, OpenOptions};
use std::io;
use std::os::unix::fs::{FileExt, OpenOptionsExt};
use std::path::Path;
use std::rt::Files;

/// An open file. Each of its calls is one of the system.
pub trait OpenedFile: FileExt + Drop {
    /// Takes the lock that one opening of the file has, and fails where another has it.
    fn lock(&self) -> io::Result<()>;

    fn measure(&self) -> io::Result<u64>;

    fn set_len(&self, len: u64) -> io::Result<()>;

    /// Makes what was written and the length outlast a stop of the system.
    fn sync(&self) -> io::Result<()>;
}

impl OpenedFile for File {
    fn lock(&self) -> io::Result<()> {
        Ok(self.try_lock()?)
    }

    fn measure(&self) -> io::Result<u64> {
        Ok(self.metadata()?.len())
    }

    fn set_len(&self, len: u64) -> io::Result<()> {
        File::set_len(self, len)
    }

    fn sync(&self) -> io::Result<()> {
        self.sync_data()
    }
}

/// The place of a file: its folder and its name there.
pub trait Place: Drop {
    type File: OpenedFile;

    /// Opens the file for reading and writing. There is none where nothing has the name.
    fn open(&self) -> io::Result<Option<Self::File>>;

    fn open_to_read(&self) -> io::Result<Self::File>;

    /// Makes the file, and fails where something has the name.
    fn make(&self) -> io::Result<Self::File>;

    /// Makes the names in the folder outlast a stop of the system.
    fn sync_folder(&self) -> io::Result<()>;
}

/// A path of the system.
#[derive(Drop)]
pub struct HostPlace<R: Files<File = File> + Copy> {
    rt: R,
    path: String,
}

impl<R: Files<File = File> + Copy> HostPlace<R> {
    pub fn new(rt: R, path: String) -> HostPlace<R>
        ensures { result.path ≡ path }
    {
        HostPlace { rt, path }
    }
}

impl<R: Files<File = File> + Copy> Place for HostPlace<R> {
    type File = File;

    fn open(&self) -> io::Result<Option<File>> {
        let mut options = OpenOptions::new();
        options.read(true).write(true);
        match options.open(&self.rt, self.path.as_str()) {
            Ok(file) => Ok(Some(file)),
            Err(error) if error.kind() == io::ErrorKind::NotFound => Ok(None),
            Err(error) => Err(error),
        }
    }

    fn open_to_read(&self) -> io::Result<File> {
        File::open(&self.rt, self.path.as_str())
    }

    fn make(&self) -> io::Result<File> {
        let mut options = OpenOptions::new();
        options.read(true).write(true).create_new(true).mode(0o600);
        options.open(&self.rt, self.path.as_str())
    }

    fn sync_folder(&self) -> io::Result<()> {
        let folder = match Path::new(self.path.as_str()).parent() {
            Some(folder) if !folder.as_str().is_empty() => folder,
            _ => Path::new("."),
        };
        File::open(&self.rt, folder)?.sync_all()
    }
}
