// The files that a world in memory has, and the disks over them.
ghost use Rattle.std.specs.Prelude.{◌≡◌, IfOk, None, Some, option_map, if◌then◌else◌, string_bytes};
ghost use Rattle.std.specs.Str.{bytes_eq};
ghost use Rattle.memory_links.specs.Files.{file_at, IsNewDisk, IsDiskOver};

use kom_disk::{Memory, MemoryDisk};
use std::alloc::Global;

/// A file of a world in memory, and how the disk over it does.
#[derive(Debug)]
pub struct FilePlan {
    /// The name by which it is opened.
    pub path: String,
    pub bytes: Vec<u8>,
    /// How many bytes there is room for.
    pub room: usize,
    /// The numbers of the calls of its disk that fail, counted from 1.
    pub fails: Vec<u64>,
    /// After so many calls of its disk each further one fails.
    pub stop: Option<u64>,
}

// A call of its own, so that whoever lets a plan go has one step to prove and not one for each
// part.
impl Drop for FilePlan {
    fn drop(self) {
        let FilePlan {
            path,
            bytes,
            room: _,
            fails,
            stop: _,
        } = self;
        drop((path, bytes, fails));
    }
}

impl FilePlan {
    /// The disk over this file, of which no call was made yet.
    fn open(&self, alloc: Global) -> Result<MemoryDisk, Memory>
        ensures { IfOk result (λ disk. IsDiskOver (Some self.now) disk) }
    {
        let bytes = Vec::from_slice(alloc, self.bytes.as_slice())?;
        let fails = Vec::from_slice(alloc, self.fails.as_slice())?;
        MemoryDisk::make(alloc, bytes, self.room, fails, self.stop)
    }
}

/// The disk over the file of this path among these.
pub(crate) fn open_file(alloc: Global, files: &[FilePlan], path: &str) -> Result<MemoryDisk, Memory>
    ensures { IfOk result (λ disk. IsDiskOver (file_at None files.now path.now) disk) }
{
    match find_file(files, path) {
        Some(file) => file.open(alloc),
        None => MemoryDisk::make(alloc, Vec::new(alloc), 0, Vec::new(alloc), None),
    }
}

/// The last file of this path.
fn find_file<'a>(files: &'a [FilePlan], path: &str) -> Option<&'a FilePlan>
    ensures { option_map (λ file. file.now) result ≡ file_at None files.now path.now }
{
    let mut found = None;
    for file in files {
        found = later(found, file, path);
    }
    found
}

/// The later file where it has this path, and else the one that was found before.
fn later<'a>(found: Option<&'a FilePlan>, file: &'a FilePlan, path: &str) -> Option<&'a FilePlan>
    ensures { option_map (λ file. file.now) result
        ≡ (if bytes_eq (string_bytes file.now.path) path.now then Some file.now
        else option_map (λ file. file.now) found.entry) }
{
    if file.path.as_str() == path {
        Some(file)
    } else {
        found
    }
}
