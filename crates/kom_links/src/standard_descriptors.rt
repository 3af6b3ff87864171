//! The descriptors 0 to 2, which a process may have been started without.
use std::rt::Files;
use std::{fs, io};

// A file that every system has, of which nothing is read and to which nothing can be written here.
const NOTHING: &str = "/dev/null";

/// Holds the descriptors 0 to 2. One that was closed when the process began would be given to the
/// next file or socket, which would then be read or written as standard input or output. So as long
/// as this is held an empty file stands there: reads meet its end, and writes fail.
#[derive(Drop)]
pub struct StandardDescriptors<F: Drop> {
    files: [F; 3],
}

impl<F: Drop> StandardDescriptors<F> {
    /// Fills what is closed. Nothing that is to be kept from these numbers may be opened before.
    pub fn fill<R: Files<File = F>>(rt: &R) -> io::Result<StandardDescriptors<F>> {
        Ok(StandardDescriptors {
            files: [
                fs::open(rt, NOTHING)?,
                fs::open(rt, NOTHING)?,
                fs::open(rt, NOTHING)?,
            ],
        })
    }
}
