// A disk over a file of the system. It tells nothing of content.
ghost use Rattle.std.specs.Prelude.{◌≡◌, ◌≤◌, ◌+◌, ℕ, List, [], false, length, max, min, OnOk};
ghost use Rattle.std.specs.Prelude.{OnErr};
ghost use Rattle.kom_disk.specs.Disk.{owes_nothing};
ghost use Rattle.kom_disk.specs.Faults.{CountsFault, Rose};

use crate::place::{OpenedFile, Place};
use crate::{Disk, Failed};
use std::io;
use std::os::unix::fs::FileExt;

// The system takes no offset and no length from here on.
const MAX_LEN: u64 = (1 << 63) - 1;

/// A file that is read and written in place, opened by an `Opener`. Its clauses say that each error
/// is counted, and how long the file is by its last measure and its own calls since. That a real
/// file keeps what was synced rests on the system. After a write or a cut that failed the file is
/// measured, at once or else by the next of them, which fails as long as the file has another
/// length than is counted; `len` counts it anew. After a sync that failed each later one fails.
#[derive(Drop)]
pub struct FileDisk<P: Place> {
    place: P,
    /// None until a write makes it.
    file: Option<P::File>,
    /// As last measured, and changed by the calls since.
    len: u64,
    faults: u64,
    /// The length is not known, since a call failed and then the measure.
    is_unmeasured: bool,
    /// A sync has failed. The system may have dropped what it could not write, and would sync the
    /// rest.
    is_lost: bool,
}

impl<P: Place> FileDisk<P> {
    // Of a file that is open, and None where nothing has its name.
    pub(crate) fn new(place: P, file: Option<P::File>, len: u64) -> FileDisk<P>
        ensures place { result.place ≡ place }
        ensures unfailed { result.faults ≡ 0 }
    {
        FileDisk {
            place,
            file,
            len,
            faults: 0,
            is_unmeasured: false,
            is_lost: false,
        }
    }

    fn fail(&mut self) -> Failed
        ensures len { self.new.len ≡ self.old.len }
        ensures faults { Rose self.old.faults self.new.faults
            × (self.old.faults ≤ self.new.faults) }
    {
        self.faults = self.faults.saturating_add(1);
        Failed
    }

    // Counts a write or a cut that failed, and the length that it left if that lies between these.
    fn fail_between(&mut self, least: u64, most: u64) -> Failed
        requires { (least ≤ self.old.len) × (self.old.len ≤ most) }
        ensures len { (least ≤ self.new.len) × (self.new.len ≤ most) }
        ensures faults { Rose self.old.faults self.new.faults
            × (self.old.faults ≤ self.new.faults) }
    {
        match self.measured() {
            Ok(len) if least <= len && len <= most => {
                self.len = len;
                self.is_unmeasured = false;
            }
            _ => self.is_unmeasured = true,
        }
        self.fail()
    }

    // Measures a file whose length is not known, and fails where it is not the counted one.
    fn settle(&mut self) -> Result<(), Failed>
        ensures len { self.new.len ≡ self.old.len }
        ensures faults { CountsFault self.old.faults self.new.faults result }
    {
        if !self.is_unmeasured {
            return Ok(());
        }
        match self.measured() {
            Ok(len) if len == self.len => {
                self.is_unmeasured = false;
                Ok(())
            }
            _ => Err(self.fail()),
        }
    }

    fn measured(&self) -> io::Result<u64> {
        match &self.file {
            Some(file) => file.measure(),
            None => Ok(0),
        }
    }

    // Makes the file if there is none yet.
    fn make_missing(&mut self) -> Result<(), Failed>
        ensures len { self.new.len ≡ self.old.len }
        ensures faults { CountsFault self.old.faults self.new.faults result }
    {
        if self.file.is_some() {
            return Ok(());
        }
        match make_locked(&self.place) {
            Ok(file) => {
                self.file = Some(file);
                Ok(())
            }
            Err(_) => Err(self.fail()),
        }
    }

    fn read_all(&self, at: u64, into: &mut [u8]) -> io::Result<()> {
        match &self.file {
            Some(file) => file.read_exact_at(into, at),
            None => Ok(()),
        }
    }

    fn write_all(&self, at: u64, from: &[u8]) -> io::Result<()> {
        match &self.file {
            Some(file) => file.write_all_at(from, at),
            None => Err(io::ErrorKind::NotFound.into()),
        }
    }

    fn shorten(&self, len: u64) -> io::Result<()> {
        match &self.file {
            Some(file) => file.set_len(len),
            None => Ok(()),
        }
    }

    fn sync_file(&self) -> io::Result<()> {
        match &self.file {
            Some(file) => file.sync(),
            None => Ok(()),
        }
    }
}

fn make_locked<P: Place>(place: &P) -> io::Result<P::File> {
    let file = place.make()?;
    file.lock()?;
    place.sync_folder()?;
    Ok(file)
}

impl<P: Place> Disk for FileDisk<P> {
    ghost tells = { false };

    ghost bytes = { λ _. [] };

    ghost size = { λ disk. disk.len };

    ghost images = { λ _ _. ⊥ };

    ghost moment = { λ _. 0 };

    ghost images_at = { λ _ _ _. ⊥ };

    ghost tells_reads = { false };

    ghost reads = { λ _. [] };

    ghost faults = { λ disk. disk.faults };

    ghost counts_bytes = { λ _ told. owes_nothing told };

    ghost reads_as_image = { λ _ told. owes_nothing told };

    ghost images_now = { λ _ _ told. owes_nothing told };

    fn faults(&self) -> u64 {
        self.faults
    }

    fn len(&mut self) -> Result<u64, Failed> {
        match self.measured() {
            Ok(len) => {
                self.len = len;
                self.is_unmeasured = false;
                Ok(len)
            }
            Err(_) => Err(self.fail()),
        }
    }

    fn read(&mut self, at: u64, into: &mut [u8]) -> Result<(), Failed> {
        match self.read_all(at, into) {
            Ok(()) => Ok(()),
            Err(_) => Err(self.fail()),
        }
    }

    fn write_at(&mut self, at: u64, from: &[u8]) -> Result<(), Failed> {
        self.settle()?;
        let end = at.saturating_add(from.len() as u64);
        if end > MAX_LEN {
            return Err(self.fail());
        }
        self.make_missing()?;
        let longest = self.len.max(end);
        match self.write_all(at, from) {
            Ok(()) => {
                self.len = longest;
                Ok(())
            }
            Err(_) => Err(self.fail_between(self.len, longest)),
        }
    }

    fn cut(&mut self, len: u64) -> Result<(), Failed> {
        self.settle()?;
        if len > self.len {
            return Ok(());
        }
        match self.shorten(len) {
            Ok(()) => {
                self.len = len;
                Ok(())
            }
            Err(_) => Err(self.fail_between(len, self.len)),
        }
    }

    fn sync(&mut self) -> Result<(), Failed> {
        if self.is_lost {
            return Err(self.fail());
        }
        match self.sync_file() {
            Ok(()) => Ok(()),
            Err(_) => {
                self.is_lost = true;
                Err(self.fail())
            }
        }
    }
}
