//! Places and files that fail by script.
use kom_disk::{OpenedFile, Place};
use std::cell::Cell;
use std::io;
use std::os::unix::fs::FileExt;

/// What fails of a file: the calls that measure, write, cut and sync by their numbers, and a sync
/// of its folder by its own.
#[derive(Clone, Copy)]
pub struct Plan {
    pub is_missing: bool,
    pub is_locked: bool,
    pub folder_fails: u32,
    pub fails: [u32; 2],
}

pub const SOUND: Plan = Plan {
    is_missing: false,
    is_locked: false,
    folder_fails: 0,
    fails: [0, 0],
};

#[derive(Drop)]
pub struct FakePlace {
    plan: Plan,
    folder_calls: Cell<u32>,
}

/// An empty file of at most 16 bytes, which are written three at once.
#[derive(Drop)]
pub struct FakeFile {
    plan: Plan,
    calls: Cell<u32>,
    bytes: Cell<[u8; 16]>,
    len: Cell<u64>,
}

impl FakeFile {
    fn new(plan: Plan) -> FakeFile {
        FakeFile {
            plan,
            calls: Cell::new(0),
            bytes: Cell::new([0; 16]),
            len: Cell::new(0),
        }
    }

    fn call(&self) -> io::Result<()> {
        let number = self.calls.get().wrapping_add(1);
        self.calls.set(number);
        if self.plan.fails.contains(&number) {
            return Err(io::ErrorKind::Other.into());
        }
        Ok(())
    }
}

impl FileExt for FakeFile {
    fn read_at(&self, buf: &mut [u8], offset: u64) -> io::Result<usize> {
        let bytes = self.bytes.get();
        let there = self.len.get().saturating_sub(offset);
        let count = buf.len().min(there as usize);
        for i in 0..count {
            if let Some(byte) = bytes.get(i.saturating_add(offset as usize)) {
                buf[i] = *byte;
            }
        }
        Ok(count)
    }

    fn write_at(&self, buf: &[u8], offset: u64) -> io::Result<usize> {
        self.call()?;
        let mut bytes = self.bytes.get();
        let count = buf.len().min(3);
        for i in 0..count {
            if let Some(byte) = bytes.get_mut(i.saturating_add(offset as usize)) {
                *byte = buf[i];
            }
        }
        self.bytes.set(bytes);
        self.len
            .set(self.len.get().max(offset.saturating_add(count as u64)));
        Ok(count)
    }
}

impl OpenedFile for FakeFile {
    fn lock(&self) -> io::Result<()> {
        if self.plan.is_locked {
            return Err(io::ErrorKind::WouldBlock.into());
        }
        Ok(())
    }

    fn measure(&self) -> io::Result<u64> {
        self.call()?;
        Ok(self.len.get())
    }

    fn set_len(&self, len: u64) -> io::Result<()> {
        self.call()?;
        self.len.set(len);
        Ok(())
    }

    fn sync(&self) -> io::Result<()> {
        self.call()
    }
}

impl Place for FakePlace {
    type File = FakeFile;

    fn open(&self) -> io::Result<Option<FakeFile>> {
        if self.plan.is_missing {
            return Ok(None);
        }
        Ok(Some(FakeFile::new(self.plan)))
    }

    fn open_to_read(&self) -> io::Result<FakeFile> {
        Ok(FakeFile::new(self.plan))
    }

    fn make(&self) -> io::Result<FakeFile> {
        Ok(FakeFile::new(self.plan))
    }

    fn sync_folder(&self) -> io::Result<()> {
        let number = self.folder_calls.get().wrapping_add(1);
        self.folder_calls.set(number);
        if self.plan.folder_fails == number {
            return Err(io::ErrorKind::Other.into());
        }
        Ok(())
    }
}

pub fn place_of(plan: Plan) -> FakePlace {
    FakePlace {
        plan,
        folder_calls: Cell::new(0),
    }
}
