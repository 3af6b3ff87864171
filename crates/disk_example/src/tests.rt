use crate::{Cell, OpenError};
use kom_disk::MemoryDisk;
use std::test::Fail;

const OLD: [u8; 8] = *b"old text";

const NEW: [u8; 8] = *b"new text";

// A file whose second slot is named.
const FILE: [u8; 17] = *b"\x01--------old text";

#[test]
fn a_stop_leaves_the_old_content_or_the_new_one(rt: HostRuntime) -> Result<(), Fail> {
    let alloc = rt.alloc();
    for calls in 3..8 {
        let disk = MemoryDisk::make(alloc, FILE.to_vec(alloc)?, 17, Vec::new(alloc), Some(calls))?;
        let mut cell = Cell::open(disk)?;
        let done = cell.replace(&NEW);
        assert_eq!(rt; done.is_ok(), calls == 7);
        for choice in 0..64 {
            let image = cell.disk.image(choice)?;
            let left = MemoryDisk::make(alloc, image, 17, Vec::new(alloc), None)?;
            let content = Cell::open(left)?.content();
            assert!(rt; content == Ok(NEW) || (content == Ok(OLD) && calls < 7));
        }
    }
    Ok(())
}

#[test]
fn a_disk_is_refused_that_is_short_or_fails(rt: HostRuntime) -> Result<(), Fail> {
    let alloc = rt.alloc();
    let short = MemoryDisk::make(alloc, b"\x01".to_vec(alloc)?, 17, Vec::new(alloc), None)?;
    assert!(rt; matches!(Cell::open(short), Err(OpenError::Short)));
    for number in 1..4 {
        let fails = vec![in alloc; number]?;
        let disk = MemoryDisk::make(alloc, FILE.to_vec(alloc)?, 17, fails, None)?;
        assert!(rt; matches!(Cell::open(disk), Err(OpenError::Failed)));
    }
    Ok(())
}

#[test]
fn a_content_is_replaced_twice(rt: HostRuntime) -> Result<(), Fail> {
    let alloc = rt.alloc();
    let disk = MemoryDisk::make(alloc, FILE.to_vec(alloc)?, 17, Vec::new(alloc), None)?;
    let mut cell = Cell::open(disk)?;
    assert_eq!(rt; cell.content(), Ok(OLD));
    assert_eq!(rt; cell.replace(&NEW), Ok(()));
    assert_eq!(rt; cell.content(), Ok(NEW));
    assert_eq!(rt; cell.replace(&OLD), Ok(()));
    assert_eq!(rt; cell.content(), Ok(OLD));
    Ok(())
}
