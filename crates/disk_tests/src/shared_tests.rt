//! A disk whose bytes change beside it.
use kom_disk::{Change, Disk, SharedDisk, read_up_to};
use std::alloc::Global;
use std::process::Abort;
use std::test::Fail;

/// A disk that shows `abc`, then `abcdef`, from its sixth call on `abXdef`, and from its ninth `a`;
/// its fifth call fails.
fn shared_disk(alloc: Global) -> Result<SharedDisk, Fail> {
    let mut changes = Vec::new(alloc);
    changes.push(change_to(alloc, 3, b"abcdef")?)?;
    changes.push(change_to(alloc, 6, b"abXdef")?)?;
    changes.push(change_to(alloc, 9, b"a")?)?;
    let fails = vec![in alloc; 5]?;
    Ok(SharedDisk::make(alloc, b"abc".to_vec(alloc)?, changes, fails, None))
}

fn change_to(alloc: Global, call: u64, bytes: &[u8]) -> Result<Change, Fail> {
    Ok(Change {
        call,
        bytes: bytes.to_vec(alloc)?,
    })
}

fn check_shared(rt: &impl Abort, disk: &mut SharedDisk) {
    let mut back = *b"______";
    assert!(rt; read_up_to(disk, 1, &mut back) == Ok(2) && back == *b"bc____");
    assert!(rt; read_up_to(disk, 1, &mut back) == Ok(5) && back == *b"bcdef_");
    assert!(rt; disk.sync().is_err());
    assert!(rt; read_up_to(disk, 2, &mut back) == Ok(4) && back == *b"Xdeff_");
    assert!(rt; disk.cut(9).is_err() && disk.write_at(0, b"a").is_err());
    assert_eq!(rt; disk.faults(), 3);
    assert!(rt; disk.len() == Ok(1));
}

#[test]
fn bytes_change_beside_a_shared_disk(rt: HostRuntime) -> Result<(), Fail> {
    check_shared(&rt, &mut shared_disk(rt.alloc())?);
    Ok(())
}
