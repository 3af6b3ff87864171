//! Disks over real files.
use crate::generic::{needs_send, write_cut_and_read};
use kom_disk::{Disk, FileDisk, HostPlace, Opener};
use std::fs;
use std::fs::File;
use std::os::unix::fs::MetadataExt;
use std::process::Abort;
use std::rt::Files;
use std::test::Fail;

const FOLDER: &str = "kom_disk_test";

const PATH: &str = "kom_disk_test/store";

/// Whether a file is opened.
fn opens<R: Files<File = File> + AllocGlobal + Copy>(
    rt: &R,
    opener: &mut Opener,
    path: &str,
) -> bool {
    opener.open(rt, path).is_ok()
}

/// Nothing is opened where the folder is missing, at a folder, and to be read where no file is.
fn check_missing<R: Files<File = File> + AllocGlobal + Copy + Abort>(
    rt: &R,
    opener: &mut Opener,
) -> Result<(), Fail> {
    assert!(rt; !opens(rt, opener, PATH));
    fs::create_dir(rt, FOLDER)?;
    assert!(rt; !opens(rt, opener, FOLDER));
    assert!(rt; opener.open_to_read(rt, PATH).is_err());
    assert_eq!(rt; opener.faults, 3);
    Ok(())
}

/// A file that is missing is empty, and is not made until it is written.
fn check_unmade<R: Files<File = File> + AllocGlobal + Copy + Send + Abort>(
    rt: &R,
    disk: &mut FileDisk<HostPlace<R>>,
) -> Result<(), Fail> {
    needs_send(disk);
    assert!(rt; disk.len() == Ok(0) && disk.sync().is_ok());
    assert!(rt; !fs::exists(rt, PATH)?);
    Ok(())
}

/// The file is made by the first write. Another disk that found no file does not write over it.
fn check_made<R: Files<File = File> + AllocGlobal + Copy + Abort>(
    rt: &R,
    disk: &mut FileDisk<HostPlace<R>>,
    late: &mut FileDisk<HostPlace<R>>,
) -> Result<(), Fail> {
    assert!(rt; write_cut_and_read(disk) == Ok(*b"abxy"));
    assert_eq!(rt; fs::metadata(rt, PATH)?.mode() & 0o777, 0o600);
    assert!(rt; late.write_at(0, b"a").is_err());
    assert!(rt; disk.faults() == 0 && late.faults() == 1);
    Ok(())
}

/// A file of four bytes that another cuts is read as it is then, and not written.
fn check_read<R: Files<File = File> + AllocGlobal + Copy + Abort>(
    rt: &R,
    disk: &mut FileDisk<HostPlace<R>>,
    reads: &mut FileDisk<HostPlace<R>>,
) {
    assert!(rt; reads.write_at(0, b"z").is_err() && reads.cut(0).is_err());
    if reads.len() == Ok(4) {
        assert!(rt; disk.cut(2).is_ok());
        assert!(rt; reads.read(0, &mut [0; 4]).is_err());
        assert!(rt; reads.len() == Ok(2));
    }
    assert!(rt; disk.faults() == 0 && reads.faults() == 3);
}

/// Makes the file, while another disk found none.
fn make<R: Files<File = File> + AllocGlobal + Copy + Send + Abort>(
    rt: &R,
    opener: &mut Opener,
) -> Result<FileDisk<HostPlace<R>>, Fail> {
    let mut late = opener.open(rt, PATH)?;
    check_unmade(rt, &mut late)?;
    let mut disk = opener.open(rt, PATH)?;
    check_made(rt, &mut disk, &mut late)?;
    Ok(disk)
}

/// Cuts the file of a disk while it is read, and lets the disk go.
fn cut_read<R: Files<File = File> + AllocGlobal + Copy + Abort>(
    rt: &R,
    opener: &mut Opener,
    mut disk: FileDisk<HostPlace<R>>,
) -> Result<(), Fail> {
    let mut reads = opener.open_to_read(rt, PATH)?;
    check_read(rt, &mut disk, &mut reads);
    Ok(())
}

/// How many bytes are counted of the file.
fn len_of<R: Files<File = File> + AllocGlobal + Copy>(rt: &R, opener: &mut Opener) -> Option<u64> {
    opener.open(rt, PATH).ok()?.len().ok()
}

#[test]
fn a_file_is_kept(rt: HostRuntime) -> Result<(), Fail> {
    let _ = fs::remove_dir_all(&rt, FOLDER);
    let (mut opener, mut second) = (Opener::new(), Opener::new());
    check_missing(&rt, &mut opener)?;
    let disk = make(&rt, &mut opener)?;
    // While the disk lives no other opens its file: the second opening fails and is counted, by its
    // own opener too.
    assert!(rt; !opens(&rt, &mut second, PATH));
    assert!(rt; !opens(&rt, &mut opener, PATH));
    assert_eq!(rt; (opener.faults, second.faults), (4, 1));
    cut_read(&rt, &mut second, disk)?;
    assert_eq!(rt; len_of(&rt, &mut second), Some(2));
    assert_eq!(rt; (opener.faults, second.faults), (4, 1));
    let kept = fs::read(&rt, PATH)?;
    assert_eq!(rt; kept.as_slice(), b"ab".as_slice());
    fs::remove_dir_all(&rt, FOLDER)?;
    Ok(())
}

/// What a disk over a device answers.
fn check_device<R: Files<File = File> + AllocGlobal + Copy + Abort>(
    rt: &R,
    disk: &mut FileDisk<HostPlace<R>>,
    is_full: bool,
) {
    assert!(rt; disk.len() == Ok(0));
    assert_eq!(rt; disk.write_at(0, b"a").is_err(), is_full);
    assert!(rt; disk.sync().is_err() && disk.cut(0).is_err());
}

#[test]
fn a_device_keeps_nothing(rt: HostRuntime) -> Result<(), Fail> {
    for (path, is_full) in [("/dev/full", true), ("/dev/null", false)] {
        let mut disk = Opener::new().open(&rt, path)?;
        check_device(&rt, &mut disk, is_full);
    }
    Ok(())
}
