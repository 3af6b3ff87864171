//! A disk in memory: what its script and a stop leave.
ghost use Rattle.std.specs.Prelude.{◌≡◌, length, IfOk};
ghost use Rattle.kom_disk.specs.MemoryDisk.{bytes_of};

use crate::generic::{needs_send, write_cut_and_read};
use kom_disk::{
    Disk, Failed, MemoryDisk, Tear, calls_in_turn, images_since, passes_in_turn, read_up_to,
    whole_calls, wider_fact,
};
use std::alloc::Global;
use std::marker::Brand;
use std::process::Abort;
use std::test::Fail;

/// A disk of these bytes whose calls of these numbers fail, and each after the first `stop` calls.
fn disk_of(
    alloc: Global,
    bytes: &[u8],
    room: usize,
    fails: &[u64],
    stop: Option<u64>,
) -> Result<MemoryDisk, Fail>
    ensures { IfOk result (λ disk. bytes_of disk ≡ bytes.now) }
{
    let bytes = bytes.to_vec(alloc)?;
    let fails = fails.to_vec(alloc)?;
    Ok(MemoryDisk::make(alloc, bytes, room, fails, stop)?)
}

fn check_image(rt: &impl Abort, disk: &MemoryDisk, choice: u64, want: &[u8]) -> Result<(), Fail> {
    let image = disk.image(choice)?;
    assert_eq!(rt; image.as_slice(), want, "choice {choice}");
    Ok(())
}

/// Four calls that change a disk of the bytes `abcdef`, as long as none fails.
fn write_and_cut(disk: &mut MemoryDisk) -> Result<(), Failed> {
    if disk.len()? != 6 {
        return Ok(());
    }
    disk.write_at(4, &[1, 2, 3, 4])?;
    disk.sync()?;
    disk.cut(2)?;
    disk.sync()
}

/// The images of such a disk by the choices 0 to 7, after so many of the four.
static IMAGES: [[&[u8]; 8]; 5] = [
    [b"abcdef"; 8],
    [
        b"abcdef",
        b"abcd\x01\x02\x03\x04",
        b"abcd\x01\x02",
        b"abcdef\x03\x04",
        b"abcd\xfe\xfd\xfc\xfb",
        b"abcd\xfe\xfd",
        b"abcdef\0\0",
        b"abcd\xfe\xfd\x03\x04",
    ],
    [b"abcd\x01\x02\x03\x04"; 8],
    [
        b"abcd\x01\x02\x03\x04",
        b"ab",
        b"abcd\x01",
        b"abcd\x01",
        b"abcd\x01",
        b"abcd\x01",
        b"abcd\x01",
        b"abcd\x01",
    ],
    [b"ab"; 8],
];

fn check_images(rt: &impl Abort, disk: &MemoryDisk, images: &[&[u8]]) -> Result<(), Fail> {
    for (choice, want) in images.iter().enumerate() {
        check_image(rt, disk, choice as u64, *want)?;
    }
    Ok(())
}

#[test]
fn a_stop_leaves_images_of_each_kind(rt: HostRuntime) -> Result<(), Fail> {
    for (changes, images) in IMAGES.iter().enumerate() {
        let stop = Some(changes as u64 + 1);
        let mut disk = disk_of(rt.alloc(), b"abcdef", 8, &[], stop)?;
        assert_eq!(rt; write_and_cut(&mut disk).is_ok(), changes == 4);
        assert_eq!(rt; disk.faults(), u64::from(changes < 4));
        check_images(&rt, &disk, images)?;
    }
    Ok(())
}

#[test]
fn greater_choices_tear_each_write_in_its_own_way(rt: HostRuntime) -> Result<(), Fail> {
    let mut disk = disk_of(rt.alloc(), b"abcd", 4, &[], None)?;
    assert!(rt; disk.write_at(0, b"W").is_ok());
    assert!(rt; disk.write_at(3, b"Z").is_ok());
    for (choice, want) in [(8, b"Wbcd"), (64, b"abcZ"), (72, b"WbcZ"), (512, b"abcd")] {
        check_image(&rt, &disk, choice, want)?;
    }
    Ok(())
}

/// How writes and cuts are torn, and the image that is left.
static TORN: [(&[Tear], &[u8]); 6] = [
    (&[], b"abcdef"),
    (&[Tear::One(2)], b"abYdef"),
    (&[Tear::One(2), Tear::First(3)], b"abY"),
    (&[Tear::Last(3), Tear::Nothing], b"abcZef"),
    (&[Tear::OthersFirst(1), Tear::First(9)], b"\xa8X"),
    (&[Tear::Whole, Tear::Whole], b"WX"),
];

fn check_torn(rt: &impl Abort, disk: &MemoryDisk) -> Result<(), Fail> {
    for (tears, want) in &TORN {
        let image = disk.image_torn(*tears)?;
        assert_eq!(rt; image.as_slice(), *want);
    }
    Ok(())
}

#[test]
fn each_write_and_cut_is_torn_as_listed(rt: HostRuntime) -> Result<(), Fail> {
    let mut disk = disk_of(rt.alloc(), b"abcdef", 6, &[], None)?;
    assert!(rt; disk.write_at(0, b"WXYZ").is_ok());
    assert!(rt; disk.len().is_ok());
    assert!(rt; disk.cut(2).is_ok());
    check_torn(&rt, &disk)
}

/// What is left of a write that fails, and the bytes that this leaves.
static PARTS: [(Tear, &[u8]); 6] = [
    (Tear::Nothing, b"abcdef"),
    (Tear::First(1), b"abcd1f"),
    (Tear::One(2), b"abcdef3"),
    (Tear::LengthAlone, b"abcdef\0\0"),
    (Tear::Last(1), b"abcde234"),
    (Tear::Whole, b"abcd1234"),
];

/// A write that fails leaves these bytes. The next call does not fail, and no part stands past the
/// room.
fn check_part(rt: &impl Abort, disk: &mut MemoryDisk, want: &[u8]) -> Result<(), Fail>
    requires { length (bytes_of disk.old) ≡ 6 }
{
    assert!(rt; disk.write_at(4, b"1234").is_err());
    check_image(rt, disk, 1, want)?;
    assert!(rt; disk.sync().is_ok() && disk.write_at(6, b"xyz").is_err());
    assert!(rt; disk.image(1)?.len() <= 8);
    assert_eq!(rt; disk.faults(), 2);
    Ok(())
}

#[test]
fn a_failed_write_leaves_a_part(rt: HostRuntime) -> Result<(), Fail> {
    for (tear, want) in &PARTS {
        let mut disk = disk_of(rt.alloc(), b"abcdef", 8, &[1], None)?;
        disk.leave_parts(*tear);
        check_part(&rt, &mut disk, *want)?;
    }
    Ok(())
}

/// Five calls, and which of them succeeded.
fn five_calls(disk: &mut MemoryDisk) -> [bool; 5]
    requires { length (bytes_of disk.old) ≡ 6 }
{
    let len = disk.len().is_ok();
    let mut byte = [0];
    let read = disk.read(5, &mut byte).is_ok();
    let write = disk.write_at(1, b"xy").is_ok();
    let cut = disk.cut(4).is_ok();
    let sync = disk.sync().is_ok();
    [len, read, write, cut, sync]
}

/// Which of five calls fails, and what is stable then; 0 is none.
static FAILS: [(usize, &[u8]); 6] = [
    (0, b"axyd"),
    (1, b"axyd"),
    (2, b"axyd"),
    (3, b"abcd"),
    (4, b"axydef"),
    (5, b"abcdef"),
];

#[test]
fn each_call_fails_in_turn(rt: HostRuntime) -> Result<(), Fail> {
    for (number, stable) in &FAILS {
        let mut disk = disk_of(rt.alloc(), b"abcdef", 6, &[*number as u64], None)?;
        let outcomes = five_calls(&mut disk);
        for (call, succeeded) in outcomes.iter().enumerate() {
            assert_eq!(rt; *succeeded, call + 1 != *number, "call {call} at {number}");
        }
        assert_eq!(rt; disk.faults(), u64::from(*number > 0), "call {number}");
        check_image(&rt, &disk, 0, *stable)?;
    }
    Ok(())
}

/// What reads of up to five bytes give of a disk that has `abxy`.
fn check_reads(rt: &impl Abort, disk: &mut MemoryDisk) {
    for (at, want) in [(0, b"abxy_"), (2, b"xy___"), (4, b"_____"), (9, b"_____")] {
        let mut back = *b"_____";
        assert_eq!(rt;
            read_up_to(disk, at, &mut back),
            Ok(4usize.saturating_sub(at as usize))
        );
        assert_eq!(rt; back, *want, "at {at}");
    }
}

#[test]
fn laws_hold_of_a_disk(rt: HostRuntime) -> Result<(), Fail> {
    images_since::<MemoryDisk>();
    calls_in_turn::<MemoryDisk, (), Brand>(&());
    passes_in_turn::<MemoryDisk>();
    whole_calls();
    wider_fact::<MemoryDisk, (), Brand, Brand>(&());
    let mut disk = disk_of(rt.alloc(), b"", 8, &[], None)?;
    assert_eq!(rt; write_cut_and_read(&mut disk), Ok(*b"abxy"));
    needs_send(&disk);
    check_reads(&rt, &mut disk);
    Ok(())
}
