//! Sets of read numbers: what each call leaves, with ample memory.
use kom_types::ReadRange;
use read_ranges::{RangeFault, Ranges, list};
use std::alloc::Global;
use std::test::Fail;

fn range(first: u32, last: u32) -> ReadRange {
    ReadRange { first, last }
}

/// The set of a list that is known to be right.
fn of_list(alloc: Global, list: &[ReadRange]) -> Result<Ranges, RangeFault> {
    let mut read = Ranges::new(alloc);
    read.set(list)?;
    Ok(read)
}

#[test]
fn a_mark_between_two_ranges_joins_them(rt: HostRuntime) -> Result<(), Fail> {
    let mut read = of_list(rt.alloc(), &[range(1, 4), range(6, 9)])?;
    assert_eq!(rt; read.count(), 2);
    assert_eq!(rt; read.next_unread(1), Some(5));
    read.mark(5)?;
    assert_eq!(rt; read.ranges(), [range(1, 9)].as_slice());
    read.unmark(1)?;
    assert_eq!(rt; read.ranges(), [range(2, 9)].as_slice());
    read.unmark(5)?;
    assert_eq!(rt; read.ranges(), [range(2, 4), range(6, 9)].as_slice());
    assert_eq!(rt; read.next_unread(6), Some(10));
    Ok(())
}

#[test]
fn a_list_becomes_a_set_and_comes_back(rt: HostRuntime) -> Result<(), Fail> {
    let given = [range(1, 3), range(4, 6), range(9, 9)].to_vec(rt.alloc())?;
    list::check(&given)?;
    let mut read = Ranges::from_list(given);
    let copy = read.clone()?;
    read.unmark(9)?;
    assert_eq!(rt; copy.ranges(), [range(1, 6), range(9, 9)].as_slice());
    let list = read.into_list().ok().ok_or("no memory")?;
    assert_eq!(rt; list.as_slice(), [range(1, 6)].as_slice());
    let mut one = Ranges::new(rt.alloc());
    one.mark(7)?;
    let list = one.clone()?.into_list().ok().ok_or("no memory")?;
    assert_eq!(rt; list.as_slice(), one.ranges());
    Ok(())
}

/// A value that goes from one thread to another.
fn handed_over<T: Send>(value: T) -> T {
    value
}

#[test]
fn there_is_room_after_a_reserve(rt: HostRuntime) -> Result<(), Fail> {
    let mut read = handed_over(Ranges::new(rt.alloc()));
    read.mark(3)?;
    read.reserve(4)?;
    assert_eq!(rt; read.ranges(), [range(3, 3)].as_slice());
    read.set(&[range(1, 1), range(3, 3), range(5, 5), range(7, 7)])?;
    assert_eq!(rt; read.count(), 4);
    Ok(())
}
