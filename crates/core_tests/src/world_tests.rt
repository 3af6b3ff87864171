//! Which two lists of entries are those of two worlds that a group cannot tell apart.
use crate::tried::{call_of, entry_of};
use kom_types::{Entry, Sequence};
use noninterference::{Group, two_worlds};
use std::alloc::Global;
use std::process::Abort;
use std::test::Fail;

/// Lines of session 1, in which person 7 writes a letter to person 8, and then those of session 2,
/// of person 9, which is the group.
const LETTER: [(u32, &[u8]); 5] = [
    (1, b"1 62 7 1Hb 0\n"),
    (1, b"2 86 4Hyes! 1 { 0 8 } 1 { 3 00000000 1 1Hp }\n"),
    (2, b"1 62 9 1Hd 0\n"),
    (2, b"2 78 8\n"),
    (2, b"3 90 1\n"),
];

/// What stands in the place of the letter in another world, and whether the group can tell.
static OTHERS: [(&[u8], bool); 4] = [
    (b"2 86 4Hyes! 1 { 0 8 } 1 { 3 00000000 1 1Hp }\n", true),
    (b"2 86 4Hno!! 1 { 0 8 } 1 { 3 00000000 1 1Hq }\n", true),
    (b"2 87 4Hno!! 1 { 0 8 } 1 { 3 00000000 1 1Hq }\n", false),
    (b"2 86 2Hno 1 { 0 8 } 1 { 3 00000000 1 1Hq }\n", false),
];

/// The entries of the letter's world, the letter itself being another line.
fn entries_of(alloc: Global, letter: &[u8]) -> Result<Vec<Entry>, Fail> {
    let mut entries = Vec::new(alloc);
    for (place, (session, line)) in LETTER.iter().enumerate() {
        let line = if place == 1 { letter } else { *line };
        entries.push(entry_of(call_of(alloc, *session, line)?))?;
    }
    Ok(entries)
}

fn group_of(alloc: Global) -> Result<Group, Fail> {
    let mut persons = Sequence::new(alloc);
    persons.push(9)?;
    let mut sessions = Sequence::new(alloc);
    sessions.push(2)?;
    Ok(Group::new(persons, sessions))
}

fn check_others(rt: &impl Abort, alloc: Global, group: &Group, ones: &[Entry]) -> Result<(), Fail> {
    for (letter, are_alike) in &OTHERS {
        let others = entries_of(alloc, *letter)?;
        assert!(rt; two_worlds(group, ones, &others) == *are_alike);
    }
    assert!(rt; !two_worlds(group, ones, &ones[..ones.len().min(4)]));
    Ok(())
}

#[test]
fn two_worlds_differ_in_what_is_hidden(rt: HostRuntime) -> Result<(), Fail> {
    let alloc = rt.alloc();
    let [_, (_, letter), ..] = LETTER;
    check_others(&rt, alloc, &group_of(alloc)?, &entries_of(alloc, letter)?)
}
