//! Sweeps of a store in memory, and which texts they leave there.
use crate::side_by_side_tests::{new_store, words_of};
use kom_server::{Outcome, run};
use kom_types::Moment;
use memory_links::{Client, FilePlan, GatePlan, LinkPlan, MemoryWorld, Script};
use std::alloc::Global;
use std::collections::VecDeque;
use std::process::Abort;
use std::sync::Wait;
use std::test::Fail;
use std::thread::Threads;

/// A sweep of a store of two texts without recipients and no mark, or with one on the second.
struct Row {
    is_marked: bool,
    // How many days after the texts it is.
    days: u64,
    words: &'static [&'static str],
    // Whether another has the store open.
    is_locked: bool,
    status: u8,
    report: &'static [u8],
    // What a client is then answered that looks for the texts.
    left: &'static [u8],
}

const SWEEP: &[&str] = &["sweep", "s", "5", ""];

const STORE_FAILED: u8 = 3;

const NO_STORE: u8 = 4;

/// The calls that a sweep makes of its disk are fewer.
const MOST_CALLS: u64 = 100;

const NONE_GONE: &[u8] = b"LysKOM\n=1\n=2 1\n=3 2\n";

const FIRST_GONE: &[u8] = b"LysKOM\n=1\n=2 2\n=3 2\n";

const BOTH_GONE: &[u8] = b"LysKOM\n=1\n%2 14 0\n%3 14 1\n";

const BOTH_DUE: Row = Row {
    is_marked: false,
    days: 78,
    words: SWEEP,
    is_locked: false,
    status: 0,
    report: b"swept 2\nkept 0\n",
    left: BOTH_GONE,
};

static ROWS: [Row; 7] = [
    BOTH_DUE,
    // nothing is due after 77 days
    Row {
        days: 77,
        report: b"swept 0\nkept 2\n",
        left: NONE_GONE,
        ..BOTH_DUE
    },
    Row {
        is_marked: true,
        report: b"swept 1\nkept 1\n",
        left: FIRST_GONE,
        ..BOTH_DUE
    },
    // another password, and a person that is not there
    Row {
        words: &["sweep", "s", "5", "x"],
        status: 8,
        report: b"",
        left: NONE_GONE,
        ..BOTH_DUE
    },
    Row {
        words: &["sweep", "s", "6", ""],
        status: 8,
        report: b"",
        left: NONE_GONE,
        ..BOTH_DUE
    },
    // another has the store open
    Row {
        is_locked: true,
        status: 3,
        report: b"",
        left: NONE_GONE,
        ..BOTH_DUE
    },
    // no store
    Row {
        words: &["sweep", "t", "5", ""],
        status: 4,
        report: b"",
        left: NONE_GONE,
        ..BOTH_DUE
    },
];

/// The bytes of a store are at most so many.
const ROOM: usize = 4_000_000;

const DAY: u64 = 86_400;

/// Writes both texts; marks the second.
const WRITES: &[u8] = b"A1Ha\n1 62 5 0H 0\n2 86 3Hone 0 { } 0 { }\n3 86 3Htwo 0 { } 0 { }\n";

const MARKS: &[u8] = b"A1Ha\n1 62 5 0H 0\n2 72 2 1\n";

/// Looks for the text after 0, and for that after 1.
const LOOKS: &[u8] = b"A1Ha\n1 62 5 0H 0\n2 60 0\n3 60 1\n";

/// A world at a day, with a file `s` of these bytes whose disk stops after so many calls, or is
/// refused, and one client that sends this.
fn world_of(
    alloc: Global,
    bytes: Vec<u8>,
    days: u64,
    stop: Option<u64>,
    is_locked: bool,
    input: &[u8],
) -> Result<MemoryWorld, Fail> {
    let mut clients = VecDeque::new(alloc);
    clients.push_back(Client {
        input: Vec::from_slice(alloc, input)?,
        plan: LinkPlan::new(alloc),
    })?;
    let gate = GatePlan {
        clients,
        script: Script::new(alloc),
    };
    let moments = Vec::from_slice(alloc, &[Moment::at_most(days.saturating_mul(DAY))])?;
    let mut world = MemoryWorld::new(alloc, Some(gate), moments, Vec::new(alloc));
    let mut files = Vec::new(alloc);
    files.push(FilePlan {
        path: String::from_str(alloc, "s")?,
        bytes,
        room: ROOM,
        fails: Vec::new(alloc),
        stop,
    })?;
    let refused = Vec::from_slice(alloc, &[u64::from(is_locked)])?;
    world.set_files(files, refused);
    Ok(world)
}

/// What a stop leaves of the disk of a run, or else what was there before.
fn left_by(outcome: &Outcome<MemoryWorld>, before: Vec<u8>) -> Result<Vec<u8>, Fail> {
    match &outcome.disk {
        Some(disk) => Ok(disk.image(0)?),
        None => Ok(before),
    }
}

/// What a client is answered that sends this to the server of a store, and what the store is then.
fn served<R: Abort + Threads + Wait + Sync>(
    rt: &R,
    alloc: Global,
    bytes: Vec<u8>,
    input: &[u8],
) -> Result<(Vec<u8>, Vec<u8>), Fail> {
    let words = words_of(alloc, &["once", "s"])?;
    let mut world = world_of(alloc, bytes, 0, None, false, input)?;
    let outcome = run(rt, alloc, &words, &mut world);
    assert_eq!(rt; outcome.status, 0);
    let mut answers = Vec::new(alloc);
    if let Some(closing) = &outcome.end {
        for gate in closing.gates.as_slice() {
            for (link, _served) in gate.returned() {
                answers.extend_from_slice(link.output())?;
            }
        }
    }
    Ok((answers, left_by(&outcome, Vec::new(alloc))?))
}

/// A store of both texts.
fn store_of<R: Abort + Threads + Wait + Sync>(
    rt: &R,
    alloc: Global,
    is_marked: bool,
) -> Result<Vec<u8>, Fail> {
    let empty = new_store(rt, alloc)?;
    let (answers, bytes) = served(rt, alloc, empty, WRITES)?;
    assert_eq!(rt; answers.as_slice(), b"LysKOM\n=1\n=2 1\n=3 2\n".as_slice());
    if !is_marked {
        return Ok(bytes);
    }
    let (answers, bytes) = served(rt, alloc, bytes, MARKS)?;
    assert_eq!(rt; answers.as_slice(), b"LysKOM\n=1\n=2\n".as_slice());
    Ok(bytes)
}

/// The status of a sweep, and what it leaves of a store. The report is that of the row.
fn swept<R: Abort + Threads + Wait + Sync>(
    rt: &R,
    alloc: Global,
    bytes: Vec<u8>,
    row: &Row,
    stop: Option<u64>,
) -> Result<(u8, Vec<u8>), Fail> {
    let words = words_of(alloc, row.words)?;
    let before = Vec::from_slice(alloc, bytes.as_slice())?;
    let mut world = world_of(alloc, bytes, row.days, stop, row.is_locked, b"")?;
    let outcome = run(rt, alloc, &words, &mut world);
    if outcome.status == row.status {
        assert_eq!(rt; outcome.sink.output(), row.report);
    } else {
        assert_eq!(rt; outcome.sink.output(), b"".as_slice());
    }
    if outcome.status == NO_STORE {
        return Ok((NO_STORE, before));
    }
    Ok((outcome.status, left_by(&outcome, before)?))
}

fn check_row<R: Abort + Threads + Wait + Sync>(
    rt: &R,
    alloc: Global,
    row: &Row,
) -> Result<(), Fail> {
    let store = store_of(rt, alloc, row.is_marked)?;
    let (status, left) = swept(rt, alloc, store, row, None)?;
    assert_eq!(rt; status, row.status);
    let (answers, _store) = served(rt, alloc, left, LOOKS)?;
    assert_eq!(rt; answers.as_slice(), row.left);
    Ok(())
}

#[test]
fn a_sweep_deletes_what_nobody_keeps(rt: HostRuntime) -> Result<(), Fail> {
    for row in &ROWS {
        check_row(&rt, rt.alloc(), row)?;
    }
    Ok(())
}

/// Whether a sweep ends well whose disk fails after so many calls, and how many of the texts that
/// are due are gone. If not all are, they are the first ones.
fn swept_until<R: Abort + Threads + Wait + Sync>(
    rt: &R,
    alloc: Global,
    calls: u64,
) -> Result<(bool, u8), Fail> {
    let store = store_of(rt, alloc, false)?;
    let (status, left) = swept(rt, alloc, store, &BOTH_DUE, Some(calls))?;
    assert!(rt; status == 0 || status == STORE_FAILED);
    let (answers, _store) = served(rt, alloc, left, LOOKS)?;
    let told = answers.as_slice();
    if told == NONE_GONE {
        return Ok((status == 0, 0));
    }
    if told == FIRST_GONE {
        return Ok((status == 0, 1));
    }
    assert_eq!(rt; told, BOTH_GONE);
    Ok((status == 0, 2))
}

#[test]
fn a_disk_that_fails_leaves_a_first_part_done(rt: HostRuntime) -> Result<(), Fail> {
    let mut is_none_gone = false;
    let mut is_first_gone = false;
    for calls in 0..MOST_CALLS {
        let (is_well, gone) = swept_until(&rt, rt.alloc(), calls)?;
        if is_well {
            assert_eq!(rt; gone, 2);
            assert!(rt; is_none_gone && is_first_gone);
            return Ok(());
        }
        is_none_gone = is_none_gone || gone == 0;
        is_first_gone = is_first_gone || gone == 1;
    }
    Err("the disk always fails".into())
}
