//! Two workers of `serve` over a store and a port in memory, each with one client, where the one
//! waits for what the other is sent.
use kom_links::SessionEnd;
use kom_server::run;
use kom_types::{Memory, Moment, Words};
use memory_links::{
    Client, FilePlan, Flag, GatePlan, Hold, LinkPlan, MemoryGate, MemoryWorld, Script, Signal,
};
use std::alloc::Global;
use std::collections::VecDeque;
use std::process::Abort;
use std::sync::Wait;
use std::test::Fail;
use std::thread::Threads;

/// A flag of a row by its place among them, and a count of bytes: that were put to the link that
/// sets it, or that were taken from a link, or put to it, before it waits for the flag.
#[derive(Clone, Copy)]
struct Mark {
    flag: usize,
    bytes: usize,
}

/// A client, and what becomes of it.
#[derive(Clone, Copy)]
pub(crate) struct Part {
    /// It sends this, and then the other line so many times.
    sends: &'static [u8],
    times: usize,
    line: &'static [u8],
    sets: &'static [Mark],
    reads_wait: &'static [Mark],
    writes_wait: &'static [Mark],
    /// What is put to it, where it is the first session and where it is the second.
    put: [&'static [u8]; 2],
    /// Whether more may be put to it than that.
    may_be_more: bool,
    end: SessionEnd,
}

/// A client that waits for nobody, sends no line and gets none.
const ALONE: Part = Part {
    sends: b"",
    times: 0,
    line: b"",
    sets: &[],
    reads_wait: &[],
    writes_wait: &[],
    put: [b"", b""],
    may_be_more: false,
    end: SessionEnd::End,
};

/// The bytes of a store are at most so many.
const ROOM: usize = 4_000_000;

/// A world with a file `s` of these bytes and, at a port, these gates.
pub(crate) fn world_of(
    alloc: Global,
    bytes: Vec<u8>,
    gates: Vec<GatePlan>,
) -> Result<MemoryWorld, Fail> {
    let moments = Vec::from_slice(alloc, &[Moment::at_most(0)])?;
    let mut world = MemoryWorld::new(alloc, None, moments, Vec::new(alloc));
    let file = FilePlan {
        path: String::from_str(alloc, "s")?,
        bytes,
        room: ROOM,
        fails: Vec::new(alloc),
        stop: None,
    };
    let mut files = Vec::new(alloc);
    files.push(file)?;
    world.set_files(files, Vec::new(alloc));
    world.set_port(gates);
    Ok(world)
}

pub(crate) fn words_of(alloc: Global, line: &[&str]) -> Result<Words, Fail> {
    let mut words = Words::new(alloc);
    for word in line {
        words.push(*word)?;
    }
    Ok(words)
}

/// The bytes of a store that `init` makes with an empty password.
pub(crate) fn new_store<R: Abort + Threads + Wait + Sync>(
    rt: &R,
    alloc: Global,
) -> Result<Vec<u8>, Fail> {
    let words = words_of(alloc, &["init", "s", ""])?;
    let mut world = world_of(alloc, Vec::new(alloc), Vec::new(alloc))?;
    let outcome = run(rt, alloc, &words, &mut world);
    assert_eq!(rt; outcome.status, 0);
    let Some(disk) = &outcome.disk else {
        return Ok(Vec::new(alloc));
    };
    Ok(disk.image(0)?)
}

/// The flag at a mark.
fn flag_at(flags: &[Flag], mark: &Mark) -> Result<Flag, Memory> {
    match flags.get(mark.flag) {
        Some(flag) => flag.again(),
        None => Err(Memory),
    }
}

/// A hold of reads or of writes at a mark.
fn hold_at(flags: &[Flag], mark: &Mark, is_read: bool) -> Result<Hold, Memory> {
    Ok(Hold {
        flag: flag_at(flags, mark)?,
        reads_from: if is_read { Some(mark.bytes) } else { None },
        writes_from: if is_read { None } else { Some(mark.bytes) },
    })
}

fn plan_of(alloc: Global, flags: &[Flag], part: &Part) -> Result<LinkPlan, Fail> {
    let mut plan = LinkPlan::new(alloc);
    for mark in part.sets {
        let flag = flag_at(flags, mark)?;
        let put = mark.bytes;
        plan.flags.signals.push(Signal { flag, put })?;
    }
    for mark in part.reads_wait {
        plan.cuts.push(mark.bytes)?;
        plan.flags.holds.push(hold_at(flags, mark, true)?)?;
    }
    for mark in part.writes_wait {
        plan.flags.holds.push(hold_at(flags, mark, false)?)?;
    }
    Ok(plan)
}

pub(crate) fn client_of(alloc: Global, flags: &[Flag], part: &Part) -> Result<Client, Fail> {
    let mut input = Vec::from_slice(alloc, part.sends)?;
    for _ in 0..part.times {
        input.extend_from_slice(part.line)?;
    }
    let plan = plan_of(alloc, flags, part)?;
    Ok(Client { input, plan })
}

/// The gate of a client.
fn gate_of(alloc: Global, flags: &[Flag], part: &Part) -> Result<GatePlan, Fail> {
    let mut clients = VecDeque::new(alloc);
    clients.push_back(client_of(alloc, flags, part)?)?;
    Ok(GatePlan {
        clients,
        script: Script::new(alloc),
    })
}

/// The flags of a row.
pub(crate) fn new_flags(alloc: Global) -> Result<Vec<Flag>, Fail> {
    let mut flags = Vec::new(alloc);
    for _ in 0..3 {
        flags.push(Flag::new(alloc)?)?;
    }
    Ok(flags)
}

fn gates_of(alloc: Global, parts: &[Part]) -> Result<Vec<GatePlan>, Fail> {
    let flags = new_flags(alloc)?;
    let mut gates = Vec::new(alloc);
    for part in parts {
        gates.push(gate_of(alloc, &flags, part)?)?;
    }
    Ok(gates)
}

/// What was put to a client is one of the two, or begins with one where more may be put.
pub(crate) fn is_put(part: &Part, put: &[u8]) -> bool {
    let [first, second] = part.put;
    if part.may_be_more {
        put.starts_with(first) || put.starts_with(second)
    } else {
        put == first || put == second
    }
}

/// Each gate gave its one link back as the client's part says.
fn check_gates(rt: &impl Abort, gates: &[MemoryGate], parts: &[Part]) {
    assert_eq!(rt; gates.len(), parts.len());
    for (gate, part) in gates.iter().zip(parts) {
        let returned = gate.returned();
        assert_eq!(rt; returned.len(), 1);
        for (link, served) in returned {
            assert_eq!(rt; served.end, part.end);
            assert!(rt; is_put(part, link.output()));
        }
    }
}

/// The clients are served by two workers as their parts say.
fn check_parts<R: Abort + Threads + Wait + Sync>(
    rt: &R,
    alloc: Global,
    parts: &[Part],
) -> Result<(), Fail> {
    let words = words_of(alloc, &["serve", "s", "4894", "2"])?;
    let mut world = world_of(alloc, new_store(rt, alloc)?, gates_of(alloc, parts)?)?;
    let outcome = run(rt, alloc, &words, &mut world);
    assert_eq!(rt; outcome.status, 0);
    match &outcome.end {
        Some(closing) => check_gates(rt, closing.gates.as_slice(), parts),
        None => assert!(rt; false),
    }
    Ok(())
}

/// The one's second line waits until the other is answered.
pub(crate) static SIDE_BY_SIDE: [Part; 2] = [
    Part {
        sends: b"A1Ha\n1 56\n",
        reads_wait: &[Mark { flag: 0, bytes: 5 }],
        put: [b"LysKOM\n=1 1\n", b"LysKOM\n=1 2\n"],
        ..ALONE
    },
    Part {
        sends: b"A1Hb\n1 56\n",
        sets: &[Mark { flag: 0, bytes: 12 }],
        put: [b"LysKOM\n=1 1\n", b"LysKOM\n=1 2\n"],
        ..ALONE
    },
];

#[test]
fn workers_serve_side_by_side(rt: HostRuntime) -> Result<(), Fail> {
    check_parts(&rt, rt.alloc(), &SIDE_BY_SIDE)
}

/// The one sends the other, which has nothing more to say, a message, and goes on when that is put.
static IDLE: [Part; 2] = [
    Part {
        sends: b"A1Ha\n1 62 5 0H 0\n2 53 0 2Hyo\n3 56\n",
        sets: &[Mark { flag: 2, bytes: 18 }],
        reads_wait: &[Mark { flag: 0, bytes: 17 }, Mark { flag: 1, bytes: 29 }],
        put: [b"LysKOM\n=1\n=2\n=3 1\n", b"LysKOM\n=1\n=2\n=3 2\n"],
        ..ALONE
    },
    Part {
        sends: b"A1Hb\n1 62 5 0H 0\n2 80 1 { 12 }\n",
        sets: &[Mark { flag: 0, bytes: 13 }, Mark { flag: 1, bytes: 28 }],
        reads_wait: &[Mark { flag: 2, bytes: 31 }],
        put: [
            b"LysKOM\n=1\n=2\n:3 12 0 5 2Hyo\n",
            b"LysKOM\n=1\n=2\n:3 12 0 5 2Hyo\n",
        ],
        ..ALONE
    },
];

#[test]
fn an_idle_session_is_drained(rt: HostRuntime) -> Result<(), Fail> {
    check_parts(&rt, rt.alloc(), &IDLE)
}

/// The one writes 4,161 texts once the other, a member of their conference, has asked for their
/// messages. That one reads and takes nothing until the last of them is answered: 64 messages were
/// drained for it at most, so 4,097 wait, one more than may.
static OVERRUN: [Part; 2] = [
    Part {
        sends: b"A1Ha\n1 62 5 0H 0\n2 88 4HOpen 0000 0 { }\n3 100 6 5 9 0 00000000\n",
        times: 4161,
        line: b"4 86 1Ha 1 { 0 6 } 0 { }\n",
        sets: &[Mark {
            flag: 1,
            bytes: 32_199,
        }],
        reads_wait: &[Mark { flag: 0, bytes: 63 }],
        put: [
            b"LysKOM\n=1\n=2 6\n=3\n=4 1\n=4 2\n",
            b"LysKOM\n=1\n=2 6\n=3\n=4 1\n=4 2\n",
        ],
        may_be_more: true,
        ..ALONE
    },
    Part {
        sends: b"A1Hb\n1 62 5 0H 0\n2 80 1 { 15 }\n",
        sets: &[Mark { flag: 0, bytes: 13 }],
        reads_wait: &[Mark { flag: 1, bytes: 31 }],
        writes_wait: &[Mark { flag: 1, bytes: 13 }],
        put: [b"LysKOM\n=1\n=2\n", b"LysKOM\n=1\n=2\n"],
        may_be_more: true,
        end: SessionEnd::Overrun,
        ..ALONE
    },
];

#[test]
fn a_session_that_takes_nothing_is_overrun(rt: HostRuntime) -> Result<(), Fail> {
    check_parts(&rt, rt.alloc(), &OVERRUN)
}
