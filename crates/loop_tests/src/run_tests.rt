//! Runs of the top call in a world in memory, each with its clients one after the other.
use kom_links::{Served, SessionEnd};
use kom_server::{Outcome, run};
use kom_types::{Moment, Words};
use memory_links::{
    Client, GatePlan, LinkPlan, MemoryClock, MemoryGate, MemoryLink, MemoryWorld, Script,
};
use std::alloc::Global;
use std::collections::VecDeque;
use std::process::Abort;
use std::sync::Wait;
use std::test::Fail;
use std::thread::Threads;

/// A greeting and the call for the caller's session number, and the answers.
const ASKS: &[u8] = b"A5Hceder\n1 56\n";

const ANSWERS: &[u8] = b"LysKOM\n=1 1\n";

const TOLD: &[u8] = b"LysKOM\n%%Protocol error.\n";

/// The words of a run, what its clients send, how the world departs from serving them at once, and
/// what the run leaves. The numbers of what waits or fails are 0 for none.
#[derive(Clone, Copy)]
struct Row {
    words: &'static [&'static str],
    inputs: &'static [&'static [u8]],
    // How many bytes a read and a write give and take at most, and the place where a read stops; 0
    // sets no limit.
    most: usize,
    cut: usize,
    // The read and the write of a link at which nothing is ready, and those that fail.
    read_waits: u64,
    write_waits: u64,
    read_fails: u64,
    write_fails: u64,
    // Whether there is a gate, its call at which nobody has come, and the one that fails.
    has_gate: bool,
    gate_waits: u64,
    gate_fails: u64,
    // The write of the report that fails.
    sink_fails: u64,
    status: u8,
    // How often the clock was read, where that is counted: at the opening, and for each act.
    readings: Option<u64>,
    // What is put to each link that is given back, and how its session ends.
    left: &'static [(&'static [u8], SessionEnd)],
    report: &'static [u8],
}

/// One client asks for its number and is served at once.
const PLAIN: Row = Row {
    words: &["once"],
    inputs: &[ASKS],
    most: 0,
    cut: 0,
    read_waits: 0,
    write_waits: 0,
    read_fails: 0,
    write_fails: 0,
    has_gate: true,
    gate_waits: 0,
    gate_fails: 0,
    sink_fails: 0,
    status: 0,
    readings: None,
    left: &[(ANSWERS, SessionEnd::End)],
    report: b"",
};

/// The world of a row.
fn world_of(alloc: Global, row: &Row) -> Result<MemoryWorld, Fail> {
    let gate = if row.has_gate {
        Some(gate_of(alloc, row)?)
    } else {
        None
    };
    let moments = [Moment::at_most(951_782_400)];
    let moments = Vec::from_slice(alloc, &moments)?;
    let fails = Vec::from_slice(alloc, &[row.sink_fails])?;
    Ok(MemoryWorld::new(alloc, gate, moments, fails))
}

/// The gate of a row.
fn gate_of(alloc: Global, row: &Row) -> Result<GatePlan, Fail> {
    let mut clients = VecDeque::new(alloc);
    for input in row.inputs {
        clients.push_back(client_of(alloc, row, *input)?)?;
    }
    let script = script_of(alloc, row.gate_waits, row.gate_fails)?;
    Ok(GatePlan { clients, script })
}

/// A client of a row that sends this.
fn client_of(alloc: Global, row: &Row, input: &[u8]) -> Result<Client, Fail> {
    let mut plan = LinkPlan::new(alloc);
    plan.cuts.push(row.cut)?;
    plan.most_read = row.most;
    plan.most_written = row.most;
    plan.reads = script_of(alloc, row.read_waits, row.read_fails)?;
    plan.writes = script_of(alloc, row.write_waits, row.write_fails)?;
    Ok(Client {
        input: Vec::from_slice(alloc, input)?,
        plan,
    })
}

/// A script at whose call of this number nothing is ready, and one that fails; 0 is no call.
fn script_of(alloc: Global, waits: u64, fails: u64) -> Result<Script, Fail> {
    let mut script = Script::new(alloc);
    script.waits.push(waits)?;
    script.fails.push(fails)?;
    Ok(script)
}

/// Each row's run leaves what the row says.
fn check_rows<R: Abort + Threads + Wait + Sync>(
    rt: &R,
    alloc: Global,
    rows: &[Row],
) -> Result<(), Fail> {
    for row in rows {
        let mut words = Words::new(alloc);
        for word in row.words {
            words.push(*word)?;
        }
        check_run(rt, alloc, &words, &mut world_of(alloc, row)?, row);
    }
    Ok(())
}

fn check_run<R: Abort + Threads + Wait + Sync>(
    rt: &R,
    alloc: Global,
    words: &Words,
    world: &mut MemoryWorld,
    row: &Row,
) {
    let outcome = run(rt, alloc, words, world);
    check_outcome(rt, &outcome, row);
}

fn check_outcome(rt: &impl Abort, outcome: &Outcome<MemoryWorld>, row: &Row) {
    assert_eq!(rt; outcome.status, row.status);
    assert_eq!(rt; outcome.sink.output(), row.report);
    match &outcome.end {
        Some(closing) => check_left(rt, closing.gates.as_slice(), closing.clocks.as_slice(), row),
        None => assert!(rt; row.left.is_empty()),
    }
}

fn check_left(rt: &impl Abort, gates: &[MemoryGate], clocks: &[MemoryClock], row: &Row) {
    if let Some(readings) = row.readings {
        for clock in clocks {
            assert_eq!(rt; clock.made(), readings);
        }
    }
    for gate in gates {
        check_returned(rt, gate.returned(), row.left);
    }
}

/// These bytes were put to the links that were given back, and so their sessions ended.
pub(crate) fn check_returned(
    rt: &impl Abort,
    returned: &[(MemoryLink, Served)],
    left: &[(&[u8], SessionEnd)],
) {
    assert_eq!(rt; returned.len(), left.len());
    for ((link, served), (put, end)) in returned.iter().zip(left) {
        assert_eq!(rt; link.output(), *put);
        assert_eq!(rt; served.end, *end);
    }
}

const FAULTY_LINE: Row = Row {
    inputs: &[b"A5Hceder\n1 +5\n"],
    left: &[(TOLD, SessionEnd::Broken(11))],
    ..PLAIN
};

static ANSWERED: [Row; 9] = [
    PLAIN,
    Row { most: 1, ..PLAIN },
    Row {
        inputs: &[b"A5Hceder\n1 56\n2 5"],
        most: 3,
        ..PLAIN
    },
    Row {
        inputs: &[b"A1Ha\n1 84 1\n"],
        left: &[(
            b"LysKOM\n=1 1Ha 6Hmemory 0H 0 0 0 29 1 100 2 59 0\n",
            SessionEnd::End,
        )],
        ..PLAIN
    },
    FAULTY_LINE,
    Row {
        most: 1,
        ..FAULTY_LINE
    },
    Row {
        inputs: &[b"A5Hceder\n5\n"],
        left: &[(TOLD, SessionEnd::Broken(10))],
        ..PLAIN
    },
    Row {
        inputs: &[b"B"],
        left: &[(b"%%Protocol error.\n", SessionEnd::Broken(0))],
        ..PLAIN
    },
    Row {
        inputs: &[b"A5Hcede"],
        left: &[(b"", SessionEnd::End)],
        ..PLAIN
    },
];

#[test]
fn a_client_is_answered_by_its_lines(rt: HostRuntime) -> Result<(), Fail> {
    check_rows(&rt, rt.alloc(), &ANSWERED)
}

/// What was read at once is settled together: a flush, a drain that gives all, and one that
/// gives nothing once that is written. A session that is there at a read at which nothing is
/// ready is settled too.
const WHOLE: Row = Row {
    cut: 9,
    readings: Some(10),
    ..PLAIN
};

const BROKEN_LINK: Row = Row {
    left: &[(b"", SessionEnd::LinkFault)],
    ..WHOLE
};

static LINK_FAILS: [Row; 10] = [
    Row {
        read_waits: 1,
        ..WHOLE
    },
    Row {
        read_waits: 2,
        readings: Some(12),
        ..WHOLE
    },
    Row {
        write_waits: 1,
        ..WHOLE
    },
    Row {
        write_waits: 2,
        ..WHOLE
    },
    Row {
        read_fails: 1,
        readings: Some(1),
        ..BROKEN_LINK
    },
    Row {
        read_fails: 2,
        readings: Some(6),
        left: &[(b"LysKOM\n", SessionEnd::LinkFault)],
        ..BROKEN_LINK
    },
    Row {
        read_fails: 3,
        readings: Some(10),
        left: &[(ANSWERS, SessionEnd::LinkFault)],
        ..BROKEN_LINK
    },
    Row {
        cut: 0,
        read_fails: 2,
        readings: Some(7),
        left: &[(ANSWERS, SessionEnd::LinkFault)],
        ..BROKEN_LINK
    },
    Row {
        write_fails: 1,
        cut: 0,
        readings: Some(6),
        ..BROKEN_LINK
    },
    Row {
        write_fails: 2,
        readings: Some(9),
        left: &[(b"LysKOM\n", SessionEnd::LinkFault)],
        ..BROKEN_LINK
    },
];

#[test]
fn a_link_that_fails_ends_its_session_alone(rt: HostRuntime) -> Result<(), Fail> {
    check_rows(&rt, rt.alloc(), &LINK_FAILS)
}

const NO_GATE: Row = Row {
    status: 5,
    left: &[],
    ..PLAIN
};

static GATE_FAILS: [Row; 6] = [
    Row {
        gate_waits: 1,
        ..PLAIN
    },
    Row {
        gate_waits: 2,
        ..PLAIN
    },
    Row {
        gate_fails: 1,
        ..NO_GATE
    },
    Row {
        gate_fails: 2,
        status: 5,
        ..PLAIN
    },
    Row {
        gate_waits: 1,
        gate_fails: 2,
        ..NO_GATE
    },
    Row {
        has_gate: false,
        ..NO_GATE
    },
];

#[test]
fn a_gate_that_fails_ends_the_run(rt: HostRuntime) -> Result<(), Fail> {
    check_rows(&rt, rt.alloc(), &GATE_FAILS)
}

const REFUSED: Row = Row {
    words: &[],
    has_gate: false,
    status: 2,
    left: &[],
    report: b"usage: komd once [STORE] | serve STORE PORT WORKERS | hub STORE PORT WORKERS \
        | init STORE PASSWORD | check STORE | load N \
        | sweep STORE PERSON PASSWORD\n",
    ..PLAIN
};

static WORDS_REFUSED: [Row; 4] = [
    REFUSED,
    Row {
        words: &["twice"],
        ..REFUSED
    },
    Row {
        words: &["once", "more", "words"],
        ..REFUSED
    },
    Row {
        words: &["once", ""],
        sink_fails: 1,
        report: b"",
        ..REFUSED
    },
];

#[test]
fn other_words_are_refused(rt: HostRuntime) -> Result<(), Fail> {
    check_rows(&rt, rt.alloc(), &WORDS_REFUSED)
}

static ENDED: [Row; 4] = [
    Row {
        inputs: &[b"A1Ha\n1 56\n2 {\n3 56\n"],
        left: &[(b"LysKOM\n=1 1\n%%Protocol error.\n", SessionEnd::Broken(13))],
        ..PLAIN
    },
    // What comes after a session ended itself is not called; the next client is served.
    Row {
        inputs: &[b"A1Ha\n1 55 0\n2 56\n", b"A1Hb\n1 56\n"],
        left: &[
            (b"LysKOM\n=1\n", SessionEnd::Dropped),
            (b"LysKOM\n=1 2\n", SessionEnd::End),
        ],
        ..PLAIN
    },
    // Nothing is called after the server was shut down, and nobody is greeted.
    Row {
        inputs: &[
            b"A1Ha\n1 62 5 0H 0\n2 42 255\n3 44 0\n4 56\n5 56\n",
            b"A1Hb\n1 56\n",
        ],
        left: &[
            (b"LysKOM\n=1\n=2\n=3\n", SessionEnd::Stopped),
            (b"", SessionEnd::Stopped),
        ],
        ..PLAIN
    },
    // Who is not privileged shuts nothing down.
    Row {
        inputs: &[b"A1Ha\n1 62 5 0H 0\n2 44 0\n3 56\n", b"A1Hb\n1 56\n"],
        left: &[
            (b"LysKOM\n=1\n%2 12 0\n=3 1\n", SessionEnd::End),
            (b"LysKOM\n=1 2\n", SessionEnd::End),
        ],
        ..PLAIN
    },
];

#[test]
fn a_session_ends_by_its_client_or_by_a_call(rt: HostRuntime) -> Result<(), Fail> {
    check_rows(&rt, rt.alloc(), &ENDED)
}

/// Makes conference 6, and persons 7, 8 and 9.
const SETS_UP: &[u8] = b"A5Hceder\n\
    1 62 5 0H 0\n\
    2 88 4HOpen 0000 0 { }\n\
    3 89 2HBo 1Hb 00000000 0 { }\n\
    4 89 2HCy 1Hc 00000000 0 { }\n\
    5 89 2HDi 1Hd 00000000 0 { }\n";

/// What person 9 asks before the letter is sent to it too, and then.
const LOOKS: &[u8] = b"A2HDi\n1 62 9 1Hd 0\n2 78 8\n3 90 1\n";

const READS: &[u8] = b"A2HDi\n1 62 9 1Hd 0\n4 25 1 0 9\n";

/// By which person 7 sends the letter to person 9 too.
const ADDS: &[u8] = b"A2HBo\n1 62 7 1Hb 0\n2 30 1 9 0\n";

/// What is sent for these in both worlds, and for the letter.
const SET_UP: (&[u8], SessionEnd) = (b"LysKOM\n=1\n=2 6\n=3 7\n=4 8\n=5 9\n", SessionEnd::End);

const WRITTEN: (&[u8], SessionEnd) = (b"LysKOM\n=1\n=2 1\n", SessionEnd::End);

const LOOKED: (&[u8], SessionEnd) = (
    b"LysKOM\n=1\n=2 2HCy 10011000 1 77\n%3 14 1\n",
    SessionEnd::End,
);

const ADDED: (&[u8], SessionEnd) = (b"LysKOM\n=1\n=2\n", SessionEnd::End);

/// Person 7 writes a letter to person 8, with an item on it: one in the one world, and another in
/// the other. Person 9 is sent the same in both, until 7 adds 9 as a recipient.
static TWO_WORLDS: [Row; 2] = [
    Row {
        inputs: &[
            SETS_UP,
            b"A2HBo\n1 62 7 1Hb 0\n2 86 4Hyes! 1 { 0 8 } 1 { 3 00000000 1 1Hp }\n",
            LOOKS,
            ADDS,
            READS,
        ],
        left: &[
            SET_UP,
            WRITTEN,
            LOOKED,
            ADDED,
            (b"LysKOM\n=1\n=4 4Hyes!\n", SessionEnd::End),
        ],
        ..PLAIN
    },
    Row {
        inputs: &[
            SETS_UP,
            b"A2HBo\n1 62 7 1Hb 0\n2 86 4Hno!! 1 { 0 8 } 1 { 3 00000000 1 1Hq }\n",
            LOOKS,
            ADDS,
            READS,
        ],
        left: &[
            SET_UP,
            WRITTEN,
            LOOKED,
            ADDED,
            (b"LysKOM\n=1\n=4 4Hno!!\n", SessionEnd::End),
        ],
        ..PLAIN
    },
];

#[test]
fn a_letter_of_others_changes_nothing_in_two_worlds(rt: HostRuntime) -> Result<(), Fail> {
    check_rows(&rt, rt.alloc(), &TWO_WORLDS)
}
