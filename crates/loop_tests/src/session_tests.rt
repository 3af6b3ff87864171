//! The session loop over a desk in memory.
ghost use Rattle.std.specs.Prelude.{◌≡◌, [], None, IfOk};
ghost use Rattle.kom_session.specs.Ends.{IsUntouched};

use kom_links::{Desk, Got, Link, Served, SessionEnd, Took};
use kom_session::serve_link;
use kom_types::{Act, Moment, NotMade, Record, Why};
use memory_links::{DeskPlan, LinkPlan, MemoryClock, MemoryDesk, MemoryLink, Script};
use std::alloc::Global;
use std::process::Abort;
use std::sync::Wait;
use std::test::Fail;

/// A greeting and one call.
const ASKS: &[u8] = b"A5Hceder\n1 56\n";

const HELLO: &[u8] = b"LysKOM\n";

const ANSWERS: &[u8] = b"LysKOM\n=1 1\n";

/// A greeting and a line that is at fault.
const FAULTY: &[u8] = b"A5Hceder\n1 +5\n";

const TOLD: &[u8] = b"LysKOM\n%%Protocol error.\n";

const OVERRUN: NotMade = NotMade::Gone(Why::Overrun);

const DROPPED: NotMade = NotMade::Gone(Why::Dropped);

const STOPPED: NotMade = NotMade::Gone(Why::Stopped);

const MOST_SESSIONS: u64 = 4_294_967_295;

const LOCK_FULL: u64 = 1 << 62;

/// What a client sends, how its link and the desk depart from serving it at once, and how it is
/// served. The numbers of what waits, fails or gives nothing are 0 for none.
#[derive(Clone, Copy)]
struct Row {
    input: &'static [u8],
    // How many bytes the first read gives at most; 0 sets no limit.
    first_read: usize,
    // The read and the write at which nothing is ready, and those that fail.
    read_waits: u64,
    write_waits: u64,
    read_fails: u64,
    write_fails: u64,
    // How many bytes a write takes at most, and how many items a drain gives at most.
    most_written: usize,
    most_drained: usize,
    // The act that, if it is a drain, gives nothing.
    idle_drain: u64,
    // The questions from which on the desk is stopped, and no turn of the lock is left.
    stops: u64,
    lock_ends: u64,
    // The numbers of the acts that are refused, each with its fault.
    refusals: &'static [(u64, NotMade)],
    session: u32,
    // The letters of the acts that are made, where they are looked at.
    made: Option<&'static [u8]>,
    put: &'static [u8],
    end: SessionEnd,
}

/// A greeting and a call that come together and are served at once.
const PLAIN: Row = Row {
    input: ASKS,
    first_read: 0,
    read_waits: 0,
    write_waits: 0,
    read_fails: 0,
    write_fails: 0,
    most_written: 0,
    most_drained: 0,
    idle_drain: 0,
    stops: 0,
    lock_ends: 0,
    refusals: &[],
    session: 1,
    made: None,
    put: ANSWERS,
    end: SessionEnd::End,
};

/// The letter of an act.
fn letter_of(act: &Act) -> u8 {
    match act {
        Act::Connect { .. } => b'C',
        Act::Call { .. } => b'c',
        Act::Broken { .. } => b'b',
        Act::Drain { .. } => b'd',
        Act::Flush => b'f',
        Act::Close { .. } => b'x',
    }
}

/// The desk of a row.
fn desk_of(alloc: Global, row: &Row) -> Result<MemoryDesk, Fail>
    ensures { IfOk result (λ desk. (⟦<MemoryDesk as Desk>⟧.view desk).answers ≡ []) }
{
    let mut plan = DeskPlan::new(alloc);
    plan.refusals = Vec::from_slice(alloc, row.refusals)?;
    plan.idle_drains.push(row.idle_drain)?;
    plan.stops = row.stops;
    plan.lock_ends = row.lock_ends;
    plan.most_drained = row.most_drained;
    Ok(MemoryDesk::new(alloc, 0, plan))
}

/// The link of a row.
fn link_of(alloc: Global, row: &Row) -> Result<MemoryLink, Fail>
    ensures { IfOk result (λ link. IsUntouched (⟦<MemoryLink as Link>⟧.view link)) }
{
    let mut plan = LinkPlan::new(alloc);
    plan.cuts.push(row.first_read)?;
    plan.most_written = row.most_written;
    plan.reads = script_of(alloc, row.read_waits, row.read_fails)?;
    plan.writes = script_of(alloc, row.write_waits, row.write_fails)?;
    Ok(MemoryLink::new(alloc, Vec::from_slice(alloc, row.input)?, plan))
}

/// A script at whose call of this number nothing is ready, and one that fails; 0 is no call.
fn script_of(alloc: Global, waits: u64, fails: u64) -> Result<Script, Fail> {
    let mut script = Script::new(alloc);
    script.waits.push(waits)?;
    script.fails.push(fails)?;
    Ok(script)
}

/// A clock that gives one moment.
fn clock_of(alloc: Global) -> Result<MemoryClock, Fail> {
    let moments = [Moment::at_most(951_782_400)];
    Ok(MemoryClock::new(Vec::from_slice(alloc, &moments)?))
}

/// Each row's client is served as the row says.
fn check_rows<R: Abort + Wait>(rt: &R, alloc: Global, rows: &[Row]) -> Result<(), Fail> {
    for row in rows {
        check_row(rt, alloc, row)?;
    }
    Ok(())
}

fn check_row<R: Abort + Wait>(rt: &R, alloc: Global, row: &Row) -> Result<(), Fail> {
    let mut desk = desk_of(alloc, row)?;
    let mut link = link_of(alloc, row)?;
    let mut clock = clock_of(alloc)?;
    let served = serve_link(rt, alloc, &mut desk, &mut link, &mut clock);
    check_left(rt, desk.records(), link.output(), served, row);
    Ok(())
}

/// The acts that were made, what was put to the link, and how it was served are those of a row.
fn check_left(rt: &impl Abort, records: &[Record], output: &[u8], served: Served, row: &Row) {
    assert_eq!(rt;
        served,
        Served {
            session: row.session,
            end: row.end
        }
    );
    assert_eq!(rt; output, row.put);
    if let Some(made) = row.made {
        assert_eq!(rt; records.len(), made.len());
        for (record, letter) in records.iter().zip(made) {
            assert_eq!(rt; letter_of(&record.entry.act), *letter);
        }
    }
}

const FEW: Row = Row {
    most_drained: 2,
    ..PLAIN
};

static SETTLED: [Row; 4] = [
    Row {
        input: b"A5Hceder\n",
        made: Some(b"Cfddx"),
        put: HELLO,
        ..FEW
    },
    Row {
        input: b"A5Hceder\n1 56\n2 56\n3 56\n4 56\n",
        made: Some(b"Cccccfddddx"),
        put: b"LysKOM\n=1 1\n=2 1\n=3 1\n=4 1\n",
        ..FEW
    },
    Row {
        input: b"A5Hceder\n1 56\n2 56\n3 56\n4 56\n5 56\n",
        made: Some(b"Cccccfddddcfddx"),
        put: b"LysKOM\n=1 1\n=2 1\n=3 1\n=4 1\n=5 1\n",
        ..FEW
    },
    Row {
        input: b"A5Hceder\n1 56\n2 56\n3 +",
        made: Some(b"Cccbfdddx"),
        put: b"LysKOM\n=1 1\n=2 1\n%%Protocol error.\n",
        end: SessionEnd::Broken(21),
        ..FEW
    },
];

#[test]
fn four_lines_are_settled_together(rt: HostRuntime) -> Result<(), Fail> {
    check_rows(&rt, rt.alloc(), &SETTLED)
}

/// What is read first, and what comes after it, is whole or in fault by itself.
const FAULT_TOLD: Row = Row {
    put: TOLD,
    end: SessionEnd::Broken(11),
    ..PLAIN
};

static AT_FAULT: [Row; 5] = [
    Row {
        input: b"A5Hceder\n1 x",
        ..FAULT_TOLD
    },
    Row {
        input: b"A5Hceder\n1 x",
        first_read: 9,
        ..FAULT_TOLD
    },
    Row {
        input: b"A5Hceder\n1 x1 56\n",
        first_read: 12,
        ..FAULT_TOLD
    },
    Row {
        input: b"A5Hceder\n1 56\n2 56\n",
        first_read: 3,
        put: b"LysKOM\n=1 1\n=2 1\n",
        end: SessionEnd::End,
        ..FAULT_TOLD
    },
    Row {
        input: b"B5Hceder\n",
        first_read: 1,
        session: 0,
        put: b"%%Protocol error.\n",
        end: SessionEnd::Broken(0),
        ..FAULT_TOLD
    },
];

#[test]
fn a_stream_that_is_at_fault_is_told_where(rt: HostRuntime) -> Result<(), Fail> {
    check_rows(&rt, rt.alloc(), &AT_FAULT)
}

/// The greeting and the line come together: the connect is act 1, the call, or that the stream
/// is at fault, 2, the flush 3, the drains 4 and 5, and the close 6. After a call that is
/// refused with Dropped or Stopped what waits is sent.
const UNANSWERED: Row = Row { put: b"", ..PLAIN };

const LINE_AT_FAULT: Row = Row {
    input: FAULTY,
    put: TOLD,
    ..PLAIN
};

static DESK_FAULTS: [Row; 21] = [
    Row {
        put: ANSWERS,
        ..UNANSWERED
    },
    Row {
        refusals: &[(1, STOPPED)],
        session: 0,
        end: SessionEnd::Stopped,
        ..UNANSWERED
    },
    Row {
        refusals: &[(1, NotMade::Full(MOST_SESSIONS))],
        session: 0,
        end: SessionEnd::Full(MOST_SESSIONS),
        ..UNANSWERED
    },
    Row {
        refusals: &[(1, NotMade::Memory)],
        session: 0,
        end: SessionEnd::Memory,
        ..UNANSWERED
    },
    Row {
        refusals: &[(2, OVERRUN)],
        end: SessionEnd::Overrun,
        ..UNANSWERED
    },
    Row {
        refusals: &[(2, DROPPED)],
        put: ANSWERS,
        end: SessionEnd::Dropped,
        ..UNANSWERED
    },
    Row {
        refusals: &[(2, STOPPED)],
        put: ANSWERS,
        end: SessionEnd::Stopped,
        ..UNANSWERED
    },
    Row {
        refusals: &[(2, STOPPED), (3, STOPPED)],
        end: SessionEnd::Stopped,
        ..UNANSWERED
    },
    Row {
        refusals: &[(2, NotMade::Full(LOCK_FULL))],
        end: SessionEnd::Full(LOCK_FULL),
        ..UNANSWERED
    },
    Row {
        refusals: &[(2, NotMade::Memory)],
        end: SessionEnd::Memory,
        ..UNANSWERED
    },
    Row {
        refusals: &[(3, STOPPED)],
        end: SessionEnd::Stopped,
        ..UNANSWERED
    },
    Row {
        refusals: &[(3, NotMade::Memory)],
        end: SessionEnd::Memory,
        ..UNANSWERED
    },
    Row {
        refusals: &[(4, OVERRUN)],
        end: SessionEnd::Overrun,
        ..UNANSWERED
    },
    Row {
        refusals: &[(5, OVERRUN)],
        put: ANSWERS,
        end: SessionEnd::Overrun,
        ..UNANSWERED
    },
    Row {
        refusals: &[(6, NotMade::Full(LOCK_FULL))],
        put: ANSWERS,
        end: SessionEnd::Full(LOCK_FULL),
        ..UNANSWERED
    },
    Row {
        refusals: &[(2, DROPPED), (5, OVERRUN)],
        put: ANSWERS,
        end: SessionEnd::Dropped,
        ..UNANSWERED
    },
    Row {
        end: SessionEnd::Broken(11),
        ..LINE_AT_FAULT
    },
    Row {
        refusals: &[(2, OVERRUN)],
        end: SessionEnd::Overrun,
        ..LINE_AT_FAULT
    },
    Row {
        refusals: &[(3, NotMade::Memory)],
        put: b"",
        end: SessionEnd::Memory,
        ..LINE_AT_FAULT
    },
    Row {
        input: b"B",
        session: 0,
        put: b"%%Protocol error.\n",
        end: SessionEnd::Broken(0),
        ..UNANSWERED
    },
    // A fault of the link goes before one of the desk.
    Row {
        refusals: &[(5, NotMade::Full(LOCK_FULL))],
        write_fails: 1,
        made: Some(b"Ccfd"),
        end: SessionEnd::LinkFault,
        ..UNANSWERED
    },
];

#[test]
fn the_first_fault_of_a_desk_gives_the_end(rt: HostRuntime) -> Result<(), Fail> {
    check_rows(&rt, rt.alloc(), &DESK_FAULTS)
}

/// The greeting and the call are read one by one, but where the first read gives both. Where a
/// stop is found, what waits is flushed, drained and written first.
const ONE_BY_ONE: Row = Row {
    first_read: 9,
    made: Some(b"Cfddcfddx"),
    ..PLAIN
};

static STOPPED_AT: [Row; 16] = [
    ONE_BY_ONE,
    // before a session
    Row {
        read_waits: 1,
        ..ONE_BY_ONE
    },
    Row {
        read_waits: 1,
        stops: 1,
        session: 0,
        made: Some(b""),
        put: b"",
        end: SessionEnd::Stopped,
        ..ONE_BY_ONE
    },
    Row {
        read_waits: 1,
        lock_ends: 1,
        session: 0,
        made: Some(b""),
        put: b"",
        end: SessionEnd::Full(LOCK_FULL),
        ..ONE_BY_ONE
    },
    // at a read
    Row {
        read_waits: 2,
        made: Some(b"Cfddfdcfddx"),
        ..ONE_BY_ONE
    },
    Row {
        read_waits: 2,
        stops: 1,
        made: Some(b"Cfddfdx"),
        put: HELLO,
        end: SessionEnd::Stopped,
        ..ONE_BY_ONE
    },
    Row {
        read_waits: 2,
        idle_drain: 3,
        stops: 1,
        made: Some(b"Cfdfddx"),
        put: HELLO,
        end: SessionEnd::Stopped,
        ..ONE_BY_ONE
    },
    Row {
        read_waits: 2,
        lock_ends: 1,
        made: Some(b"Cfddfdx"),
        put: HELLO,
        end: SessionEnd::Full(LOCK_FULL),
        ..ONE_BY_ONE
    },
    // while an item is written
    Row {
        write_waits: 1,
        ..ONE_BY_ONE
    },
    Row {
        write_waits: 1,
        stops: 1,
        made: Some(b"Cfdfdx"),
        put: HELLO,
        end: SessionEnd::Stopped,
        ..ONE_BY_ONE
    },
    Row {
        write_waits: 2,
        most_written: 3,
        stops: 1,
        made: Some(b"Cfdfdx"),
        put: HELLO,
        end: SessionEnd::Stopped,
        ..ONE_BY_ONE
    },
    Row {
        write_waits: 2,
        stops: 1,
        made: Some(b"Cfddcfdfdx"),
        put: ANSWERS,
        end: SessionEnd::Stopped,
        ..ONE_BY_ONE
    },
    Row {
        first_read: 14,
        write_waits: 1,
        most_drained: 1,
        idle_drain: 5,
        stops: 1,
        made: Some(b"Ccfdfddx"),
        end: SessionEnd::Stopped,
        ..ONE_BY_ONE
    },
    Row {
        write_waits: 1,
        lock_ends: 1,
        made: Some(b"Cfdfdx"),
        put: HELLO,
        end: SessionEnd::Full(LOCK_FULL),
        ..ONE_BY_ONE
    },
    // the link fails
    Row {
        write_fails: 2,
        made: Some(b"Cfddcfdx"),
        put: HELLO,
        end: SessionEnd::LinkFault,
        ..ONE_BY_ONE
    },
    Row {
        read_fails: 2,
        made: Some(b"Cfddx"),
        put: HELLO,
        end: SessionEnd::LinkFault,
        ..ONE_BY_ONE
    },
];

#[test]
fn a_wait_finds_the_desk_stopped(rt: HostRuntime) -> Result<(), Fail> {
    check_rows(&rt, rt.alloc(), &STOPPED_AT)
}

/// A link in memory whose client sends its second piece only after so many bytes were put to it.
#[derive(Drop)]
struct PatientLink {
    inner: MemoryLink,
    wants: usize,
    has_read: bool,
    // How often its client had to wait, at most a thousand times.
    waited: u64,
}

impl Link for PatientLink {
    ghost view = { λ link. record (⟦<MemoryLink as Link>⟧.view link.inner) { reads = None } };

    fn host(&self) -> &[u8] {
        self.inner.host()
    }

    fn faults(&self) -> u64 {
        self.inner.faults()
    }

    fn read(&mut self, into: &mut [u8]) -> Got {
        if self.has_read && self.waited < 1_000 && self.inner.output().len() < self.wants {
            self.waited = self.waited.saturating_add(1);
            return Got::NotYet;
        }
        self.has_read = true;
        self.inner.read(into)
    }

    fn write(&mut self, from: &[u8]) -> Took {
        self.inner.write(from)
    }
}

#[test]
fn a_client_may_wait_for_its_answer(rt: HostRuntime) -> Result<(), Fail> {
    let alloc = rt.alloc();
    let row = Row {
        input: b"A5Hceder\n1 56\n2 56\n",
        first_read: 14,
        put: b"LysKOM\n=1 1\n=2 1\n",
        ..PLAIN
    };
    let mut link = PatientLink {
        inner: link_of(alloc, &row)?,
        wants: ANSWERS.len(),
        has_read: false,
        waited: 0,
    };
    let mut desk = desk_of(alloc, &row)?;
    let mut clock = clock_of(alloc)?;
    let served = serve_link(&rt, alloc, &mut desk, &mut link, &mut clock);
    check_left(&rt, desk.records(), link.inner.output(), served, &row);
    assert_eq!(rt; link.waited, 0);
    Ok(())
}
