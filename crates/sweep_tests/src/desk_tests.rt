//! A sweep of a desk that answers each call with the number of the session, and refuses by a plan.
use kom_sweep::{SweepEnd, sweep};
use kom_types::{Act, Moment, NotMade, Record, Why};
use memory_links::{DeskPlan, MemoryClock, MemoryDesk};
use std::alloc::Global;
use std::process::Abort;
use std::test::Fail;

/// The number of the act that is refused, 0 for none; its fault; and the end.
type Row = (u64, NotMade, SweepEnd);

const STOPPED: NotMade = NotMade::Gone(Why::Stopped);

const LOCK_FULL: u64 = 1 << 62;

/// One conference and one text are given, of which nothing is told: so none is due.
const DONE: SweepEnd = SweepEnd::Done { swept: 0, kept: 1 };

static ROWS: [Row; 8] = [
    (0, STOPPED, DONE),
    (
        1,
        NotMade::Full(4_294_967_295),
        SweepEnd::Full(4_294_967_295),
    ),
    (2, NotMade::Gone(Why::Dropped), SweepEnd::Gone(Why::Dropped)),
    (3, STOPPED, SweepEnd::Gone(Why::Stopped)),
    (4, NotMade::Memory, SweepEnd::Memory),
    // the question for the next text, and the logout
    (
        20,
        NotMade::Gone(Why::Overrun),
        SweepEnd::Gone(Why::Overrun),
    ),
    (31, NotMade::Memory, SweepEnd::Memory),
    (32, NotMade::Full(LOCK_FULL), SweepEnd::Full(LOCK_FULL)),
];

#[test]
fn a_fault_of_the_desk_gives_the_end(rt: HostRuntime) -> Result<(), Fail> {
    for row in ROWS.iter() {
        let (end, _) = swept(rt.alloc(), row)?;
        assert!(rt; end == row.2);
    }
    Ok(())
}

#[test]
fn each_call_is_flushed_and_drained(rt: HostRuntime) -> Result<(), Fail> {
    let (_, acts) = swept(rt.alloc(), &ROWS[0])?;
    assert!(rt; acts.as_slice() == b"Ccfdcfdcfdcfdcfdcfdcfdcfdcfdcfdx".as_slice());
    let (_, acts) = swept(rt.alloc(), &ROWS[3])?;
    assert!(rt; acts.as_slice() == b"Ccx".as_slice());
    Ok(())
}

/// What a sweep comes to, and the letters of the acts that it makes.
fn swept(alloc: Global, row: &Row) -> Result<(SweepEnd, Vec<u8>), Fail> {
    let mut plan = DeskPlan::new(alloc);
    plan.refusals.push((row.0, row.1))?;
    let mut desk = MemoryDesk::new(alloc, 1, plan);
    let mut script = Vec::new(alloc);
    script.push(Moment::at_most(0))?;
    let mut clock = MemoryClock::new(script);
    let end = sweep(alloc, &mut desk, &mut clock, 5, b"");
    let acts = letters(alloc, desk.records())?;
    Ok((end, acts))
}

/// A letter for each act.
fn letters(alloc: Global, records: &[Record]) -> Result<Vec<u8>, Fail> {
    let mut letters = Vec::new(alloc);
    for record in records.iter() {
        letters.push(letter(&record.entry.act))?;
    }
    Ok(letters)
}

fn letter(act: &Act) -> u8 {
    match act {
        Act::Connect { .. } => b'C',
        Act::Call { .. } => b'c',
        Act::Broken { .. } => b'b',
        Act::Drain { .. } => b'd',
        Act::Flush => b'f',
        Act::Close { .. } => b'x',
    }
}
