//! What a desk in memory returns by its plan.
ghost use Rattle.std.specs.Prelude.{ℕ, IfOk};
ghost use Rattle.kom_links.specs.Records.{IsOpen};

use arrayvec::ArrayVec;
use kom_links::Desk;
use kom_types::{Call, Item, Moment, NotMade, Reply, Why};
use memory_links::{DeskPlan, MemoryDesk};
use std::alloc::{AllocError, Global};
use std::process::Abort;
use std::test::Fail;

const DROPPED: NotMade = NotMade::Gone(Why::Dropped);

const STOPPED: NotMade = NotMade::Gone(Why::Stopped);

const LOCK_FULL: NotMade = NotMade::Full(1 << 62);

/// What a desk is asked for at a session.
#[derive(Clone, Copy)]
enum Asked {
    /// A call with this reference.
    Call(u32),
    Broken,
    Drain,
    Flush,
}

/// Whether the second of two sessions asks, what it asks for, and a letter for each item that it is
/// given, or the fault.
type Row = (bool, Asked, Result<&'static [u8], NotMade>);

static ROWS: [Row; 10] = [
    (false, Asked::Call(5), Ok(b"")),
    (false, Asked::Call(6), Err(DROPPED)),
    (true, Asked::Broken, Ok(b"")),
    (false, Asked::Flush, Err(NotMade::Memory)),
    (false, Asked::Flush, Ok(b"")),
    (false, Asked::Drain, Ok(b"")),
    (false, Asked::Drain, Ok(b"H\x05")),
    (false, Asked::Drain, Ok(b"\x06")),
    (false, Asked::Drain, Ok(b"")),
    (true, Asked::Drain, Ok(b"HF")),
];

/// A desk of pass 3 that refuses its acts so. The fifth is a flush, which may not be refused with
/// Gone, and the tenth a drain that gives nothing.
fn desk_of(alloc: Global) -> Result<MemoryDesk, Fail> {
    let mut plan = DeskPlan::new(alloc);
    plan.refusals = Vec::from_slice(
        alloc,
        &[
            (1, STOPPED),
            (2, DROPPED),
            (5, DROPPED),
            (7, NotMade::Memory),
            (14, LOCK_FULL),
        ],
    )?;
    plan.idle_drains.push(9)?;
    plan.most_drained = 2;
    plan.stops = 2;
    plan.lock_ends = 3;
    Ok(MemoryDesk::new(alloc, 3, plan))
}

/// The letter of an item: the reference of a reply in the session of this number.
fn letter_of(item: &Item, session: u32) -> u8 {
    match item {
        Item::Hello => b'H',
        Item::Reply {
            reference,
            body: Reply::Number(number),
        } if *number == session => u8::try_from(*reference).unwrap_or(b'?'),
        Item::Fault => b'F',
        _ => b'?',
    }
}

/// Connects a session.
fn connect(desk: &mut MemoryDesk) -> Result<u32, NotMade>
    ensures opened { IfOk result (λ session.
        IsOpen session (⟦<MemoryDesk as Desk>⟧.view desk.new).mine) }
    ensures kept { (session : ℕ) → IsOpen session (⟦<MemoryDesk as Desk>⟧.view desk.old).mine →
        IsOpen session (⟦<MemoryDesk as Desk>⟧.view desk.new).mine }
{
    desk.connect(Moment::at_most(1), b"ceder", b"memory")
}

/// Asks for an act of a session, and returns the letters of the items that it is given.
fn ask(
    alloc: Global,
    desk: &mut MemoryDesk,
    session: u32,
    asked: Asked,
) -> Result<Result<Vec<u8>, NotMade>, AllocError>
    requires { IsOpen session (⟦<MemoryDesk as Desk>⟧.view desk.old).mine }
    ensures { (session : ℕ) → IsOpen session (⟦<MemoryDesk as Desk>⟧.view desk.old).mine →
        IsOpen session (⟦<MemoryDesk as Desk>⟧.view desk.new).mine }
{
    let moment = Moment::at_most(2);
    match asked {
        Asked::Call(reference) => {
            let answer = desk.call(moment, session, reference, Call::WhoAmI);
            Ok(no_letters(alloc, answer))
        }
        Asked::Broken => {
            let answer = desk.broken(moment, session);
            Ok(no_letters(alloc, answer))
        }
        Asked::Flush => {
            let answer = desk.flush(moment);
            Ok(no_letters(alloc, answer))
        }
        Asked::Drain => {
            let mut items = ArrayVec::new();
            let answer = desk.drain_into(moment, session, &mut items);
            letters_of(alloc, answer, items.as_slice(), session)
        }
    }
}

/// What an act is answered that gives no item.
fn no_letters(alloc: Global, answer: Result<(), NotMade>) -> Result<Vec<u8>, NotMade> {
    match answer {
        Ok(()) => Ok(Vec::new(alloc)),
        Err(fault) => Err(fault),
    }
}

/// What a drain is answered, with the letters of the items.
fn letters_of(
    alloc: Global,
    answer: Result<(), NotMade>,
    items: &[Item],
    session: u32,
) -> Result<Result<Vec<u8>, NotMade>, AllocError> {
    match answer {
        Ok(()) => {
            let mut letters = Vec::new(alloc);
            for item in items {
                letters.push(letter_of(item, session))?;
            }
            Ok(Ok(letters))
        }
        Err(fault) => Ok(Err(fault)),
    }
}

/// Each row is told as it says.
fn check_rows(
    rt: &impl Abort,
    alloc: Global,
    desk: &mut MemoryDesk,
    first: u32,
    second: u32,
) -> Result<(), Fail>
    requires first { IsOpen first (⟦<MemoryDesk as Desk>⟧.view desk.old).mine }
    requires second { IsOpen second (⟦<MemoryDesk as Desk>⟧.view desk.old).mine }
    ensures { IsOpen first (⟦<MemoryDesk as Desk>⟧.view desk.new).mine }
{
    for (is_second, asked, told) in &ROWS {
        let session = if *is_second { second } else { first };
        match ask(alloc, desk, session, *asked)? {
            Ok(letters) => assert!(rt; *told == Ok(letters.as_slice())),
            Err(fault) => assert!(rt; *told == Err(fault)),
        }
    }
    Ok(())
}

/// The desk closes the session once the lock has a turn for that.
fn check_close(rt: &impl Abort, desk: &mut MemoryDesk, session: u32)
    requires { IsOpen session (⟦<MemoryDesk as Desk>⟧.view desk.old).mine }
{
    match desk.close(Moment::at_most(3), session) {
        Ok(()) => assert!(rt; false, "closed"),
        Err(fault) => {
            assert_eq!(rt; fault, LOCK_FULL);
            assert!(rt; desk.close(Moment::at_most(3), session).is_ok());
        }
    }
}

/// Whether the desk is stopped, and the records that it has in the end.
fn check_left(rt: &impl Abort, desk: &mut MemoryDesk) {
    assert!(rt; desk.stopped() == Ok(false));
    assert!(rt; desk.stopped() == Ok(true));
    assert!(rt; desk.stopped() == Err(LOCK_FULL));
    let sessions = [1, 2, 1, 2, 0, 1, 1, 1, 1, 2, 1];
    assert_eq!(rt; desk.records().len(), sessions.len());
    for (record, session) in desk.records().iter().zip(sessions) {
        assert_eq!(rt; (record.entry.pass, record.session), (3, session));
    }
}

#[test]
fn a_desk_keeps_to_its_plan(rt: HostRuntime) -> Result<(), Fail> {
    let mut desk = desk_of(rt.alloc())?;
    assert!(rt; connect(&mut desk) == Err(STOPPED));
    let Ok(first) = connect(&mut desk) else {
        assert!(rt; false, "no first session");
        return Ok(());
    };
    let Ok(second) = connect(&mut desk) else {
        assert!(rt; false, "no second session");
        return Ok(());
    };
    check_rows(&rt, rt.alloc(), &mut desk, first, second)?;
    check_close(&rt, &mut desk, first);
    check_left(&rt, &mut desk);
    Ok(())
}
