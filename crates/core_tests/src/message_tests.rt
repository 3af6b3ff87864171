//! What sessions are sent for the calls of others, and how they end by them.
use crate::tried::{Came, Step, Tried, call_of, check_made, check_steps, gone};
use arrayvec::ArrayVec;
use kom_types::{Act, Why};
use std::alloc::Global;
use std::process::Abort;
use std::test::Fail;

/// Sessions 1, 2 and 3 are connected, and persons 5, 7 and 8 are logged in there; 7 and 8 are
/// members of conference 6.
fn gather(rt: &impl Abort, alloc: Global, tried: &mut Tried) -> Result<(), Fail> {
    for number in 1..4 {
        assert_eq!(rt; tried.connect(alloc)?, Ok(number));
    }
    let steps: [Step; 8] = [
        (1, b"1 62 5 0H 0\n", b"LysKOM\n=1\n"),
        (1, b"2 88 4HOpen 0000 0 { }\n", b"=2 6\n"),
        (1, b"3 89 2HBo 0H 00000000 0 { }\n", b"=3 7\n"),
        (1, b"4 89 2HCy 0H 00000000 0 { }\n", b"=4 8\n"),
        (1, b"5 100 6 7 100 0 00000000\n", b"=5\n"),
        (1, b"6 100 6 8 100 0 00000000\n", b"=6\n"),
        (2, b"1 62 7 0H 0\n", b"LysKOM\n=1\n"),
        (3, b"1 62 8 0H 0\n", b"LysKOM\n=1\n"),
    ];
    check_steps(rt, alloc, tried, &steps)
}

#[test]
fn a_new_text_is_told(rt: HostRuntime) -> Result<(), Fail> {
    tell_new_texts(&rt, rt.alloc(), &mut Tried::new(rt.alloc())?)
}

fn tell_new_texts(rt: &impl Abort, alloc: Global, tried: &mut Tried) -> Result<(), Fail> {
    gather(rt, alloc, tried)?;
    let steps: [Step; 5] = [
        (2, b"2 80 1 { 15 }\n", b"=2\n"),
        (1, b"7 86 1Ha 1 { 0 6 } 0 { }\n", b"=7 1\n"),
        (
            2,
            b"",
            b":2 15 1 0 0 0 1 0 70 4 0 0 5 0 1 0 2 { 0 6 6 1 } 0 *\n",
        ),
        (
            2,
            b"9 86 1Hb 1 { 0 6 } 0 { }\n",
            b":2 15 2 0 0 0 1 0 70 4 0 0 7 0 1 0 2 { 0 6 6 2 } 0 *\n=9 2\n",
        ),
        (3, b"", b""),
    ];
    check_steps(rt, alloc, tried, &steps)
}

#[test]
fn a_message_is_sent_to_who_hears_it(rt: HostRuntime) -> Result<(), Fail> {
    say_something(&rt, rt.alloc(), &mut Tried::new(rt.alloc())?)
}

fn say_something(rt: &impl Abort, alloc: Global, tried: &mut Tried) -> Result<(), Fail> {
    gather(rt, alloc, tried)?;
    let steps: [Step; 6] = [
        (1, b"2 53 7 2Hyo\n", b"%2 53 7\n"),
        (2, b"2 80 1 { 12 }\n", b"=2\n"),
        (3, b"2 80 1 { 12 }\n", b"=2\n"),
        (1, b"2 53 7 2Hyo\n", b"=2\n"),
        (2, b"", b":3 12 7 5 2Hyo\n"),
        (3, b"", b""),
    ];
    check_steps(rt, alloc, tried, &steps)?;
    // The message alone is news, and no reply is.
    assert!(rt; tried.core.news() == 1);
    assert!(rt; tried.core.next_news(3, 1, 0) == Some(2));
    assert!(rt; tried.core.next_news(3, 0, 1) == None);
    Ok(())
}

/// The session's call for its number, under reference 2, comes to this.
fn check_asked(
    rt: &impl Abort,
    alloc: Global,
    tried: &mut Tried,
    session: u32,
    came: Came,
) -> Result<(), Fail> {
    check_made(rt, tried, call_of(alloc, session, b"2 56\n")?, came)
}

#[test]
fn a_session_that_is_ended_makes_no_call(rt: HostRuntime) -> Result<(), Fail> {
    end_a_session(&rt, rt.alloc(), &mut Tried::new(rt.alloc())?)
}

/// Session 2 is ended. What waits for it is drained, and then it is only closed.
fn end_a_session(rt: &impl Abort, alloc: Global, tried: &mut Tried) -> Result<(), Fail> {
    gather(rt, alloc, tried)?;
    check_asked(rt, alloc, tried, 2, Ok(2))?;
    let steps: [Step; 5] = [
        (3, b"2 80 1 { 13 }\n", b"=2\n"),
        (1, b"7 55 2\n", b"%7 12 2\n"),
        (1, b"8 42 255\n", b"=8\n"),
        (1, b"9 55 2\n", b"=9\n"),
        (3, b"", b":2 13 7 2\n"),
    ];
    check_steps(rt, alloc, tried, &steps)?;
    check_asked(rt, alloc, tried, 2, gone(Why::Dropped))?;
    check_steps(rt, alloc, tried, &[(2, b"", b"=2 2\n")])?;
    check_made(rt, tried, Act::Drain { session: 2 }, gone(Why::Dropped))?;
    check_made(rt, tried, Act::Close { session: 2 }, Ok(2))
}

#[test]
fn a_stopped_server_takes_no_calls(rt: HostRuntime) -> Result<(), Fail> {
    stop_the_server(&rt, rt.alloc(), &mut Tried::new(rt.alloc())?)
}

/// The server is shut down. No call is taken and no session begins; session 2 is flushed, drained
/// and closed.
fn stop_the_server(rt: &impl Abort, alloc: Global, tried: &mut Tried) -> Result<(), Fail> {
    gather(rt, alloc, tried)?;
    check_asked(rt, alloc, tried, 2, Ok(2))?;
    let steps: [Step; 2] = [(1, b"7 42 255\n", b"=7\n"), (1, b"7 44 0\n", b"=7\n")];
    check_steps(rt, alloc, tried, &steps)?;
    assert!(rt; tried.is_stopped());
    check_asked(rt, alloc, tried, 2, gone(Why::Stopped))?;
    assert_eq!(rt; tried.connect(alloc)?, gone(Why::Stopped));
    check_made(rt, tried, Act::Flush, Ok(0))?;
    check_steps(rt, alloc, tried, &[(2, b"", b"=2 2\n")])?;
    check_made(rt, tried, Act::Close { session: 2 }, Ok(2))
}

#[test]
fn a_session_is_overrun_by_the_4097th_message(rt: HostRuntime) -> Result<(), Fail> {
    overrun_a_reader(&rt, rt.alloc(), &mut Tried::new(rt.alloc())?)
}

/// Session 1 writes 4,096 texts, of which session 2 is told, and nothing is flushed. Then session 3
/// writes a text, which overruns session 2, and not session 1, for which 4,096 replies wait.
fn overrun_a_reader(rt: &impl Abort, alloc: Global, tried: &mut Tried) -> Result<(), Fail> {
    gather(rt, alloc, tried)?;
    check_steps(rt, alloc, tried, &[(2, b"2 80 1 { 15 }\n", b"=2\n")])?;
    for _ in 0..4_096 {
        let text = call_of(alloc, 1, b"7 86 1Ha 1 { 0 6 } 0 { }\n")?;
        check_made(rt, tried, text, Ok(1))?;
    }
    // Nothing is stable that waits, so a drain takes nothing.
    let steps: [Step; 2] = [
        (2, b"", b""),
        (3, b"2 86 1Hb 1 { 0 6 } 0 { }\n", b"=2 4097\n"),
    ];
    check_steps(rt, alloc, tried, &steps)?;
    check_made(rt, tried, Act::Drain { session: 2 }, gone(Why::Overrun))?;
    check_asked(rt, alloc, tried, 2, gone(Why::Overrun))?;
    check_taken(rt, tried, 1, &[64, 64])
}

/// Drains of the session take so many items, one after the other.
fn check_taken(
    rt: &impl Abort,
    tried: &mut Tried,
    session: u32,
    counts: &[usize],
) -> Result<(), Fail> {
    let mut items = ArrayVec::new();
    for count in counts {
        assert_eq!(rt;
            tried.make(Act::Drain { session }, &mut items)?,
            Ok(session)
        );
        assert_eq!(rt; items.len(), *count);
    }
    Ok(())
}

#[test]
fn a_drain_takes_64_items_at_most(rt: HostRuntime) -> Result<(), Fail> {
    drain_in_turn(&rt, rt.alloc(), &mut Tried::new(rt.alloc())?)
}

/// The answer to the greeting and to 66 calls waits, and is stable.
fn drain_in_turn(rt: &impl Abort, alloc: Global, tried: &mut Tried) -> Result<(), Fail> {
    assert_eq!(rt; tried.connect(alloc)?, Ok(1));
    for _ in 0..66 {
        check_asked(rt, alloc, tried, 1, Ok(1))?;
    }
    check_made(rt, tried, Act::Flush, Ok(0))?;
    check_taken(rt, tried, 1, &[64, 3, 0])
}
