//! Lines of streams of the server, and lines that depart from them.
use kom_framing::{Line, Splitter, Unit, Writer};
use kom_records::{ReadFault, ResultKind, read_message, read_reply};
use kom_replies::print_item;
use kom_types::Item;
use std::alloc::Global;
use std::process::Abort;
use std::test::Fail;

static REPLIES: [(ResultKind, &[u8]); 31] = [
    (ResultKind::Done, b"=2\n"),
    (ResultKind::Done, b"%7 27 6\n"),
    (ResultKind::Person, b"%4294967295 10 4294967295\n"),
    (ResultKind::Number, b"=40 6\n"),
    (ResultKind::Number, b"=0 0\n"),
    (ResultKind::Text, b"=147 3Ha\nb\n"),
    (ResultKind::Text, b"=8 0H\n"),
    (ResultKind::Numbers, b"=157 0 *\n"),
    (ResultKind::Numbers, b"=9 3 { 6 4294967295 7 }\n"),
    (ResultKind::Marks, b"=55 0 *\n"),
    (ResultKind::Marks, b"=56 2 { 1 100 4 255 }\n"),
    (
        ResultKind::ConferenceNames,
        b"=1 1 { 10HGam x- 346 1001 5 }\n",
    ),
    (ResultKind::UConference, b"=158 4HNews 00001000 0 77\n"),
    (
        ResultKind::DynamicSessions,
        b"=61 2 { 1 0 0 0 00000000 0H 2 5 6 9 10000000 2Hfa }\n",
    ),
    (ResultKind::Mapping, b"=52 1 1 0 0 0 *\n"),
    (ResultKind::Mapping, b"=53 1 9 1 0 2 { 1 4 8 6 }\n"),
    (ResultKind::Mapping, b"=54 3 5 0 1 3 2 { 7 8 }\n"),
    (
        ResultKind::Members,
        b"=5 1 { 5 5 0 0 0 1 0 70 4 0 0 00000100 }\n",
    ),
    (
        ResultKind::Memberships,
        b"=26 1 { 0 0 0 0 1 0 70 4 0 0 5 255 0 * 5 0 0 0 1 0 70 4 0 0 00000000 }\n",
    ),
    (
        ResultKind::Memberships,
        b"=27 1 { 1 41 40 23 30 10 126 1 333 0 7 100 2 { 1 6 8 9 } 5 0 0 0 1 0 70 4 0 0 10000000 }\n",
    ),
    (
        ResultKind::Memberships,
        b"=28 1 { 0 0 0 0 1 0 70 4 0 0 5 255 3 * 5 0 0 0 1 0 70 4 0 0 00000000 }\n",
    ),
    (
        ResultKind::TextStat,
        b"=32 0 0 12 29 1 124 4 59 0 5 1 11 0 0 * 0 *\n",
    ),
    (
        ResultKind::TextStat,
        b"=32 59 59 23 31 11 8099 5 364 0 5 1 11 0 6 { 15 3 6 1 15 2 6 1 1 4 6 1 } 0 *\n",
    ),
    (
        ResultKind::TextStat,
        b"=34 0 0 0 1 0 70 4 0 0 5 0 1 0 8 { 0 6 6 1 8 5 9 0 0 0 1 0 70 4 0 0 3 2 5 2 2 1 4 1 } 0 *\n",
    ),
    (
        ResultKind::TextStat,
        b"=35 0 0 0 1 0 70 4 0 0 5 0 1 0 3 { 0 6 6 1 7 1 2 3 4 1 99 4 34 0 } 0 *\n",
    ),
    (
        ResultKind::TextStat,
        b"=13 0 0 0 1 0 70 4 0 0 9 0 1 0 0 * 1 { 1 2 7 0 0 0 1 0 70 4 0 0 00100000 0 2Hok }\n",
    ),
    (
        ResultKind::Conference,
        b"=2 4HNews 00001000 0 0 0 1 0 70 4 0 0 0 0 0 1 0 70 4 0 0 5 0 5 0 0 0 77 77 0 1 0 0 0 *\n",
    ),
    (
        ResultKind::Conference,
        b"=6 1Hx 10011000 1 0 0 1 0 70 4 0 0 2 0 0 1 0 70 4 0 0 9 8 11 1 2 3 77 78 1 4 5 6 \
        1 { 1 10 9 0 0 0 1 0 70 4 0 0 00000000 0 0H }\n",
    ),
    (
        ResultKind::Person,
        b"=3 5Hceder 1111110000000000 00000001 3 2 1 4 0 70 0 3 0 1 2 3 4 5 6 7 8 9 10 11 12 13\n",
    ),
    (ResultKind::Members, b"=70 0 *\n"),
    (ResultKind::DynamicSessions, b"=71 0 *\n"),
];

static MESSAGES: [&[u8]; 12] = [
    b":3 5 6 4HNews 3HOld\n",
    b":1 8 2\n",
    b":2 9 5 1\n",
    b":3 12 0 5 2Hyo\n",
    b":2 13 6 1\n",
    b":2 14 1 0 0 0 1 0 70 4 0 0 5 1 3 1 2 { 0 6 6 1 } 0 *\n",
    b":2 15 1 0 0 0 1 0 70 4 0 0 7 0 2 0 2 { 0 6 6 1 } 0 *\n",
    b":3 16 1 6 15\n",
    b":3 17 2 6 0\n",
    b":2 18 7 6\n",
    b":3 22 9 0 * 1 { 1 2 7 0 0 0 1 0 70 4 0 0 00100000 0 2Hok }\n",
    b":3 22 9 1 { 1 2 7 0 0 0 1 0 70 4 0 0 00100000 0 2Hok } 0 *\n",
];

static DEPARTING: [(ResultKind, &[u8]); 24] = [
    (ResultKind::Done, b"=2 1\n"),
    (ResultKind::Done, b"%7 27\n"),
    (ResultKind::Done, b"%7 27 6 1\n"),
    (ResultKind::Done, b":0 7\n"),
    (ResultKind::Done, b"7\n"),
    (ResultKind::Number, b"=1\n"),
    (ResultKind::Number, b"=01 5\n"),
    (ResultKind::Number, b"=1 05\n"),
    (ResultKind::Number, b"=1 4294967296\n"),
    (ResultKind::Number, b"=4294967296 1\n"),
    (ResultKind::Number, b"=1 1H5\n"),
    (ResultKind::Text, b"=1 5\n"),
    (ResultKind::Numbers, b"=1 2 { 1 }\n"),
    (ResultKind::Numbers, b"=1 1 { 1 2 }\n"),
    (ResultKind::Numbers, b"=1 0 { }\n"),
    (ResultKind::Numbers, b"=1 1 *\n"),
    (ResultKind::Marks, b"=1 1 { 1 256 }\n"),
    (ResultKind::UConference, b"=1 4HNews 0000100 0 77\n"),
    (ResultKind::ConferenceNames, b"=1 1 { 4HNews 00001000 5 }\n"),
    (ResultKind::Mapping, b"=1 1 1 2 0 0 *\n"),
    (ResultKind::Mapping, b"=1 1 1 0 2 0 *\n"),
    (
        ResultKind::TextStat,
        b"=1 0 0 0 1 0 70 5 0 0 5 1 11 0 0 * 0 *\n",
    ),
    (
        ResultKind::TextStat,
        b"=1 0 0 0 1 0 70 4 0 1 5 1 11 0 0 * 0 *\n",
    ),
    (
        ResultKind::TextStat,
        b"=1 0 0 0 1 0 70 4 0 0 5 1 11 0 2 { 10 1 } 0 *\n",
    ),
];

static OTHER_MESSAGES: [&[u8]; 6] = [
    b":0 7\n",
    b":2 8 1\n",
    b":1 9 5\n",
    b":3 9 5 1 1\n",
    b"=3 9 5 1\n",
    b":2 99 5 1\n",
];

/// The line of a stream that has this one.
fn line_of(rt: &impl Abort, alloc: Global, text: &[u8]) -> Result<Line, Fail> {
    let mut splitter = Splitter::of_replies(alloc);
    splitter.feed(b"LysKOM\n")?;
    splitter.feed(text)?;
    splitter.next_unit();
    match splitter.next_unit() {
        Some(Unit::Line(line)) => Ok(line),
        _ => rt.abort(),
    }
}

/// Sees that what was read is printed as the line.
fn check_print(rt: &impl Abort, alloc: Global, item: &Item, text: &[u8]) -> Result<(), Fail> {
    let mut out = Writer::new(alloc);
    print_item(item, &mut out)?;
    assert!(rt; out.bytes() == text);
    Ok(())
}

#[test]
fn replies_are_read_as_they_are_printed(rt: HostRuntime) -> Result<(), Fail> {
    for (kind, text) in &REPLIES {
        let line = line_of(&rt, rt.alloc(), text)?;
        let (reference, body) = read_reply(rt.alloc(), *kind, &line)?;
        check_print(&rt, rt.alloc(), &Item::Reply { reference, body }, text)?;
    }
    Ok(())
}

#[test]
fn messages_are_read_as_they_are_printed(rt: HostRuntime) -> Result<(), Fail> {
    for text in &MESSAGES {
        let line = line_of(&rt, rt.alloc(), text)?;
        let message = read_message(rt.alloc(), &line)?;
        check_print(&rt, rt.alloc(), &Item::Message(message), text)?;
    }
    Ok(())
}

/// Whether a line is refused, since it departs from the replies of a kind.
fn departs_as_reply(alloc: Global, kind: ResultKind, line: &Line) -> bool {
    matches!(read_reply(alloc, kind, line), Err(ReadFault::Departs))
}

/// Whether a line is refused, since it departs from a message.
fn departs_as_message(alloc: Global, line: &Line) -> bool {
    matches!(read_message(alloc, line), Err(ReadFault::Departs))
}

#[test]
fn lines_that_depart_are_refused(rt: HostRuntime) -> Result<(), Fail> {
    for (kind, text) in &DEPARTING {
        let line = line_of(&rt, rt.alloc(), text)?;
        assert!(rt; departs_as_reply(rt.alloc(), *kind, &line));
    }
    for text in &OTHER_MESSAGES {
        let line = line_of(&rt, rt.alloc(), text)?;
        assert!(rt; departs_as_message(rt.alloc(), &line));
    }
    Ok(())
}

#[test]
fn faults_are_told(rt: HostRuntime) -> Result<(), Fail> {
    let told = format!(in rt.alloc(); "{}", ReadFault::Departs)?;
    assert!(&rt; told.as_str() == "the server's line is not what was awaited");
    let told = format!(in rt.alloc(); "{}", ReadFault::Memory)?;
    assert!(&rt; told.as_str() == "out of memory");
    Ok(())
}
