//! Streams with a line, or a name, that is as long as it may be, or longer.
use crate::shown::{Cut, feed_cut, splitter_of};
use kom_framing::{FeedRefusal, Splitter};
use std::alloc::{AllocError, Global};
use std::process::Abort;
use std::test::Fail;

/// A stream: these bytes, so many blanks, and an end. How long its units are, how they end, and its
/// fault; and by how many bytes at a time it comes.
#[derive(Clone, Copy)]
struct Row {
    of_replies: bool,
    begin: &'static [u8],
    blanks: usize,
    end: &'static [u8],
    steps: &'static [usize],
    length: usize,
    shown: &'static [u8],
    fault: Option<FeedRefusal>,
}

/// A client's stream whose line is as long as it may be.
const LINE: Row = Row {
    of_replies: false,
    begin: b"A0H2097143H",
    blanks: 2_097_143,
    end: b"\n",
    // With the second step a piece ends with the last byte that the line may have.
    steps: &[70_000, 2_097_154, 2_097_155, 3_000_000],
    length: 2_097_143 + 14,
    shown: b" \"@2097154;",
    fault: None,
};

/// A server's stream whose line is as long as it may be.
const REPLY: Row = Row {
    of_replies: true,
    begin: b"LysKOM\n=1 2097140H",
    blanks: 2_097_140,
    end: b"\n",
    // With the first step a piece ends with the last byte that the line may have.
    steps: &[2_097_158, 3_000_000],
    length: 2_097_140 + 17,
    shown: b" \"@2097158;",
    fault: None,
};

static ROWS: [Row; 8] = [
    LINE,
    Row {
        begin: b"A0H2097144H",
        blanks: 2_097_144,
        length: 2,
        shown: b"A;",
        fault: Some(FeedRefusal::LineTooLong(2_097_155)),
        ..LINE
    },
    Row {
        begin: b"A0H",
        blanks: 2_097_152,
        length: 2,
        shown: b"A;",
        fault: Some(FeedRefusal::LineTooLong(2_097_155)),
        ..LINE
    },
    Row {
        begin: b"A0H",
        blanks: 2_097_152,
        end: b"+\n",
        length: 2,
        shown: b"A;",
        fault: Some(FeedRefusal::Malformed(2_097_155)),
        ..LINE
    },
    REPLY,
    Row {
        begin: b"LysKOM\n=1 2097141H",
        blanks: 2_097_141,
        length: 2,
        shown: b"A;",
        fault: Some(FeedRefusal::LineTooLong(2_097_159)),
        ..REPLY
    },
    Row {
        begin: b"LysKOM\n",
        blanks: 2_097_152,
        end: b"+\n",
        length: 2,
        shown: b"A;",
        fault: Some(FeedRefusal::Malformed(2_097_159)),
        ..REPLY
    },
    // A name has at most 1024 bytes.
    Row {
        begin: b"A1024H",
        blanks: 1024,
        end: b"\n1 2\n",
        steps: &[1, 1000, 5000],
        length: 1036,
        shown: b" ; 1 2@1034;",
        ..LINE
    },
];

/// These bytes, so many blanks, and an end.
fn long_line(alloc: Global, begin: &[u8], count: usize, end: &[u8]) -> Result<Vec<u8>, AllocError> {
    let mut stream = begin.to_vec(alloc)?;
    stream.extend_from_slice(vec![in alloc; b' '; count]?.as_slice())?;
    stream.extend_from_slice(end)?;
    Ok(stream)
}

fn check_steps(rt: &impl Abort, alloc: Global, stream: &[u8], row: &Row) -> Result<(), Fail> {
    for step in row.steps {
        check_cut(
            rt,
            alloc,
            stream,
            row,
            Cut {
                first: 1,
                step: *step,
            },
        )?;
    }
    Ok(())
}

fn check_cut(
    rt: &impl Abort,
    alloc: Global,
    stream: &[u8],
    row: &Row,
    cut: Cut,
) -> Result<(), Fail> {
    let mut splitter = splitter_of(alloc, row.of_replies);
    let mut shown = Vec::new(alloc);
    let fault = feed_cut(&mut splitter, &mut shown, stream, cut)?;
    assert_eq!(rt; shown.len(), row.length);
    assert!(rt; shown.as_slice().ends_with(row.shown));
    assert_eq!(rt; fault, row.fault);
    Ok(())
}

#[test]
fn a_line_has_at_most_2097152_bytes_and_a_name_1024(rt: HostRuntime) -> Result<(), Fail> {
    for row in &ROWS {
        let stream = long_line(rt.alloc(), row.begin, row.blanks, row.end)?;
        check_steps(&rt, rt.alloc(), stream.as_slice(), row)?;
    }
    Ok(())
}

/// A greeting, and lines of 100 bytes, 22,000 of them.
fn many_lines(alloc: Global) -> Result<Vec<u8>, AllocError> {
    let line = long_line(alloc, b"1 94H", 94, b"\n")?;
    let mut stream = b"A0H".to_vec(alloc)?;
    for _ in 0..22_000 {
        stream.extend_from_slice(line.as_slice())?;
    }
    Ok(stream)
}

#[test]
fn a_piece_may_be_longer_than_a_line(rt: HostRuntime) -> Result<(), Fail> {
    let row = Row {
        length: 2_364_896,
        shown: b" \"@2200002;",
        ..LINE
    };
    let stream = many_lines(rt.alloc())?;
    let cut = Cut {
        first: 3_000_000,
        step: 1,
    };
    check_cut(&rt, rt.alloc(), stream.as_slice(), &row, cut)
}

/// The strings that have begun announce more bytes than a process has addresses.
#[test]
fn an_announced_length_takes_no_memory(rt: HostRuntime) -> Result<(), Fail> {
    let mut splitters = Vec::new(rt.alloc());
    for _ in 0..33_000 {
        let mut splitter = Splitter::new(rt.alloc());
        assert_eq!(rt; splitter.feed(b"A1Ha1 4294967295H"), Ok(()));
        splitters.push(splitter)?;
    }
    assert_eq!(rt; splitters.len(), 33_000);
    Ok(())
}
