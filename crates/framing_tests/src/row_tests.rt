//! Streams that were worked out by hand, each cut at each of its places.
use crate::shown::{Cut, feed_cut, splitter_of};
use kom_framing::FeedRefusal;
use kom_types::Memory;
use std::alloc::Global;
use std::process::Abort;
use std::test::Fail;

/// A stream, what its units are, and the place of the byte that fits nowhere.
type Row = (&'static [u8], &'static [u8], Option<u64>);

static STREAMS: [Row; 39] = [
    (b"", b"", None),
    (b"A5Hceder\n1 56\n", b"Aceder; 1 56@13;", None),
    (b"A1Ha1 2\n", b"Aa; 1 2@7;", None),
    (b"A1Ha \t\r\n \t1\t \r2\r\n", b"Aa; 1 2@16;", None),
    (
        b"A0001Ha007 0000000000000012\n",
        b"Aa; 007 0000000000000012@27;",
        None,
    ),
    (
        b"A1Ha4294967295 4294967296\n",
        b"Aa; 4294967295 4294967296@25;",
        None,
    ),
    (b"A1Ha0000000003Habc\n", b"Aa; \"abc\"@18;", None),
    (b"A0H\n1 0\n", b"A; 1 0@7;", None),
    (b"A 9Hanna%peer\n1 56\n", b"Aanna%peer; 1 56@18;", None),
    (b"A3Ha\nb\n1 2\n", b"Aa\nb; 1 2@10;", None),
    (
        b"A1Ha1 86 7Ha\n{ 1 }\n2 3\n",
        b"Aa; 1 86 \"a\n{ 1 }\"@18; 2 3@22;",
        None,
    ),
    (b"A1Ha0H 00H\n", b"Aa; \"\" \"\"@10;", None),
    (b"A1Ha{ } *\n", b"Aa; { } *@9;", None),
    (
        b"A3H\0\x80\xff1 3H\xff\0\x80\n",
        b"A\0\x80\xff; 1 \"\xff\0\x80\"@13;",
        None,
    ),
    (b"A1Ha4294967295H", b"Aa;", None),
    (b"A1Ha1 3Hab", b"Aa;", None),
    (b"A 4Hab", b"", None),
    (b"A1Ha12345678901234567\n", b"Aa;", Some(20)),
    (b"A1Ha4294967296H", b"Aa;", Some(14)),
    (b"A1Ha00000000001H", b"Aa;", Some(15)),
    (b"A1025H", b"", Some(5)),
    (b"A12345", b"", Some(5)),
    (b"A\n", b"", Some(1)),
    (b"AH", b"", Some(1)),
    (b"B", b"", Some(0)),
    (b"A1Ha1{ }\n", b"Aa;", Some(5)),
    (b"A1Ha{}\n", b"Aa;", Some(5)),
    (b"A1Ha*1\n", b"Aa;", Some(5)),
    (b"A1Ha1Ha1\n", b"Aa;", Some(7)),
    (b"A1Ha0H0\n", b"Aa;", Some(6)),
    (b"A1HaH\n", b"Aa;", Some(4)),
    (b"A1Ha1 +5\n", b"Aa;", Some(6)),
    (b"A1Ha1 =2\n", b"Aa;", Some(6)),
    (b"A1Ha%1\n", b"Aa;", Some(4)),
    (b"A1Ha1 \0\n", b"Aa;", Some(6)),
    (b"A1Ha1\xa02\n", b"Aa;", Some(5)),
    (b"A1Ha\xb1\n", b"Aa;", Some(4)),
    (b"A\0", b"", Some(1)),
    (b"A1Ha1 2\n3 x\n4 5\n", b"Aa; 1 2@7;", Some(10)),
];

static REPLIES: [Row; 26] = [
    (b"", b"", None),
    (b"LysKO", b"", None),
    (b"LysKOM", b"", None),
    (b"LysKOM\n", b"A;", None),
    (
        b"LysKOM\n=1 1\n:2 9 5 1\n%2 14 1\n",
        b"A; =1 1@11; :2 9 5 1@20; %2 14 1@28;",
        None,
    ),
    (
        b"LysKOM\n=3\n\n=7 0 *\r\n:3 12 0 5 2Hyo\n",
        b"A; =3@9; =7 0 *@18; :3 12 0 5 \"yo\"@33;",
        None,
    ),
    (b"LysKOM\n1 =2 %3\t:4 =5\n", b"A; 1 =2 %3 :4 =5@20;", None),
    (
        b"LysKOM\n=0000000000000012\n",
        b"A; =0000000000000012@24;",
        None,
    ),
    (b"LysKOM\n=1 3H=%:\n", b"A; =1 \"=%:\"@15;", None),
    (b"LysKOM\n=1", b"A;", None),
    (b"LysKOM\n=1 4294967295H", b"A;", None),
    (b"LysKOM\n=00000000000000012\n", b"A;", Some(24)),
    (b"LysKOM\n%%Protocol error.\n", b"A;", Some(8)),
    (b"LysKOM\n= 1\n", b"A;", Some(8)),
    (b"LysKOM\n=\n", b"A;", Some(8)),
    (b"LysKOM\n=H\n", b"A;", Some(8)),
    (b"LysKOM\n=1H\n", b"A;", Some(9)),
    (b"LysKOM\n=1{ }\n", b"A;", Some(9)),
    (b"LysKOM\n=1=2\n", b"A;", Some(9)),
    (b"LysKOM\n1=2\n", b"A;", Some(8)),
    (b"LysKOM\n=1 1\n+2\n", b"A; =1 1@11;", Some(12)),
    (b"LysKOM\n=1\xa02\n", b"A;", Some(9)),
    (b"Lyskom", b"", Some(3)),
    (b"LysKOM\r\n", b"", Some(6)),
    (b"LysKOM =1 1\n", b"", Some(6)),
    (b"A1Ha", b"", Some(0)),
];

/// Each stream is split so, wherever it is cut.
fn check_rows(rt: &impl Abort, alloc: Global, of_replies: bool, rows: &[Row]) -> Result<(), Fail> {
    for row in rows {
        for first in 0..=row.0.len() {
            for step in [1, 3, 100] {
                check_row(rt, alloc, of_replies, row, Cut { first, step })?;
            }
        }
    }
    Ok(())
}

fn check_row(
    rt: &impl Abort,
    alloc: Global,
    of_replies: bool,
    row: &Row,
    cut: Cut,
) -> Result<(), Fail> {
    let (stream, units, place) = *row;
    let mut splitter = splitter_of(alloc, of_replies);
    let mut shown = Vec::new(alloc);
    let fault = feed_cut(&mut splitter, &mut shown, stream, cut)?;
    assert_eq!(rt; shown.as_slice(), units, "of {stream:?}");
    assert_eq!(rt; fault, place.map(FeedRefusal::Malformed), "of {stream:?}");
    Ok(())
}

#[test]
fn streams_and_replies_are_split_wherever_they_are_cut(rt: HostRuntime) -> Result<(), Fail> {
    check_rows(&rt, rt.alloc(), false, &STREAMS)?;
    check_rows(&rt, rt.alloc(), true, &REPLIES)
}

#[test]
fn refusals_are_told(rt: HostRuntime) -> Result<(), Fail> {
    for (refusal, text) in [
        (FeedRefusal::Malformed(0), "the byte at 0 fits nowhere"),
        (
            FeedRefusal::LineTooLong(2_097_155),
            "the line is too long at 2097155",
        ),
        (FeedRefusal::Memory, "out of memory"),
    ] {
        let told = format!(in rt.alloc(); "{refusal}")?;
        assert_eq!(rt; told.as_str(), text);
    }
    let told = format!(in rt.alloc(); "{}", Memory)?;
    assert_eq!(rt; told.as_str(), "out of memory");
    Ok(())
}
