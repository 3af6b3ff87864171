//! Rows of letters that were worked out by hand.
use kom_letters::{
    Charset, Start, Unsendable, charset_of, name_bytes, show, show_name, text_bytes,
};
use std::test::Fail;

// Bytes, their charset, and what 20 columns show of them on lines of their own.
static SHOWN: [(&[u8], Charset, &str); 21] = [
    (b"\x1b[2Ja", Charset::Latin1, " ?[2Ja"),
    (b"\x9b31m", Charset::Latin1, " ?31m"),
    (b"\xc2\x9b31m", Charset::Utf8, " ?31m"),
    (b"a\x7f\x00b", Charset::Latin1, " a??b"),
    (
        b"\xe2\x80\xaeabc\xd8\x9c\xe2\x81\xa7",
        Charset::Utf8,
        " ?abc??",
    ),
    (b"a\xe2\x80\xa8b\xe2\x80\xa9", Charset::Utf8, " a?b?"),
    (b"\xee\x80\x80\xcd\xb8\xef\xbf\xbe", Charset::Utf8, " ???"),
    (b"\xc0\xaf", Charset::Utf8, " ??"),
    (b"\xed\xa0\x80", Charset::Utf8, " ???"),
    (b"a\xe2\x82b", Charset::Utf8, " a?b"),
    (b"a\xff", Charset::Utf8, " a?"),
    (b"e\xcc\x81", Charset::Utf8, " e\u{301}"),
    (b"a\xe2\x80\x8bb", Charset::Utf8, " a\u{200B}b"),
    (b"a\tb", Charset::Latin1, " a       b"),
    (b"a\r\nb\rc", Charset::Latin1, " a\n b?c"),
    (
        b"the quick brown fox jumps",
        Charset::Latin1,
        " the quick brown fox\n jumps",
    ),
    (
        b"abcdefghijklmnopqrstuvw",
        Charset::Latin1,
        " abcdefghijklmnopqrs\n tuvw",
    ),
    (
        b"abcdefghijklmnopqrs\xcc\x81t",
        Charset::Utf8,
        " abcdefghijklmnopqrs\u{301}\n t",
    ),
    (
        b"abcdefghijklmnopqr\xe6\xbc\xa2",
        Charset::Utf8,
        " abcdefghijklmnopqr\n \u{6F22}",
    ),
    (
        b"abcdefghijklmnopqr\xe2\x9d\xa4\xef\xb8\x8fb",
        Charset::Utf8,
        " abcdefghijklmnopqr\n \u{2764}\u{FE0F}b",
    ),
    (b"R\xe4v", Charset::Latin1, " R\u{E4}v"),
];

// Content types, bytes, and their charset.
static TOLD: [(&[u8], &[u8], Charset); 5] = [
    (b"text/plain", b"\xc3\xa5", Charset::Utf8),
    (
        b"text/plain;charset=iso-8859-1",
        b"\xc3\xa5",
        Charset::Latin1,
    ),
    (
        b"text/x-kom-basic; Charset=\"UTF-8\";a=b",
        b"\xe5",
        Charset::Utf8,
    ),
    (
        b"x;a=b;charset=\"ISO-8859-1\"",
        b"\xc3\xa5",
        Charset::Latin1,
    ),
    (b"text/plain;charset=iso-8859-15", b"\xe5", Charset::Latin1),
];

// Bytes of which no charset is told.
static UNTOLD: [(&[u8], Charset); 4] = [
    (b"abc", Charset::Latin1),
    (b"\xe5", Charset::Latin1),
    (b"\xc3\xa5", Charset::Utf8),
    (b"\xc3\xa5\xff", Charset::Latin1),
];

// What is typed, and the bytes of a text and whether they go as UTF-8.
static SENT: [(&[u8], &[u8], bool); 4] = [
    (b"abc", b"abc", false),
    (b"\xc3\xa5", b"\xe5", false),
    (b"\xc3\x83\xc2\xa5", b"\xc3\x83\xc2\xa5", true),
    (b"5 \xe2\x82\xac", b"5 \xe2\x82\xac", true),
];

#[test]
fn shows_each_row(rt: HostRuntime) -> Result<(), Fail> {
    for (bytes, charset, shown) in &SHOWN {
        let text = show(rt.alloc(), bytes, *charset, 3, Start::Behind)?;
        assert!(rt; text.as_str() == *shown);
    }
    Ok(())
}

#[test]
fn shows_behind_words(rt: HostRuntime) -> Result<(), Fail> {
    let text = show(
        rt.alloc(),
        b"a long subject\nhere",
        Charset::Latin1,
        20,
        Start::At(9),
    )?;
    assert!(rt; text.as_str() == "a long\n subject\n here");
    let name = show_name(rt.alloc(), b"Ge\nnealogy", Charset::Latin1, 9)?;
    assert!(rt; name.as_str() == "Ge?nea...");
    Ok(())
}

#[test]
fn tells_charsets(rt: HostRuntime) -> Result<(), Fail> {
    for (content_type, bytes, charset) in &TOLD {
        assert!(rt; charset_of(Some(content_type), bytes) == *charset);
    }
    for (bytes, charset) in &UNTOLD {
        assert!(rt; charset_of(None, bytes) == *charset);
    }
    Ok(())
}

#[test]
fn sends_what_is_typed(rt: HostRuntime) -> Result<(), Fail> {
    for (typed, bytes, is_utf8) in &SENT {
        let sent = text_bytes(rt.alloc(), typed)?;
        assert!(rt; sent.body.as_slice() == *bytes);
        assert!(rt; sent.content_type().is_some() == *is_utf8);
    }
    Ok(())
}

#[test]
fn refuses_what_is_no_letter(rt: HostRuntime) -> Result<(), Fail> {
    assert!(rt; matches!(text_bytes(rt.alloc(), b"a\xff"), Err(Unsendable::NotUtf8)));
    let name = name_bytes(rt.alloc(), b"\xc3\xa5")?;
    assert!(rt; name.as_slice() == b"\xe5".as_slice());
    let euro = name_bytes(rt.alloc(), b"\xe2\x82\xac");
    assert!(rt; matches!(euro, Err(Unsendable::NotLatin1)));
    Ok(())
}
