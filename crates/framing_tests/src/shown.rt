//! The units of a stream as bytes.
use kom_framing::{FeedRefusal, Line, Splitter, Token, Unit};
use std::alloc::{AllocError, Global};

/// How a stream is cut: so many bytes come first, and then so many at a time.
#[derive(Clone, Copy)]
pub struct Cut {
    pub first: usize,
    pub step: usize,
}

/// A splitter of a server's stream, or of a client's.
pub fn splitter_of(alloc: Global, of_replies: bool) -> Splitter {
    if of_replies {
        Splitter::of_replies(alloc)
    } else {
        Splitter::new(alloc)
    }
}

/// Shows the units of a stream that is cut so, and says at which fault it is.
pub fn feed_cut(
    splitter: &mut Splitter,
    shown: &mut Vec<u8>,
    stream: &[u8],
    cut: Cut,
) -> Result<Option<FeedRefusal>, AllocError> {
    let first = cut.first.min(stream.len());
    let mut fault = feed(splitter, shown, &stream[..first])?;
    for piece in stream[first..].chunks(cut.step.max(1)) {
        fault = feed(splitter, shown, piece)?;
    }
    Ok(fault)
}

/// Feeds a piece, shows the units that are complete, and says at which fault the stream is.
fn feed(
    splitter: &mut Splitter,
    shown: &mut Vec<u8>,
    piece: &[u8],
) -> Result<Option<FeedRefusal>, AllocError> {
    let fed = splitter.feed(piece);
    for _ in 0..u64::MAX {
        match splitter.next_unit() {
            Some(unit) => show(shown, &unit)?,
            None => break,
        }
    }
    match fed {
        Ok(()) => Ok(None),
        Err(FeedRefusal::Memory) => Err(AllocError),
        Err(refusal) => Ok(Some(refusal)),
    }
}

/// A unit as bytes: the name after `A`, or the tokens of a line and the place of its line feed.
fn show(shown: &mut Vec<u8>, unit: &Unit) -> Result<(), AllocError> {
    match unit {
        Unit::Hello(name) => {
            shown.extend_from_slice(b"A")?;
            shown.extend_from_slice(name.as_slice())?;
        }
        Unit::Line(line) => show_line(shown, line)?,
    }
    shown.extend_from_slice(b";")
}

fn show_line(shown: &mut Vec<u8>, line: &Line) -> Result<(), AllocError> {
    for index in 0..line.len() {
        shown.extend_from_slice(b" ")?;
        show_token(shown, line.token(index))?;
    }
    shown.extend_from_slice(b"@")?;
    shown.extend_from_slice(itoa::Buffer::new().format(line.end()).as_bytes())
}

fn show_token(shown: &mut Vec<u8>, token: Token<'_>) -> Result<(), AllocError> {
    match token {
        Token::Digits(digits) => shown.extend_from_slice(digits),
        Token::Text(text) => {
            shown.extend_from_slice(b"\"")?;
            shown.extend_from_slice(text)?;
            shown.extend_from_slice(b"\"")
        }
        Token::Open => shown.extend_from_slice(b"{"),
        Token::Close => shown.extend_from_slice(b"}"),
        Token::Star => shown.extend_from_slice(b"*"),
        Token::Signed(sign, digits) => {
            shown.push(sign)?;
            shown.extend_from_slice(digits)
        }
    }
}
