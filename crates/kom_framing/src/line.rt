ghost use Rattle.std.specs.Prelude.{◌≡◌, ◌+◌, ◌<◌, ◌≤◌, ◌↔◌, [], length, drop, take_while, IsTrue};
ghost use Rattle.std.specs.Prelude.{Some, get_or, slice_get, option_and_then};
ghost use Rattle.kom_types.specs.ByteKind.{is_digit, kind_of};
ghost use Rattle.kom_types.specs.Token.{number_of, integer_of, Digits};
ghost use Rattle.kom_framing.specs.Spans.{token_seen, token_of, tokens_of, IsToken, AreTokens};

use crate::lines::{LineStarts, LineText};
use crate::token::Token;
use crate::tokens::Tokens;
use kom_types::{ByteKind, kind_of_byte};
use std::marker::Model;

/// A line of a stream that is not blank.
#[derive(Debug, Drop)]
pub struct Line {
    text: LineText,
    starts: LineStarts,
    end: u64,
}

impl Model for Line {
    ghost use Rattle.kom_types.specs.Stream as stream;
    ghost use Rattle.kom_framing.specs.Spans.{tokens_of, AreTokens};

    ghost Value = { stream.Line };

    ghost view = { λ l. record { tokens = tokens_of l.text.items l.starts.items; end = l.end } };

    ghost invariant = { λ l. AreTokens l.text.items l.starts.items };
}

impl Line {
    /// How many tokens the line has.
    pub fn len(&self) -> usize
        ensures { result ≡ length self.now.tokens }
    {
        self.starts.len()
    }

    pub fn is_empty(&self) -> bool
        ensures { IsTrue result ↔ (self.now.tokens ≡ []) }
    {
        self.starts.is_empty()
    }

    /// The token at an index, counted from 0.
    pub fn token(&self, index: usize) -> Token<'_>
        requires { index < length self.now.tokens }
        ensures { slice_get self.now.tokens index ≡ Some (token_seen result) }
    {
        token_at(self.text.as_slice(), self.starts.as_slice()[index] as usize)
    }

    /// All its tokens, to take one after the other.
    pub fn tokens(&self) -> Tokens<'_>
        ensures { result ≡ self.now.tokens }
    {
        Tokens::of(self.text.as_slice(), self.starts.as_slice())
    }

    /// The place of the line feed in the stream.
    pub fn end(&self) -> u64
        ensures { result ≡ self.now.end }
    {
        self.end
    }

    /// The line that has these bytes and the tokens that begin at these places of them.
    pub(crate) fn of(text: LineText, starts: LineStarts, end: u64) -> Line
        requires { AreTokens text.items starts.items }
        ensures { result ≡ record { tokens = tokens_of text.items starts.items; end = end } }
    {
        Line { text, starts, end }
    }
}

/// The token that begins at a place of these bytes.
pub fn token_at(text: &[u8], start: usize) -> Token<'_>
    requires { IsToken text.now start }
    ensures { token_seen result ≡ token_of text.now start }
{
    match kind_of_byte(text[start]) {
        ByteKind::Digit => run_at(text, start),
        ByteKind::Open => Token::Open,
        ByteKind::Close => Token::Close,
        ByteKind::Sign => {
            let end = end_of_digits(text, start + 1);
            Token::Signed(text[start], &text[start + 1..end])
        }
        _ => Token::Star,
    }
}

// The token that begins with a digit at a place of these bytes.
fn run_at(text: &[u8], start: usize) -> Token<'_>
    requires token { IsToken text.now start }
    requires digit { kind_of (get_or text.now start 0) ≡ ByteKind.Digit }
    ensures { token_seen result ≡ token_of text.now start }
{
    let end = end_of_digits(text, start);
    if text[end] == b'H' {
        let count = number(&text[start..end]) as usize;
        Token::Text(&text[end + 1..end + 1 + count])
    } else {
        Token::Digits(&text[start..end])
    }
}

// The place after the digits that begin there.
#[inline(always)]
fn end_of_digits(text: &[u8], start: usize) -> usize
    requires { start ≤ length text.now }
    ensures { result ≡ start + length (take_while is_digit (drop start text.now)) }
{
    let mut end = start;
    while end < text.len() && text[end].is_ascii_digit() {
        end += 1;
    }
    end
}

// The number that a run of ten digits at most spells.
#[inline(always)]
fn number(digits: &[u8]) -> u64
    requires { length digits.now ≤ 10 }
    ensures { result ≡ number_of digits.now }
{
    let mut number = 0;
    for digit in digits {
        number = 10 * number + u64::from(digit.saturating_sub(b'0'));
    }
    number
}
