ghost use Rattle.std.specs.Prelude.{◌≡◌, ◌+◌, length, drop, take_while, get_or};
ghost use Rattle.std.specs.Prelude.{slice_get, slice_range, option_and_then};
ghost use Rattle.kom_types.specs.ByteKind.{is_digit, kind_of};
ghost use Rattle.kom_types.specs.Token.{number_of, integer_of};
ghost use Rattle.kom_framing.specs.Spans.{token_of, tokens_of, IsToken, AreTokens, Takes};
ghost use Rattle.kom_framing.specs.Spans.{integer_told};

use crate::line::token_at;
use crate::token::Token;
use kom_types::ByteKind;
use std::marker::Model;

/// The tokens of a line that are left, from the next one on.
#[derive(Drop)]
pub struct Tokens<'a> {
    text: &'a [u8],
    starts: &'a [u32],
}

impl<'a> Model for Tokens<'a> {
    ghost use Rattle.std.specs.Prelude.{List};
    ghost use Rattle.kom_types.specs.Token.{Token};
    ghost use Rattle.kom_framing.specs.Spans.{tokens_of, AreTokens};

    ghost Value = { List Token };

    ghost view = { λ t. tokens_of t.text.now t.starts.now };

    ghost invariant = { λ t. AreTokens t.text.now t.starts.now };
}

impl<'a> Tokens<'a> {
    /// The tokens that begin at these places of these bytes.
    pub(crate) fn of(text: &'a [u8], starts: &'a [u32]) -> Tokens<'a>
        requires { AreTokens text.now starts.now }
        ensures { result ≡ tokens_of text.now starts.now }
    {
        Tokens { text, starts }
    }

    /// How many there are.
    pub fn len(&self) -> usize
        ensures { result ≡ length self.now }
    {
        self.starts.len()
    }

    /// Takes the next one.
    pub fn next(&mut self) -> Option<Token<'a>>
        ensures { Takes result self.old self.new }
    {
        match self.starts.split_first() {
            None => None,
            Some((start, after)) => {
                self.starts = after;
                Some(token_at(self.text, *start as usize))
            }
        }
    }

    /// Takes the next one, and gives the integer that it spells, if there is one and it spells one.
    pub fn integer(&mut self) -> Option<u32>
        ensures integer { result ≡ option_and_then integer_of (slice_get self.old 0) }
        ensures left { self.new ≡ drop 1 self.old }
    {
        match self.starts.split_first() {
            None => None,
            Some((start, after)) => {
                self.starts = after;
                integer_at(self.text, *start as usize)
            }
        }
    }
}

// The integer of the token that begins at a place of these bytes, if it spells one.
fn integer_at(text: &[u8], start: usize) -> Option<u32>
    requires { IsToken text.now start }
    ensures { result ≡ integer_of (token_of text.now start) }
{
    if text[start].is_ascii_digit() {
        integer_of_run(text, start)
    } else {
        None
    }
}

// The same of a token that begins with a digit.
#[inline(always)]
fn integer_of_run(text: &[u8], start: usize) -> Option<u32>
    requires token { IsToken text.now start }
    requires digit { kind_of (get_or text.now start 0) ≡ ByteKind.Digit }
    ensures { result ≡ integer_of (token_of text.now start) }
{
    let (end, number) = spelled_from(text, start);
    if text[end] == b'H' {
        None
    } else {
        integer_told(end - start, number)
    }
}

// The integer of so many digits that spell this number.
#[inline(always)]
fn integer_told(count: usize, number: u64) -> Option<u32>
    ensures { result ≡ integer_told count number }
{
    if count <= 10 {
        u32::try_from(number).ok()
    } else {
        None
    }
}

// The place after the digits with which a token begins, and the number that they spell.
#[inline(always)]
fn spelled_from(text: &[u8], start: usize) -> (usize, u64)
    requires token { IsToken text.now start }
    requires digit { kind_of (get_or text.now start 0) ≡ ByteKind.Digit }
    ensures end { result.0 ≡ start + length (take_while is_digit (drop start text.now)) }
    ensures number { result.1 ≡ number_of (slice_range text.now start result.0) }
{
    let mut number = 0;
    let mut end = start;
    while text[end].is_ascii_digit() {
        number = 10 * number + (text[end] - b'0') as u64;
        end += 1;
    }
    (end, number)
}
