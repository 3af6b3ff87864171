ghost use Rattle.std.specs.Prelude.{◌≡◌, ◌≤◌, ◌∷◌, length, drop, map, OnOk};
ghost use Rattle.std.specs.Option.{option_copied};
ghost use Rattle.kom_types.specs.Token.{Signed, number_of};
ghost use Rattle.kom_framing.specs.Spans.{token_seen};
ghost use Rattle.kom_framing.specs.Writing.{put_word};
ghost use Rattle.kom_client.specs.Seen.{with_words, reply_seen};
ghost use Rattle.kom_client.specs.Replies.{reply_of, refusal_by, spelling_of};
ghost use Rattle.kom_client.specs.Replies.{shown_good, shown_refusal, shown_message, integer_in};
ghost use Rattle.kom_client.specs.Replies.{integer_digits};

use kom_framing::{Line, Token, Writer};
use kom_types::Memory;

/// A server's line, but for the tokens after the first.
#[derive(Clone, Copy)]
pub enum Reply<'a> {
    /// A good reply to this reference.
    Good(u32),
    /// A refusal of this reference, with its code and its status.
    Refusal(u32, &'a [u8], &'a [u8]),
    /// A message, with the number of its arguments.
    Message(&'a [u8]),
    /// None of these.
    Departs,
}

/// What a server's line is.
pub(crate) fn reply_of(line: &Line) -> Reply<'_>
    ensures { reply_seen result (drop 1 line.now.tokens) ≡ reply_of line.now.tokens }
{
    if line.is_empty() {
        return Reply::Departs;
    }
    match line.token(0) {
        Token::Signed(sign, digits) => reply_by(line, sign, digits),
        Token::Digits(_) | Token::Text(_) | Token::Open | Token::Close | Token::Star => {
            Reply::Departs
        }
    }
}

/// What a line is that begins with this sign and these digits.
fn reply_by<'a>(line: &'a Line, sign: u8, digits: &'a [u8]) -> Reply<'a>
    ensures { reply_seen result (drop 1 line.now.tokens)
        ≡ reply_of (Signed sign digits.now ∷ drop 1 line.now.tokens) }
{
    let Some(number) = integer_in(digits) else {
        return Reply::Departs;
    };
    match sign {
        b'=' => Reply::Good(number),
        b'%' => refusal_by(line, number),
        b':' => Reply::Message(digits),
        _ => Reply::Departs,
    }
}

/// A refusal of this reference, if the line has exactly two integers after it.
fn refusal_by(line: &Line, number: u32) -> Reply<'_>
    ensures { reply_seen result (drop 1 line.now.tokens)
        ≡ refusal_by number (drop 1 line.now.tokens) }
{
    if line.len() != 3 {
        return Reply::Departs;
    }
    let Some(code) = integer_digits(line.token(1)) else {
        return Reply::Departs;
    };
    let Some(status) = integer_digits(line.token(2)) else {
        return Reply::Departs;
    };
    Reply::Refusal(number, code, status)
}

/// The digits of a token that is an integer.
fn integer_digits(token: Token<'_>) -> Option<&[u8]>
    ensures { option_copied result ≡ integer_digits (token_seen token.entry) }
{
    match token {
        Token::Digits(digits) => match integer_in(digits) {
            Some(_) => Some(digits),
            None => None,
        },
        Token::Text(_) | Token::Open | Token::Close | Token::Star | Token::Signed(_, _) => None,
    }
}

/// The integer that some digits spell: ten digits at most, below 2^32.
fn integer_in(digits: &[u8]) -> Option<u32>
    ensures { result ≡ integer_in digits.now }
{
    if digits.len() <= 10 {
        u32::try_from(number_in(digits)).ok()
    } else {
        None
    }
}

/// The number that a run of ten digits at most spells.
fn number_in(digits: &[u8]) -> u64
    requires { length digits.now ≤ 10 }
    ensures { result ≡ number_of digits.now }
{
    let mut number = 0;
    for digit in digits {
        number = 10 * number + u64::from(digit.saturating_sub(b'0'));
    }
    number
}

/// Spells what is shown of a good reply in place of what was written.
pub(crate) fn put_good(writer: &mut Writer, line: &Line) -> Result<(), Memory>
    ensures { OnOk result (writer.new.bytes ≡ shown_good (drop 1 line.now.tokens)) }
{
    writer.clear();
    writer.word(b"ok")?;
    put_tokens(writer, line)?;
    writer.end_line()?;
    Ok(())
}

/// Spells what is shown of a refusal in place of what was written.
pub(crate) fn put_refusal(writer: &mut Writer, code: &[u8], status: &[u8]) -> Result<(), Memory>
    ensures { OnOk result (writer.new.bytes ≡ shown_refusal code.now status.now) }
{
    writer.clear();
    writer.word(b"error")?;
    writer.word(code)?;
    writer.word(status)?;
    writer.end_line()?;
    Ok(())
}

/// Spells what is shown of a message in place of what was written.
pub(crate) fn put_message(writer: &mut Writer, digits: &[u8], line: &Line) -> Result<(), Memory>
    ensures { OnOk result
        (writer.new.bytes ≡ shown_message digits.now (drop 1 line.now.tokens)) }
{
    writer.clear();
    writer.word(b"*")?;
    writer.word(digits)?;
    put_tokens(writer, line)?;
    writer.end_line()?;
    Ok(())
}

/// Spells the tokens of a line after the first.
fn put_tokens(writer: &mut Writer, line: &Line) -> Result<(), Memory>
    ensures { OnOk result
        (writer.new ≡ with_words (map spelling_of (drop 1 line.now.tokens)) writer.old) }
{
    for index in 1..line.len() {
        put_token(writer, line.token(index))?;
    }
    Ok(())
}

/// Spells a token as a word.
fn put_token(writer: &mut Writer, token: Token<'_>) -> Result<(), Memory>
    ensures { OnOk result
        (writer.new ≡ put_word (spelling_of (token_seen token.entry)) writer.old) }
{
    match token {
        Token::Digits(digits) => writer.word(digits),
        Token::Text(text) => writer.text(text),
        Token::Open => writer.word(b"{"),
        Token::Close => writer.word(b"}"),
        Token::Star => writer.word(b"*"),
        Token::Signed(sign, digits) => put_signed(writer, sign, digits),
    }
}

/// Spells a sign, and the digits directly after it.
fn put_signed(writer: &mut Writer, sign: u8, digits: &[u8]) -> Result<(), Memory>
    ensures { OnOk result (writer.new ≡ put_word (sign ∷ digits.now) writer.old) }
{
    writer.mark(sign)?;
    writer.begin_line();
    writer.word(digits)?;
    Ok(())
}
