ghost use Rattle.std.specs.Prelude.{◌≡◌, true, false};
ghost use Rattle.kom_records.specs.Telling.{ReadsAs};
ghost use Rattle.kom_records.specs.Replies.{IsReplyLine, ReadsOnly, result_of, refusal, body_of};
ghost use Rattle.kom_records.specs.Replies.{reply_line, reference_by, reference_of};

use crate::fault::ReadFault;
use crate::numbers::number_in;
use crate::tokens::Tokens;
use kom_framing::{Line, Token};
use kom_types::Reply;
use std::alloc::Global;

/// What a call has as its result where it is not refused.
#[derive(Clone, Copy, Debug, PartialEq, Eq)]
pub enum ResultKind {
    /// Nothing, as calls 62 and 80.
    Done,
    /// A number, as call 86.
    Number,
    /// A string, as call 25.
    Text,
    /// Some numbers, as call 52.
    Numbers,
    /// The caller's marks, of call 23.
    Marks,
    /// What is told of a text, of call 90.
    TextStat,
    /// A part of the texts of a conference or an author, of calls 103, 104 and 121.
    Mapping,
    /// A conference, of call 91.
    Conference,
    /// What most clients want of a conference, of call 78.
    UConference,
    /// What a look-up by name gives, of call 76.
    ConferenceNames,
    /// A person, of call 49.
    Person,
    /// Memberships, of call 108.
    Memberships,
    /// Members, of call 101.
    Members,
    /// Sessions, of call 83.
    DynamicSessions,
}

/// The reply that a line spells to a call with such a result: its reference and its body, which is
/// allocated there.
pub fn read_reply(alloc: Global, kind: ResultKind, line: &Line) -> Result<(u32, Reply), ReadFault>
    ensures { ReadsOnly (IsReplyLine kind line.now.tokens) result }
{
    let mut tokens = Tokens::of(alloc, line);
    reply_line(kind, &mut tokens)
}

/// The reference of a line that begins as a reply does; a message and other lines have none.
pub fn reference_of(line: &Line) -> Option<u32>
    ensures { result ≡ reference_of line.now.tokens }
{
    if line.is_empty() {
        return None;
    }
    match line.token(0) {
        Token::Signed(sign, digits) => reference_by(sign, digits),
        Token::Digits(_) | Token::Text(_) | Token::Open | Token::Close | Token::Star => None,
    }
}

/// The number of these digits behind the sign of a good reply or a refusal.
fn reference_by(sign: u8, digits: &[u8]) -> Option<u32>
    ensures { result ≡ reference_by sign digits.now }
{
    if sign == b'=' || sign == b'%' {
        number_in(digits)
    } else {
        None
    }
}

/// Takes a reply, after which no token is left.
fn reply_line(kind: ResultKind, tokens: &mut Tokens<'_>) -> Result<(u32, Reply), ReadFault>
    ensures { ReadsAs true (reply_line kind tokens.old) result tokens.new }
{
    let begun = tokens.head()?;
    let body = body_of(kind, begun.sign, tokens)?;
    tokens.end()?;
    Ok((begun.number, body))
}

/// Takes the body of a reply that begins with this sign.
fn body_of(kind: ResultKind, sign: u8, tokens: &mut Tokens<'_>) -> Result<Reply, ReadFault>
    ensures { ReadsAs true (body_of kind sign tokens.old) result tokens.new }
{
    match sign {
        b'=' => result_of(kind, tokens),
        b'%' => refusal(tokens),
        _ => Err(ReadFault::Departs),
    }
}

/// Takes a refusal's code and its status.
fn refusal(tokens: &mut Tokens<'_>) -> Result<Reply, ReadFault>
    ensures { ReadsAs true (refusal tokens.old) result tokens.new }
{
    let code = tokens.number()?;
    let status = tokens.number()?;
    Ok(Reply::Refused(code, status))
}

/// Takes such a result.
fn result_of(kind: ResultKind, tokens: &mut Tokens<'_>) -> Result<Reply, ReadFault>
    ensures { ReadsAs true (result_of kind tokens.old) result tokens.new }
{
    match kind {
        ResultKind::Done => Ok(Reply::Done),
        ResultKind::Number => Ok(Reply::Number(tokens.number()?)),
        ResultKind::Text => {
            let found = tokens.string()?;
            Ok(Reply::Text(tokens.boxed(found)?))
        }
        ResultKind::Numbers => {
            let found = tokens.array()?;
            Ok(Reply::Numbers(tokens.boxed(found)?))
        }
        ResultKind::Marks => {
            let found = tokens.array()?;
            Ok(Reply::Marks(tokens.boxed(found)?))
        }
        ResultKind::TextStat => {
            let found = tokens.text_stat()?;
            Ok(Reply::TextStat(tokens.boxed(found)?))
        }
        ResultKind::Mapping => {
            let found = tokens.mapping()?;
            Ok(Reply::Mapping(tokens.boxed(found)?))
        }
        ResultKind::Conference => {
            let found = tokens.conference()?;
            Ok(Reply::Conference(tokens.boxed(found)?))
        }
        ResultKind::UConference => {
            let found = tokens.uconference()?;
            Ok(Reply::UConference(tokens.boxed(found)?))
        }
        ResultKind::ConferenceNames => {
            let found = tokens.array()?;
            Ok(Reply::ConferenceNames(tokens.boxed(found)?))
        }
        ResultKind::Person => {
            let found = tokens.person()?;
            Ok(Reply::Person(tokens.boxed(found)?))
        }
        ResultKind::Memberships => {
            let found = tokens.array()?;
            Ok(Reply::Memberships(tokens.boxed(found)?))
        }
        ResultKind::Members => {
            let found = tokens.array()?;
            Ok(Reply::Members(tokens.boxed(found)?))
        }
        ResultKind::DynamicSessions => {
            let found = tokens.array()?;
            Ok(Reply::DynamicSessions(tokens.boxed(found)?))
        }
    }
}
