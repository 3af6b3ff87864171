ghost use Rattle.std.specs.Prelude.{◌≡◌, [], OnOk};
ghost use Rattle.kom_framing.specs.Writing.{put_word};
ghost use Rattle.kom_client.specs.Client.{greeting_line};
ghost use Rattle.kom_client.specs.Keys.{Login, Read, Write, Comment, Mark, words_of, request_line};
ghost use Rattle.kom_client.specs.Seen.{request_seen, with_words};

use crate::keys::Request;
use kom_framing::Writer;
use kom_types::Memory;

/// Spells a request in place of what was written; `person` is that of the last login line.
pub(crate) fn put_request(
    writer: &mut Writer,
    reference: u32,
    person: &[u8],
    request: &Request<'_>,
) -> Result<(), Memory>
    ensures { OnOk result
        (writer.new.bytes ≡ request_line reference person.now (request_seen request.now)) }
{
    writer.clear();
    writer.number(reference)?;
    put_words_of(writer, person, request)?;
    writer.end_line()?;
    Ok(())
}

/// Spells the call of a request and its arguments.
fn put_words_of(writer: &mut Writer, person: &[u8], request: &Request<'_>) -> Result<(), Memory>
    ensures { OnOk result (writer.new
        ≡ with_words (words_of person.now (request_seen request.now)) writer.old) }
{
    match *request {
        Request::Login(number, password) => put_login(writer, number, password),
        Request::Unread => put_two(writer, b"52", person),
        Request::Read(text) => put_read(writer, text),
        Request::Write(conference, body) => put_write(writer, conference, body),
        Request::Comment(conference, text, body) => put_comment(writer, conference, text, body),
        Request::Mark(conference, local) => put_mark(writer, conference, local),
    }
}

/// Spells two words.
fn put_two(writer: &mut Writer, first: &[u8], second: &[u8]) -> Result<(), Memory>
    ensures { OnOk result (writer.new ≡ put_word second.now (put_word first.now writer.old)) }
{
    writer.word(first)?;
    writer.word(second)?;
    Ok(())
}

/// Spells a login.
fn put_login(writer: &mut Writer, number: &[u8], password: &[u8]) -> Result<(), Memory>
    ensures { OnOk result
        (writer.new ≡ with_words (words_of [] (Login number.now password.now)) writer.old) }
{
    put_two(writer, b"62", number)?;
    writer.text(password)?;
    writer.word(b"0")?;
    Ok(())
}

/// Spells the call for a text.
fn put_read(writer: &mut Writer, text: &[u8]) -> Result<(), Memory>
    ensures { OnOk result (writer.new ≡ with_words (words_of [] (Read text.now)) writer.old) }
{
    put_two(writer, b"25", text)?;
    put_two(writer, b"0", b"4294967295")?;
    Ok(())
}

/// Spells a text that is written to a conference.
fn put_write(writer: &mut Writer, conference: &[u8], body: &[u8]) -> Result<(), Memory>
    ensures { OnOk result
        (writer.new ≡ with_words (words_of [] (Write conference.now body.now)) writer.old) }
{
    writer.word(b"86")?;
    writer.text(body)?;
    put_two(writer, b"1 { 0", conference)?;
    writer.word(b"} 0 { }")?;
    Ok(())
}

/// Spells a comment that is written to a conference.
fn put_comment(
    writer: &mut Writer,
    conference: &[u8],
    text: &[u8],
    body: &[u8],
) -> Result<(), Memory>
    ensures { OnOk result (writer.new
        ≡ with_words (words_of [] (Comment conference.now text.now body.now)) writer.old) }
{
    writer.word(b"86")?;
    writer.text(body)?;
    put_two(writer, b"2 { 0", conference)?;
    put_two(writer, b"2", text)?;
    writer.word(b"} 0 { }")?;
    Ok(())
}

/// Spells that a text of a conference is read.
fn put_mark(writer: &mut Writer, conference: &[u8], local: &[u8]) -> Result<(), Memory>
    ensures { OnOk result
        (writer.new ≡ with_words (words_of [] (Mark conference.now local.now)) writer.old) }
{
    put_two(writer, b"27", conference)?;
    put_two(writer, b"1 {", local)?;
    writer.word(b"}")?;
    Ok(())
}

/// Spells the greeting of a user in place of what was written.
pub(crate) fn put_greeting(writer: &mut Writer, user: &[u8]) -> Result<(), Memory>
    ensures { OnOk result (writer.new.bytes ≡ greeting_line user.now) }
{
    writer.clear();
    writer.word(b"A")?;
    writer.begin_line();
    writer.text(user)?;
    writer.end_line()?;
    Ok(())
}
