ghost use Rattle.std.specs.Prelude.{◌≡◌, ◌≤◌, length, take, drop, take_while, option_map};
ghost use Rattle.std.specs.Option.{option_copied};
ghost use Rattle.kom_types.specs.ByteKind.{is_blank, is_digit};
ghost use Rattle.kom_types.specs.Grammar.{drop_while};
ghost use Rattle.kom_client.specs.Keys.{request_of, forms, request_by, after_word};
ghost use Rattle.kom_client.specs.Keys.{number_after, number_at, rest_after, login_after};
ghost use Rattle.kom_client.specs.Keys.{read_after};
ghost use Rattle.kom_client.specs.Keys.{write_after, comment_after, mark_after, at_end};
ghost use Rattle.kom_client.specs.Seen.{request_seen, numbered_seen};

/// How many bytes a key line has at most, its line feed counted.
pub(crate) const LONGEST_KEY_LINE: usize = 65_536;

/// What a key line asks for. Numbers stand as they were typed.
#[derive(Clone, Copy)]
pub enum Request<'a> {
    /// To log in as a person, with a password.
    Login(&'a [u8], &'a [u8]),
    /// The conferences in which a person has unread texts.
    Unread,
    /// A text.
    Read(&'a [u8]),
    /// To write a text to a conference.
    Write(&'a [u8], &'a [u8]),
    /// To write a text to a conference, as a comment to a text.
    Comment(&'a [u8], &'a [u8], &'a [u8]),
    /// To mark a text of a conference as read, by its local number.
    Mark(&'a [u8], &'a [u8]),
}

/// A number as it was typed, and what is left of the line after it.
#[derive(Clone, Copy)]
pub struct Numbered<'a> {
    pub digits: &'a [u8],
    pub tail: &'a [u8],
}

/// What a key line, without its line feed, asks for.
pub(crate) fn request_of(text: &[u8]) -> Option<Request<'_>>
    ensures { option_map request_seen result ≡ request_of text.now }
{
    if text.len() < LONGEST_KEY_LINE {
        request_by_form(text)
    } else {
        None
    }
}

/// What a line asks for by the form whose word it begins with.
fn request_by_form(text: &[u8]) -> Option<Request<'_>>
    ensures { option_map request_seen result ≡ request_by forms text.now }
{
    if let Some(tail) = after_word(b"login", text) {
        return login_after(tail);
    }
    if let Some(tail) = after_word(b"list", text) {
        return at_end(Request::Unread, tail);
    }
    if let Some(tail) = after_word(b"read", text) {
        return read_after(tail);
    }
    if let Some(tail) = after_word(b"write", text) {
        return write_after(tail);
    }
    if let Some(tail) = after_word(b"comment", text) {
        return comment_after(tail);
    }
    if let Some(tail) = after_word(b"mark", text) {
        return mark_after(tail);
    }
    None
}

/// What is left of a line after a word that it begins with.
fn after_word<'a>(word: &[u8], text: &'a [u8]) -> Option<&'a [u8]>
    ensures { option_copied result ≡ after_word word.now text.now }
{
    text.strip_prefix(word)
}

/// A person's number and a password.
fn login_after(tail: &[u8]) -> Option<Request<'_>>
    ensures { option_map request_seen result ≡ login_after tail.now }
{
    let person = number_after(tail)?;
    let password = rest_after(person.tail)?;
    Some(Request::Login(person.digits, password))
}

/// A text's number.
fn read_after(tail: &[u8]) -> Option<Request<'_>>
    ensures { option_map request_seen result ≡ read_after tail.now }
{
    let text = number_after(tail)?;
    at_end(Request::Read(text.digits), text.tail)
}

/// A conference's number and a text.
fn write_after(tail: &[u8]) -> Option<Request<'_>>
    ensures { option_map request_seen result ≡ write_after tail.now }
{
    let conference = number_after(tail)?;
    let body = rest_after(conference.tail)?;
    Some(Request::Write(conference.digits, body))
}

/// The numbers of a conference and of a text, and a text.
fn comment_after(tail: &[u8]) -> Option<Request<'_>>
    ensures { option_map request_seen result ≡ comment_after tail.now }
{
    let conference = number_after(tail)?;
    let text = number_after(conference.tail)?;
    let body = rest_after(text.tail)?;
    Some(Request::Comment(conference.digits, text.digits, body))
}

/// A conference's number and a local number.
fn mark_after(tail: &[u8]) -> Option<Request<'_>>
    ensures { option_map request_seen result ≡ mark_after tail.now }
{
    let conference = number_after(tail)?;
    let local = number_after(conference.tail)?;
    at_end(Request::Mark(conference.digits, local.digits), local.tail)
}

/// The request, if the line ends here.
fn at_end<'a>(request: Request<'a>, tail: &[u8]) -> Option<Request<'a>>
    ensures { option_map request_seen result ≡ at_end (request_seen request.entry) tail.now }
{
    if tail.is_empty() { Some(request) } else { None }
}

/// One blank, and a number.
fn number_after(tail: &[u8]) -> Option<Numbered<'_>>
    ensures { option_map numbered_seen result ≡ number_after tail.now }
{
    number_at(rest_after(tail)?)
}

/// A number of 1 to 10 digits, if a line begins with one.
fn number_at(text: &[u8]) -> Option<Numbered<'_>>
    ensures { option_map numbered_seen result ≡ number_at text.now }
{
    let count = digits_at(text);
    if 1 <= count && count <= 10 {
        Some(Numbered {
            digits: &text[..count],
            tail: &text[count..],
        })
    } else {
        None
    }
}

/// One blank, and the rest of the line.
fn rest_after(tail: &[u8]) -> Option<&[u8]>
    ensures { option_copied result ≡ rest_after tail.now }
{
    if 0 < tail.len() && is_blank(tail[0]) {
        Some(&tail[1..])
    } else {
        None
    }
}

/// How many digits some bytes begin with.
fn digits_at(bytes: &[u8]) -> usize
    ensures within { result ≤ length bytes.now }
    ensures taken { take result bytes.now ≡ take_while is_digit bytes.now }
    ensures left { drop result bytes.now ≡ drop_while is_digit bytes.now }
{
    for (index, byte) in bytes.iter().enumerate() {
        if !is_digit(*byte) {
            return index;
        }
    }
    bytes.len()
}

fn is_blank(byte: u8) -> bool
    ensures { result ≡ is_blank byte }
{
    byte == b' ' || byte == b'\t' || byte == b'\r'
}

fn is_digit(byte: u8) -> bool
    ensures { result ≡ is_digit byte }
{
    b'0' <= byte && byte <= b'9'
}
