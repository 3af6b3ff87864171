//! The charset of a text.
ghost use Rattle.std.specs.Prelude.{◌≡◌, nat_lt};
ghost use Rattle.std.specs.List.{list_any};
ghost use Rattle.std.specs.Option.{option_copied};
ghost use Rattle.std.specs.Str.{is_utf8};
ghost use Rattle.kom_letters.specs.Charsets.{is_between, ends, begins_with};
ghost use Rattle.kom_letters.specs.Charsets.{charset_at, charset_behind, charset_told};
ghost use Rattle.kom_letters.specs.Charsets.{reads_as_utf8, charset_of};

/// How letters are bytes.
#[derive(Clone, Copy, Debug, PartialEq, Eq)]
pub enum Charset {
    Utf8,
    Latin1,
}

/// The charset of a text, by the contents of its content-type if it has one, and by its bytes.
pub fn charset_of(content_type: Option<&[u8]>, bytes: &[u8]) -> Charset
    ensures { result ≡ charset_of (option_copied content_type.entry) bytes.now }
{
    let told = match content_type {
        Some(content_type) => charset_told(content_type),
        None => None,
    };
    match told {
        Some(charset) => charset,
        None if reads_as_utf8(bytes) => Charset::Utf8,
        None => Charset::Latin1,
    }
}

/// Whether bytes of which no charset is told are read as UTF-8.
#[tactic(auto, unfolding(crate::specs::Charsets::reads_as_utf8))]
pub fn reads_as_utf8(bytes: &[u8]) -> bool
    ensures { result ≡ reads_as_utf8 bytes.now }
{
    if !has_high(bytes) {
        return false;
    }
    is_utf8(bytes)
}

fn has_high(bytes: &[u8]) -> bool
    ensures { result ≡ list_any (nat_lt 127) bytes.now }
{
    bytes.iter().any(|byte| *byte > 127)
}

fn is_utf8(bytes: &[u8]) -> bool
    ensures { result ≡ is_utf8 bytes.now }
{
    match str::from_utf8(bytes) {
        Ok(_) => true,
        Err(_) => false,
    }
}

#[tactic(auto, using(crate::proofs::Told::told_step))]
fn charset_told(content_type: &[u8]) -> Option<Charset>
    ensures { result ≡ charset_told content_type.now }
{
    for (i, byte) in content_type.iter().enumerate() {
        let found = charset_behind(*byte, &content_type[i + 1..]);
        if found.is_some() {
            return found;
        }
    }
    None
}

fn charset_behind(byte: u8, bytes: &[u8]) -> Option<Charset>
    ensures { result ≡ charset_behind byte bytes.now }
{
    if is_between(byte) {
        charset_at(bytes)
    } else {
        None
    }
}

fn is_between(byte: u8) -> bool
    ensures { result ≡ is_between byte }
{
    byte == b';' || byte == b' '
}

#[tactic(auto, unfolding(crate::specs::Charsets::charset_at))]
fn charset_at(bytes: &[u8]) -> Option<Charset>
    ensures { result ≡ charset_at bytes.now }
{
    if begins_with(b"charset=utf-8", bytes) || begins_with(b"charset=\"utf-8\"", bytes) {
        return Some(Charset::Utf8);
    }
    if begins_with(b"charset=iso-8859-1", bytes) || begins_with(b"charset=\"iso-8859-1\"", bytes) {
        return Some(Charset::Latin1);
    }
    None
}

fn begins_with(parameter: &[u8], bytes: &[u8]) -> bool
    ensures { result ≡ begins_with parameter.now bytes.now }
{
    if bytes.len() < parameter.len() {
        return false;
    }
    let (front, rest) = bytes.split_at(parameter.len());
    front.eq_ignore_ascii_case(parameter) && ends(rest)
}

fn ends(bytes: &[u8]) -> bool
    ensures { result ≡ ends bytes.now }
{
    match bytes {
        [] => true,
        [byte, ..] => is_between(*byte),
    }
}
