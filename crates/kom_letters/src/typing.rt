//! As which bytes typed letters are sent.
ghost use Rattle.std.specs.Prelude.{◌≡◌, ◌↔◌, true, false, IfOk, IsOk, MatchOption};
ghost use Rattle.std.specs.Option.{option_copied};
ghost use Rattle.std.specs.Str.{chars, IsUtf8};
ghost use Rattle.kom_letters.specs.Typing.{fits_latin1, goes_as_latin1, type_of, IsAsTyped};

use crate::unsendable::Unsendable;
use crate::{Charset, decode, reads_as_utf8};
use std::alloc::{AllocError, Global};

/// The bytes of a text that was typed.
#[derive(Debug, Drop)]
pub struct Sent {
    pub body: Vec<u8>,
    pub is_utf8: bool,
}

const UTF8_TYPE: &[u8] = b"text/plain;charset=utf-8";

impl Sent {
    /// The content type that is sent along, where the kind of text has one.
    pub fn content_type(&self) -> Option<&'static [u8]>
        ensures { option_copied result ≡ type_of self.now.is_utf8 }
    {
        if self.is_utf8 { Some(UTF8_TYPE) } else { None }
    }
}

/// The bytes as which a text is sent that a terminal gave.
pub fn text_bytes(alloc: Global, typed: &[u8]) -> Result<Sent, Unsendable>
    ensures as_typed { IfOk result (λ sent.
        IsAsTyped (chars typed.now) sent.body.items sent.is_utf8) }
    ensures text { IsOk result → IsUtf8 typed.now }
    ensures no_text { (result ≡ Err Unsendable.NotUtf8) ↔ (¬ IsUtf8 typed.now) }
    ensures fits { result ≡ Err Unsendable.NotLatin1 → ⊥ }
{
    let letters = typed_letters(alloc, typed)?;
    match latin1_body(alloc, letters.as_slice())? {
        Some(body) => Ok(Sent {
            body,
            is_utf8: false,
        }),
        None => {
            let body = Vec::from_slice(alloc, typed)?;
            Ok(Sent {
                body,
                is_utf8: true,
            })
        }
    }
}

fn latin1_body(alloc: Global, letters: &[char]) -> Result<Option<Vec<u8>>, AllocError>
    ensures { IfOk result (λ found. MatchOption found (goes_as_latin1 letters.now ≡ false)
        (λ bytes. (bytes.items ≡ letters.now) × (goes_as_latin1 letters.now ≡ true))) }
{
    match latin1_of(alloc, letters)? {
        Some(bytes) if !reads_as_utf8(bytes.as_slice()) => Ok(Some(bytes)),
        _ => Ok(None),
    }
}

/// The bytes as which a name, a pattern or a password is sent.
pub fn name_bytes(alloc: Global, typed: &[u8]) -> Result<Vec<u8>, Unsendable>
    ensures as_typed { IfOk result (λ bytes. bytes.items ≡ chars typed.now) }
    ensures text { IsOk result → IsUtf8 typed.now }
    ensures no_text { (result ≡ Err Unsendable.NotUtf8) ↔ (¬ IsUtf8 typed.now) }
    ensures fits { IsOk result → fits_latin1 (chars typed.now) ≡ true }
    ensures no_latin1 { result ≡ Err Unsendable.NotLatin1 → fits_latin1 (chars typed.now) ≡ false }
{
    let letters = typed_letters(alloc, typed)?;
    match latin1_of(alloc, letters.as_slice())? {
        Some(bytes) => Ok(bytes),
        None => Err(Unsendable::NotLatin1),
    }
}

#[tactic(auto, using(crate::proofs::Typed::decoded_text))]
fn typed_letters(alloc: Global, typed: &[u8]) -> Result<Vec<char>, Unsendable>
    ensures letters { IfOk result (λ letters. letters.items ≡ chars typed.now) }
    ensures text { IsOk result → IsUtf8 typed.now }
    ensures no_text { (result ≡ Err Unsendable.NotUtf8) ↔ (¬ IsUtf8 typed.now) }
    ensures fits { result ≡ Err Unsendable.NotLatin1 → ⊥ }
{
    if str::from_utf8(typed).is_err() {
        return Err(Unsendable::NotUtf8);
    }
    let letters = decode(alloc, typed, Charset::Utf8)?;
    Ok(letters)
}

#[tactic(auto, unfolding(crate::specs::Typing::fits_latin1))]
fn latin1_of(alloc: Global, letters: &[char]) -> Result<Option<Vec<u8>>, AllocError>
    ensures bytes { IfOk result (λ found. MatchOption found (fits_latin1 letters.now ≡ false)
        (λ bytes. (bytes.items ≡ letters.now) × (fits_latin1 letters.now ≡ true))) }
{
    let mut bytes = Vec::new(alloc);
    for c in letters {
        let code = *c as u32;
        if code >= 256 {
            return Ok(None);
        }
        bytes.push(code as u8)?;
    }
    Ok(Some(bytes))
}
