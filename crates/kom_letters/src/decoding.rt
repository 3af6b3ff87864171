//! The letters that bytes are.
ghost use Rattle.std.specs.Prelude.{◌≡◌, IfOk};
ghost use Rattle.kom_letters.specs.Charsets.{letters_of};

use crate::Charset;
use bstr::ByteSlice;
use std::alloc::{AllocError, Global};

/// The letters of a text in a charset.
pub fn decode(alloc: Global, bytes: &[u8], charset: Charset) -> Result<Vec<char>, AllocError>
    ensures { IfOk result (λ letters. letters.items ≡ letters_of charset bytes.now) }
{
    match charset {
        Charset::Utf8 => bytes.chars().collect(alloc),
        Charset::Latin1 => bytes.iter().map(|byte| char::from(*byte)).collect(alloc),
    }
}
