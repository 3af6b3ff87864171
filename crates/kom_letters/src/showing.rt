//! A text on a screen.
ghost use Rattle.std.specs.Prelude.{◌≡◌, ◌≤◌, ◌++◌, IfOk, OnOk, max, encode_utf8_all, string_bytes};
ghost use Rattle.std.specs.Str.{chars};
ghost use Rattle.kom_letters.specs.Charsets.{letters_of};
ghost use Rattle.kom_letters.specs.Spacing.{shown_letters};
ghost use Rattle.kom_letters.specs.Lines.{visible_letters};
ghost use Rattle.kom_letters.specs.Showing.{front_of, first_column, shown_text, IsHarmlessFrom};

use crate::cutting::lay;
use crate::spacing::space;
use crate::{Charset, decode};
use std::alloc::{AllocError, Global};

/// Where a text begins.
#[derive(Clone, Copy, Debug)]
pub enum Start {
    /// On a line of its own, behind a blank.
    Behind,
    /// Behind the program's own words, which take so many columns.
    At(u16),
}

/// The text that bytes are, on a screen of so many columns; fewer than 20 count as 20.
pub fn show(
    alloc: Global,
    bytes: &[u8],
    charset: Charset,
    columns: u16,
    start: Start,
) -> Result<String, AllocError>
    ensures text { IfOk result (λ text. chars (string_bytes text)
        ≡ shown_text (max columns 20) start (letters_of charset bytes.now)) }
    ensures harmless { IfOk result (λ text.
        IsHarmlessFrom (max columns 20) start (chars (string_bytes text))) }
    ensures seen { IfOk result (λ text. visible_letters (chars (string_bytes text))
        ≡ visible_letters (shown_letters 0 (letters_of charset bytes.now))) }
{
    let text = shown(alloc, bytes, charset, columns, start)?;
    Ok(text)
}

fn shown(
    alloc: Global,
    bytes: &[u8],
    charset: Charset,
    columns: u16,
    start: Start,
) -> Result<String, AllocError>
    ensures { IfOk result (λ text. chars (string_bytes text)
        ≡ shown_text (max columns 20) start (letters_of charset bytes.now)) }
{
    let letters = decode(alloc, bytes, charset)?;
    let spaced = space(alloc, letters.as_slice())?;
    let columns = usize::from(columns.max(20));
    let mut out = Vec::new(alloc);
    let at = begin(&mut out, columns, start)?;
    lay(&mut out, columns, at, spaced.as_slice())?;
    let text = text_of(alloc, out.as_slice())?;
    Ok(text)
}

fn begin(out: &mut Vec<char>, columns: usize, start: Start) -> Result<usize, AllocError>
    requires { 20 ≤ columns }
    ensures front { OnOk result (out.new.items ≡ out.old.items ++ front_of start) }
    ensures at { IfOk result (λ at. at ≡ first_column columns start) }
    ensures within { IfOk result (λ at. at ≤ columns) }
{
    match start {
        Start::Behind => {
            out.push(' ')?;
            Ok(1)
        }
        Start::At(column) => Ok(usize::from(column).min(columns)),
    }
}

/// Letters as a text.
pub(crate) fn text_of(alloc: Global, letters: &[char]) -> Result<String, AllocError>
    ensures { IfOk result (λ text. chars (string_bytes text) ≡ letters.now) }
{
    let text = encoded(alloc, letters)?;
    Ok(text)
}

fn encoded(alloc: Global, letters: &[char]) -> Result<String, AllocError>
    ensures { IfOk result (λ text. string_bytes text ≡ encode_utf8_all letters.now) }
{
    letters.iter().copied().collect(alloc)
}
