//! A name or a subject in what is left of its line.
ghost use Rattle.std.specs.Prelude.{◌≡◌, ◌≤◌, OnOk, IfOk, IsTrue, All, map, sum_by, string_bytes};
ghost use Rattle.std.specs.Str.{chars};
ghost use Rattle.kom_letters.specs.Kinds.{is_plain, shown_letter, columns_of};
ghost use Rattle.kom_letters.specs.Charsets.{letters_of};
ghost use Rattle.kom_letters.specs.Names.{front_count, shorten, shown_name};

use crate::showing::text_of;
use crate::{Charset, columns_of, decode, shown_letter};
use std::alloc::{AllocError, Global};

/// A name in so many columns, as one line. What does not fit is cut, with three dots.
pub fn show_name(
    alloc: Global,
    bytes: &[u8],
    charset: Charset,
    room: u16,
) -> Result<String, AllocError>
    ensures text { IfOk result (λ text. chars (string_bytes text)
        ≡ shown_name room (letters_of charset bytes.now)) }
    ensures kinds { IfOk result (λ text.
        All (λ c. IsTrue (is_plain c)) (chars (string_bytes text))) }
    ensures width { IfOk result (λ text. sum_by columns_of (chars (string_bytes text)) ≤ room) }
{
    let text = shown_name(alloc, bytes, charset, room)?;
    Ok(text)
}

fn shown_name(
    alloc: Global,
    bytes: &[u8],
    charset: Charset,
    room: u16,
) -> Result<String, AllocError>
    ensures { IfOk result (λ text. chars (string_bytes text)
        ≡ shown_name room (letters_of charset bytes.now)) }
{
    let letters = decode(alloc, bytes, charset)?;
    let mut shown = plain(alloc, letters.as_slice())?;
    shorten(&mut shown, usize::from(room))?;
    let text = text_of(alloc, shown.as_slice())?;
    Ok(text)
}

fn plain(alloc: Global, letters: &[char]) -> Result<Vec<char>, AllocError>
    ensures { IfOk result (λ shown. shown.items ≡ map shown_letter letters.now) }
{
    letters.iter().map(|c| shown_letter(*c)).collect(alloc)
}

fn shorten(letters: &mut Vec<char>, room: usize) -> Result<(), AllocError>
    ensures { OnOk result (letters.new.items ≡ shorten room letters.old.items) }
{
    if front_count(letters.as_slice(), room) == letters.len() {
        return Ok(());
    }
    if room < 3 {
        letters.clear();
        return Ok(());
    }
    let count = front_count(letters.as_slice(), room - 3);
    letters.truncate(count);
    letters.push('.')?;
    letters.push('.')?;
    letters.push('.')?;
    Ok(())
}

#[tactic(auto, using(crate::proofs::Fronts::front_step, crate::proofs::Fronts::front_end))]
fn front_count(letters: &[char], room: usize) -> usize
    ensures { result ≡ front_count room letters.now }
{
    let mut left = room;
    for (i, c) in letters.iter().enumerate() {
        let columns = columns_of(*c);
        if left < columns {
            return i;
        }
        left -= columns;
    }
    letters.len()
}
