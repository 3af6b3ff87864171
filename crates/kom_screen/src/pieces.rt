//! What a screen takes at a time.
ghost use Rattle.std.specs.Prelude.{◌≡◌, ◌≤◌, List, ℕ, IfOk, length, max, string_bytes};
ghost use Rattle.std.specs.Fmt.{decimal};
ghost use Rattle.std.specs.Str.{chars, IsAscii};
ghost use Rattle.kom_screen.specs.Fronts.{own_words};
ghost use Rattle.kom_screen.specs.Screens.{Begins, IsPiece, start_of, letters_behind};

use crate::fronts::{Front, words_of};
use kom_letters::{Charset, Start, show};
use std::alloc::{AllocError, Global};

/// What bytes are, behind a front: a line, which may be cut into several.
pub(crate) fn piece_of(
    alloc: Global,
    columns: u16,
    front: Front,
    bytes: &[u8],
    charset: Charset,
) -> Result<String, AllocError>
    ensures letters { IfOk result (λ text. chars (string_bytes text)
        ≡ letters_behind (max columns 20) front charset bytes.now) }
    ensures piece { IfOk result (λ text. IsPiece (max columns 20) (chars (string_bytes text))) }
{
    match front {
        Front::Blank => behind_blank(alloc, columns, bytes, charset),
        _ => behind_words(alloc, columns, front, bytes, charset),
    }
}

#[tactic(auto, using(crate::proofs::Owning::blank_piece))]
fn behind_blank(
    alloc: Global,
    columns: u16,
    bytes: &[u8],
    charset: Charset,
) -> Result<String, AllocError>
    ensures letters { IfOk result (λ text. chars (string_bytes text)
        ≡ letters_behind (max columns 20) Front.Blank charset bytes.now) }
    ensures piece { IfOk result (λ text. IsPiece (max columns 20) (chars (string_bytes text))) }
{
    let text = show(alloc, bytes, charset, columns, Start::Behind)?;
    Ok(text)
}

#[tactic(auto, using(crate::proofs::Owning::words_piece, crate::proofs::Owning::words_letters))]
fn behind_words(
    alloc: Global,
    columns: u16,
    front: Front,
    bytes: &[u8],
    charset: Charset,
) -> Result<String, AllocError>
    requires begins { (rest : List ℕ) → Begins front rest }
    requires start { start_of front ≡ Start.At (length (own_words front)) }
    ensures letters { IfOk result (λ text. chars (string_bytes text)
        ≡ letters_behind (max columns 20) front charset bytes.now) }
    ensures piece { IfOk result (λ text. IsPiece (max columns 20) (chars (string_bytes text))) }
{
    let mut text = own_text(alloc, front)?;
    let at = text.len() as u16;
    let rest = show(alloc, bytes, charset, columns, Start::At(at))?;
    text.push_str(rest.as_str())?;
    Ok(text)
}

/// The program's own words of a front.
#[tactic(auto, using(crate::proofs::Owning::words_ascii, crate::proofs::Owning::words_short))]
fn own_text(alloc: Global, front: Front) -> Result<String, AllocError>
    ensures text { IfOk result (λ text. string_bytes text ≡ own_words front) }
    ensures short { IfOk result (λ _. length (own_words front) ≤ 20) }
    ensures ascii { IfOk result (λ _. IsAscii (own_words front)) }
{
    match front {
        Front::Number(number) => number_text(alloc, number),
        _ => {
            let text = String::from_str(alloc, words_of(front))?;
            Ok(text)
        }
    }
}

#[tactic(auto, using(crate::proofs::Owning::number_short, crate::proofs::Owning::number_ascii))]
fn number_text(alloc: Global, number: u32) -> Result<String, AllocError>
    ensures text { IfOk result (λ text. string_bytes text ≡ decimal number) }
    ensures short { IfOk result (λ _. length (decimal number) ≤ 20) }
    ensures ascii { IfOk result (λ _. IsAscii (decimal number)) }
{
    let text = format!(in alloc; "{number}")?;
    Ok(text)
}

/// How many line feeds a piece has.
pub(crate) fn rows_of(piece: &str) -> usize {
    piece
        .as_bytes()
        .iter()
        .filter(|byte| **byte == b'\n')
        .count()
}
