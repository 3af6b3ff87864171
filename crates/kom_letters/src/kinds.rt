//! Which letters are shown as they are, and how many columns they take.
ghost use Rattle.std.specs.Prelude.{◌≡◌, ◌≤◌};
ghost use Rattle.kom_letters.specs.Kinds.{is_written, turns_direction, is_plain};
ghost use Rattle.kom_letters.specs.Kinds.{shown_letter, widens, columns_of};

use ucd_category::GeneralCategory;
use unicode_width::UnicodeWidthChar;

/// Whether a letter is shown as it is.
#[tactic(auto, unfolding(crate::specs::Kinds::is_plain))]
pub fn is_plain(c: char) -> bool
    ensures { result ≡ is_plain c }
{
    if c <= '\u{7F}' {
        return c >= ' ' && c <= '~';
    }
    is_written(GeneralCategory::for_char(c)) && !turns_direction(c) && c != '\u{FFFD}'
}

fn is_written(category: GeneralCategory) -> bool
    ensures { result ≡ is_written category }
{
    match category {
        GeneralCategory::Control
        | GeneralCategory::Surrogate
        | GeneralCategory::PrivateUse
        | GeneralCategory::Unassigned
        | GeneralCategory::LineSeparator
        | GeneralCategory::ParagraphSeparator => false,
        _ => true,
    }
}

fn turns_direction(c: char) -> bool
    ensures { result ≡ turns_direction c }
{
    match c {
        '\u{61C}' | '\u{200E}'..='\u{200F}' => true,
        '\u{202A}'..='\u{202E}' => true,
        '\u{2066}'..='\u{2069}' => true,
        _ => false,
    }
}

/// What is shown of a letter.
pub fn shown_letter(c: char) -> char
    ensures { result ≡ shown_letter c }
{
    if is_plain(c) { c } else { '?' }
}

/// Whether a letter makes the one before it wide on some terminals.
pub(crate) fn widens(c: char) -> bool
    ensures { result ≡ widens c }
{
    c == '\u{FE01}' || c == '\u{FE0F}'
}

/// The columns that a letter takes on a terminal.
#[tactic(auto, unfolding(crate::specs::Kinds::columns_of))]
pub fn columns_of(c: char) -> usize
    ensures value { result ≡ columns_of c }
    ensures bound { result ≤ 3 }
{
    if widens(c) {
        return 1;
    }
    c.width().unwrap_or(0)
}
