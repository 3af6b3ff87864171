//! Who made a text, and who answers for it.
ghost use Rattle.std.specs.Prelude.{◌≡◌};
ghost use Rattle.kom_model.specs.calls.Texts as Texts;

use access_rights::{is_author, supervises};
use kom_model::{Rows, Viewer};
use kom_state::StoredRows;

/// Who made a text: 0 if it is anonymous, or not there.
pub(crate) fn author_of(rows: &StoredRows, text: u32) -> u32
    ensures { result ≡ Texts.author_of rows.now.db text }
{
    match rows.author(text) {
        None => 0,
        Some(author) => author,
    }
}

/// Whether the caller made a text.
pub(crate) fn made_text(rows: &StoredRows, caller: &Viewer, text: u32) -> bool
    ensures { result ≡ Texts.made_text rows.now.db caller.now text }
{
    is_author(caller.person, author_of(rows, text))
}

/// Whether the caller made a text, or supervises who did, or its session is strong.
pub(crate) fn owns_text(rows: &StoredRows, caller: &Viewer, text: u32) -> bool
    ensures { result ≡ Texts.owns_text rows.now.db caller.now text }
{
    made_text(rows, caller, text)
        || supervises(rows, caller.person, author_of(rows, text))
        || caller.strong
}
