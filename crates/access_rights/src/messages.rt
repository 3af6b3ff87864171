//! Who gets the messages of texts, and of what is sent to a conference.
ghost use Rattle.std.specs.Prelude.{◌≡◌};
ghost use Rattle.std.specs.List.{list_any};
ghost use Rattle.kom_types.specs.Bits.{is_on};
ghost use Rattle.kom_types.specs.tables.Memberships.{is_passive};
ghost use Rattle.kom_model.specs.Db.{recipients_of};
ghost use Rattle.kom_model.specs.Messages as Messages;

use crate::texts::reads;
use kom_model::{Rows, Viewer};
use kom_types::bits::{PASSIVE_MEMBERSHIP, PASSIVE_MESSAGE_INVERT};

/// Whether a person takes the texts of a conference. (Protocol A, "Asynchronous Messages".)
pub fn takes<R: Rows>(rows: &R, person: u32, conference: u32) -> bool
    ensures { result ≡ Messages.takes (R.db rows.now) person conference }
{
    match rows.membership_kind(person, conference) {
        None => false,
        Some(kind) => !is_passive(kind),
    }
}

/// Whether a text is told to who looks: the time grows with its recipients. (Protocol A,
/// "Asynchronous Messages".)
pub fn gets_text<R: Rows>(rows: &R, viewer: &Viewer, text: u32) -> bool
    ensures { result ≡ Messages.gets_text (R.db rows.now) viewer.now text }
{
    reads(rows, viewer, text) && takes_text(rows, viewer.person, text)
}

/// Whether a person takes the texts of one of a text's recipients.
fn takes_text<R: Rows>(rows: &R, person: u32, text: u32) -> bool
    ensures { result ≡ list_any (λ row. Messages.takes (R.db rows.now) person row.conference)
        (recipients_of (R.db rows.now) text) }
{
    for place in 0..rows.recipient_count(text) {
        if let Some(row) = rows.recipient(text, place) {
            if takes(rows, person, row.conference) {
                return true;
            }
        }
    }
    false
}

/// Whether a person hears what is sent to a conference, or, with 0, to all. (Protocol A,
/// "Asynchronous Messages".)
pub fn hears<R: Rows>(rows: &R, person: u32, recipient: u32) -> bool
    ensures { result ≡ Messages.hears (R.db rows.now) person recipient }
{
    recipient == 0 || hears_conference(rows, person, recipient)
}

fn hears_conference<R: Rows>(rows: &R, person: u32, conference: u32) -> bool
    ensures { result ≡ Messages.is_member_with Messages.is_heard (R.db rows.now) person conference }
{
    match rows.membership_kind(person, conference) {
        None => false,
        Some(kind) => is_passive(kind) == is_inverted(kind),
    }
}

fn is_passive(kind: u8) -> bool
    ensures { result ≡ is_passive kind }
{
    kind & PASSIVE_MEMBERSHIP != 0
}

fn is_inverted(kind: u8) -> bool
    ensures { result ≡ is_on 16 kind }
{
    kind & PASSIVE_MESSAGE_INVERT != 0
}
