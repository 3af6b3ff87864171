ghost use Rattle.std.specs.Prelude.{◌≡◌, ◌||◌};
ghost use Rattle.kom_model.specs.Rights as Rights;
ghost use Rattle.kom_model.specs.Rights.{is_author, is_submitter, stands_for};
ghost use Rattle.kom_model.specs.Rights.{reads_by_recipient};
ghost use Rattle.kom_model.specs.Shown.{shows_recipient};

use crate::rights::{is_active_member, reads_conference, sees, stands_for};
use kom_model::{Rows, Viewer};
use kom_types::Recipient;

/// The tag of a recipient that is shown to few.
pub(crate) const BLIND: u8 = 15;

/// Whether a text is shown to who looks: the time grows with its recipients. (Protocol A,
/// "Security".)
#[tactic(auto, using(crate::proofs::Authors::reads_none, crate::proofs::Authors::reads_some))]
pub fn reads<R: Rows>(rows: &R, viewer: &Viewer, text: u32) -> bool
    ensures { result ≡ Rights.reads (R.db rows.now) viewer.now text }
{
    match rows.author(text) {
        None => false,
        Some(author) => reads_text_of(rows, viewer, text, author),
    }
}

/// Whether a conference takes texts from who looks. (Protocol A, "Security".)
#[tactic(auto, using(crate::proofs::Heads::submits_none, crate::proofs::Heads::submits_some))]
pub fn may_submit<R: Rows>(rows: &R, viewer: &Viewer, conference: u32) -> bool
    ensures { result ≡ Rights.may_submit (R.db rows.now) viewer.now conference }
{
    match rows.conference(conference) {
        None => false,
        Some(head) => takes_texts_from(rows, viewer, head.submitters, head.supervisor),
    }
}

/// Whether who looks is told that a text of this author has a recipient. (Protocol A, "Security".)
pub fn shows_recipient<R: Rows>(rows: &R, viewer: &Viewer, author: u32, row: &Recipient) -> bool
    ensures { result ≡ shows_recipient (R.db rows.now) viewer.now author row.now }
{
    sees(rows, viewer, row.conference)
        && (row.tag != BLIND
            || is_author(viewer.person, author)
            || is_author(viewer.person, row.sender)
            || reads_conference(rows, viewer, row.conference))
}

/// Whether a person is the author that a text names. An anonymous text names nobody.
pub fn is_author(person: u32, author: u32) -> bool
    ensures { result ≡ is_author person author }
{
    person != 0 && author == person
}

/// Whether a text of this author is shown to who looks.
fn reads_text_of<R: Rows>(rows: &R, viewer: &Viewer, text: u32, author: u32) -> bool
    ensures { result ≡ (viewer.now.strong || is_author viewer.now.person author
        || reads_by_recipient (R.db rows.now) viewer.now text) }
{
    viewer.strong || is_author(viewer.person, author) || reads_by_recipient(rows, viewer, text)
}

/// Whether a text is shown to who looks by one of its recipients.
fn reads_by_recipient<R: Rows>(rows: &R, viewer: &Viewer, text: u32) -> bool
    ensures { result ≡ reads_by_recipient (R.db rows.now) viewer.now text }
{
    for place in 0..rows.recipient_count(text) {
        if let Some(row) = rows.recipient(text, place) {
            if reads_conference(rows, viewer, row.conference) {
                return true;
            }
        }
    }
    false
}

/// Whether a conference that names these submitters and this supervisor takes texts from who
/// looks.
fn takes_texts_from<R: Rows>(rows: &R, viewer: &Viewer, submitters: u32, supervisor: u32) -> bool
    ensures { result ≡ (viewer.now.strong
        || is_submitter (R.db rows.now) viewer.now.person submitters
        || stands_for (R.db rows.now) viewer.now.person supervisor) }
{
    viewer.strong
        || is_submitter(rows, viewer.person, submitters)
        || stands_for(rows, viewer.person, supervisor)
}

/// Whether the person is the one that texts are taken from, or an active member of that
/// conference. 0 is all.
fn is_submitter<R: Rows>(rows: &R, person: u32, submitters: u32) -> bool
    ensures { result ≡ is_submitter (R.db rows.now) person submitters }
{
    submitters == 0 || person == submitters || is_active_member(rows, person, submitters)
}
