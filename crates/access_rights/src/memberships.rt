ghost use Rattle.std.specs.Prelude.{◌≡◌};
ghost use Rattle.kom_model.specs.Shown as Shown;
ghost use Rattle.kom_types.specs.tables.Memberships.{is_secret_membership};
ghost use Rattle.kom_model.specs.calls.Guards.{Guards};
ghost use Rattle.kom_model.specs.calls.Memberships as Calls;

use crate::guards::unless;
use crate::rights::{is_member, sees, supervises};
use kom_model::{Refused, Rows, Viewer};
use kom_types::bits::{SECRET_MEMBERSHIP, UNREAD_IS_SECRET};
use kom_types::errors;

/// Whether a membership of this type is shown to who looks. (Protocol A, "Security".)
#[tactic(auto, unfolding(kom_model::specs::Shown::shows_membership))]
pub fn shows_membership<R: Rows>(
    rows: &R,
    viewer: &Viewer,
    person: u32,
    conference: u32,
    kind: u8,
) -> bool
    ensures { result ≡ Shown.shows_membership (R.db rows.now) viewer.now person conference kind }
{
    sees(rows, viewer, conference)
        && (!is_secret_membership(kind)
            || viewer.strong
            || viewer.person == person
            || supervises(rows, viewer.person, person)
            || supervises(rows, viewer.person, conference))
}

fn is_secret_membership(kind: u8) -> bool
    ensures { result ≡ is_secret_membership kind }
{
    kind & SECRET_MEMBERSHIP != 0
}

/// Whether a person keeps to itself what it has read.
pub fn is_reserved<R: Rows>(rows: &R, person: u32) -> bool
    ensures { result ≡ Shown.is_reserved (R.db rows.now) person }
{
    match rows.flags(person) {
        None => false,
        Some(flags) => flags & UNREAD_IS_SECRET != 0,
    }
}

/// Whether what a person has read is told to who looks.
pub fn shows_reads<R: Rows>(rows: &R, viewer: &Viewer, person: u32) -> bool
    ensures { result ≡ Shown.shows_reads (R.db rows.now) viewer.now person }
{
    !is_reserved(rows, person)
        || viewer.strong
        || viewer.person == person
        || supervises(rows, viewer.person, person)
}

/// The person has a membership in the conference.
pub fn member_guard<R: Rows>(rows: &R, person: u32, conference: u32) -> Result<(), Refused>
    ensures { Guards (Calls.member_guard (R.db rows.now) person conference) result }
{
    unless(
        is_member(rows, person, conference),
        errors::NOT_MEMBER,
        conference,
    )
}

/// The membership of a person in a conference is there and shown to the caller.
pub fn row_guard<R: Rows>(
    rows: &R,
    caller: &Viewer,
    person: u32,
    conference: u32,
) -> Result<(), Refused>
    ensures { Guards (Calls.row_guard (R.db rows.now) caller.now person conference) result }
{
    unless(
        shows_row(rows, caller, person, conference),
        errors::NOT_MEMBER,
        conference,
    )
}

fn shows_row<R: Rows>(rows: &R, caller: &Viewer, person: u32, conference: u32) -> bool
    ensures { result ≡ Calls.shows_row (R.db rows.now) caller.now person conference }
{
    match rows.membership_kind(person, conference) {
        None => false,
        Some(kind) => shows_membership(rows, caller, person, conference, kind),
    }
}
