ghost use Rattle.std.specs.Prelude.{map};
ghost use Rattle.kom_model.specs.calls.Guards as Guard;
ghost use Rattle.kom_model.specs.calls.Guards.{Guards};

use crate::rights::{reads_conference, sees, supervises};
use crate::texts::{may_submit, reads};
use kom_model::{Refused, Rows, Viewer};
use kom_types::bits::{READ_PROTECTED, SECRET_CONFERENCE};
use kom_types::errors;
use kom_types::limits::LONGEST_NAME;
use sessions::Sessions;

/// A condition, and the error's code and status if it does not hold.
pub fn unless(holds: bool, code: u32, status: u32) -> Result<(), Refused>
    ensures { Guards (Guard.unless holds code status) result }
{
    if holds {
        Ok(())
    } else {
        Err(Refused { code, status })
    }
}

/// Somebody is logged in.
pub fn login_guard(caller: &Viewer) -> Result<(), Refused>
    ensures { Guards (Guard.login_guard caller.now) result }
{
    unless(caller.person != 0, errors::LOGIN_FIRST, 0)
}

/// The conference is there and seen.
pub fn conference_guard<R: Rows>(rows: &R, caller: &Viewer, number: u32) -> Result<(), Refused>
    ensures { Guards (Guard.conference_guard (R.db rows.now) caller.now number) result }
{
    if number == 0 {
        Err(Refused {
            code: errors::CONFERENCE_ZERO,
            status: 0,
        })
    } else {
        unless(
            sees(rows, caller, number),
            errors::UNDEFINED_CONFERENCE,
            number,
        )
    }
}

/// The text is there and read.
pub fn text_guard<R: Rows>(rows: &R, caller: &Viewer, number: u32) -> Result<(), Refused>
    ensures { Guards (Guard.text_guard (R.db rows.now) caller.now number) result }
{
    if number == 0 {
        Err(Refused {
            code: errors::TEXT_ZERO,
            status: 0,
        })
    } else {
        unless(reads(rows, caller, number), errors::NO_SUCH_TEXT, number)
    }
}

/// The conference is there and seen, or the number is 0, for none.
pub fn conference_or_none_guard<R: Rows>(
    rows: &R,
    caller: &Viewer,
    number: u32,
) -> Result<(), Refused>
    ensures { Guards (Guard.conference_or_none_guard (R.db rows.now) caller.now number) result }
{
    if number == 0 {
        Ok(())
    } else {
        conference_guard(rows, caller, number)
    }
}

/// The text is there and read, or the number is 0, for none.
pub fn text_or_none_guard<R: Rows>(rows: &R, caller: &Viewer, number: u32) -> Result<(), Refused>
    ensures { Guards (Guard.text_or_none_guard (R.db rows.now) caller.now number) result }
{
    if number == 0 {
        Ok(())
    } else {
        text_guard(rows, caller, number)
    }
}

/// The texts of the conference are shown to the caller.
pub fn reads_guard<R: Rows>(rows: &R, caller: &Viewer, conference: u32) -> Result<(), Refused>
    ensures { Guards (Guard.reads_guard (R.db rows.now) caller.now conference) result }
{
    unless(
        reads_conference(rows, caller, conference),
        errors::ACCESS_DENIED,
        conference,
    )
}

/// The caller may send texts to the conference.
pub fn submit_guard<R: Rows>(rows: &R, caller: &Viewer, conference: u32) -> Result<(), Refused>
    ensures { Guards (Guard.submit_guard (R.db rows.now) caller.now conference) result }
{
    unless(
        may_submit(rows, caller, conference),
        errors::ACCESS_DENIED,
        conference,
    )
}

/// The caller's session is strong.
pub fn strong_guard(caller: &Viewer) -> Result<(), Refused>
    ensures { Guards (Guard.strong_guard caller.now) result }
{
    unless(caller.strong, errors::PERMISSION_DENIED, 0)
}

/// The caller supervises the conference.
pub fn supervisor_guard<R: Rows>(rows: &R, caller: &Viewer, number: u32) -> Result<(), Refused>
    ensures { Guards (Guard.supervisor_guard (R.db rows.now) caller.now number) result }
{
    unless(
        supervises(rows, caller.person, number) || caller.strong,
        errors::PERMISSION_DENIED,
        number,
    )
}

/// The session is there, and no call has ended it.
pub fn session_guard(sessions: &Sessions, number: u32) -> Result<(), Refused>
    ensures { Guards
        (Guard.session_guard (map (λ session. session.seat) sessions.now) number) result }
{
    match sessions.seat(number) {
        None => Err(Refused {
            code: errors::UNDEFINED_SESSION,
            status: number,
        }),
        Some(seat) => unless(!seat.ended, errors::UNDEFINED_SESSION, number),
    }
}

/// There are at most so many bytes, which the status tells.
pub fn size_guard(bytes: &[u8], most: u32) -> Result<(), Refused>
    ensures { Guards (Guard.size_guard bytes.now most) result }
{
    unless(bytes.len() <= most as usize, errors::STRING_TOO_LONG, most)
}

/// The name is no longer than a name may be, and the bytes may be a name.
pub fn name_guard(name: &[u8]) -> Result<(), Refused>
    ensures { Guards (Guard.name_guard name.now) result }
{
    size_guard(name, LONGEST_NAME)?;
    unless(name_lookup::is_name(name), errors::BAD_NAME, 0)
}

/// A secret conference is read-protected too.
pub fn type_guard(kind: u8) -> Result<(), Refused>
    ensures { Guards (Guard.type_guard kind) result }
{
    unless(
        kind & SECRET_CONFERENCE == 0 || kind & READ_PROTECTED != 0,
        errors::SECRET_PUBLIC,
        0,
    )
}
