ghost use Rattle.std.specs.Prelude.{◌≡◌, IfOk};
ghost use Rattle.kom_model.specs.Db.{next_created_of};
ghost use Rattle.kom_model.specs.calls.Call.{Meets, MeetsFirmly};
ghost use Rattle.kom_model.specs.calls.Guards.{Guards};
ghost use Rattle.kom_model.specs.calls.Texts as Texts;

use crate::created::created_up;
use crate::nearest::{Wanted, next_shown, previous_shown};
use access_rights::{conference_guard, login_guard, reads_guard, shown_stat, text_guard, unless};
use kom_model::{CallError, Refused, Viewer};
use kom_state::{Asked, StoredRows};
use kom_types::limits::MOST_MAPPED;
use kom_types::{Boxed, Decision, Mapping, Memory, Reply, errors};
use std::alloc::Global;

/// Call 23, get-marks: by rising text.
pub fn get_marks(asked: &Asked<'_>) -> Result<Decision, CallError>
    ensures { Meets (Texts.get_marks asked.now) result }
{
    let caller = asked.caller();
    login_guard(&caller)?;
    let marks = asked.rows().marks_of(caller.person)?;
    let marks = Boxed::new(asked.allocator(), marks)?;
    Ok(asked.answer(Reply::Marks(marks)))
}

/// Call 90, get-text-stat. The time grows with all that the text is linked to.
pub fn get_text_stat(asked: &Asked<'_>, text: u32) -> Result<Decision, CallError>
    ensures { Meets (Texts.get_text_stat asked.now text) result }
{
    let caller = asked.caller();
    let rows = asked.rows();
    login_guard(&caller)?;
    text_guard(rows, &caller, text)?;
    let reply = text_reply(asked.allocator(), rows, &caller, text)?;
    Ok(asked.answer(reply))
}

fn text_reply(alloc: Global, rows: &StoredRows, caller: &Viewer, text: u32) -> Result<Reply, Memory>
    ensures { IfOk result (λ reply. reply ≡ Texts.text_reply rows.now.db caller.now text) }
{
    match rows.text(text) {
        Some(row) => {
            let stat = shown_stat(alloc, rows, caller, row)?;
            Ok(Reply::TextStat(Boxed::new(alloc, stat)?))
        }
        None => Ok(Reply::Refused(errors::NO_SUCH_TEXT, text)),
    }
}

/// Call 115, first-unused-text-no: the least number that the next text may get.
pub fn first_unused_text_no(asked: &Asked<'_>) -> Decision
    ensures { result ≡ (Texts.first_unused_text_no asked.now).rest }
{
    asked.answer(Reply::Number(asked.rows().next_text()))
}

/// Call 60, find-next-text-no: of those that the caller reads.
pub fn find_next_text_no(asked: &Asked<'_>, start: u32) -> Result<Decision, Refused>
    ensures { MeetsFirmly (Texts.find_next_text_no asked.now start) result }
{
    login_guard(&asked.caller())?;
    match next_shown(asked, Wanted::Text, start) {
        Some(number) => Ok(asked.answer(Reply::Number(number))),
        None => Err(Refused {
            code: errors::NO_SUCH_TEXT,
            status: start,
        }),
    }
}

/// Call 61, find-previous-text-no: of those that the caller reads.
pub fn find_previous_text_no(asked: &Asked<'_>, start: u32) -> Result<Decision, Refused>
    ensures { MeetsFirmly (Texts.find_previous_text_no asked.now start) result }
{
    login_guard(&asked.caller())?;
    match previous_shown(asked, Wanted::Text, start) {
        Some(number) => Ok(asked.answer(Reply::Number(number))),
        None => Err(Refused {
            code: errors::NO_SUCH_TEXT,
            status: start,
        }),
    }
}

/// Local numbers begin at 1.
fn first_guard(first: u32) -> Result<(), Refused>
    ensures { Guards (Texts.first_guard first) result }
{
    unless(first != 0, errors::LOCAL_TEXT_ZERO, 0)
}

/// Not too many texts are asked for.
fn count_guard(count: u32) -> Result<(), Refused>
    ensures { Guards (Texts.count_guard count) result }
{
    unless(count <= MOST_MAPPED, errors::INDEX_OUT_OF_RANGE, count)
}

/// Call 103, local-to-global.
pub fn local_to_global(
    asked: &Asked<'_>,
    conference: u32,
    first: u32,
    count: u32,
) -> Result<Decision, CallError>
    ensures { Meets (Texts.local_to_global asked.now conference first count) result }
{
    let caller = asked.caller();
    let rows = asked.rows();
    login_guard(&caller)?;
    conference_guard(rows, &caller, conference)?;
    reads_guard(rows, &caller, conference)?;
    first_guard(first)?;
    count_guard(count)?;
    let mapping = rows.locals_up(conference, first, count)?;
    let mapping = Boxed::new(asked.allocator(), mapping)?;
    Ok(asked.answer(Reply::Mapping(mapping)))
}

/// Call 121, local-to-global-reverse.
pub fn local_to_global_reverse(
    asked: &Asked<'_>,
    conference: u32,
    ceiling: u32,
    count: u32,
) -> Result<Decision, CallError>
    ensures { Meets (Texts.local_to_global_reverse asked.now conference ceiling count) result }
{
    let caller = asked.caller();
    let rows = asked.rows();
    login_guard(&caller)?;
    conference_guard(rows, &caller, conference)?;
    reads_guard(rows, &caller, conference)?;
    count_guard(count)?;
    let mapping = rows.locals_down(conference, ceiling, count)?;
    let mapping = Boxed::new(asked.allocator(), mapping)?;
    Ok(asked.answer(Reply::Mapping(mapping)))
}

/// Call 104, map-created-texts: those that the caller reads.
pub fn map_created_texts(
    asked: &Asked<'_>,
    person: u32,
    first: u32,
    count: u32,
) -> Result<Decision, CallError>
    ensures { Meets (Texts.map_created_texts asked.now person first count) result }
{
    let rows = asked.rows();
    login_guard(&asked.caller())?;
    rows.person_guard(person)?;
    first_guard(first)?;
    count_guard(count)?;
    let mapping = created_up(asked, person, first, count)?;
    let mapping = Boxed::new(asked.allocator(), mapping)?;
    Ok(asked.answer(Reply::Mapping(mapping)))
}
