ghost use Rattle.kom_model.specs.calls.Call.{Meets};
ghost use Rattle.kom_model.specs.calls.Texts as Texts;

use access_rights::{login_guard, text_guard, unless};
use kom_model::CallError;
use kom_state::Asked;
use kom_types::limits::MOST_MARKS;
use kom_types::{Decision, Effect, errors};

/// Call 72, mark-text: the mark may be there already.
pub fn mark_text(asked: &Asked<'_>, text: u32, kind: u8) -> Result<Decision, CallError>
    ensures { Meets (Texts.mark_text asked.now text kind) result }
{
    let caller = asked.caller();
    let rows = asked.rows();
    let person = caller.person;
    login_guard(&caller)?;
    text_guard(rows, &caller, text)?;
    let may_mark = rows.mark(person, text).is_some() || rows.mark_count_of(person) < MOST_MARKS;
    unless(may_mark, errors::MARK_LIMIT, 0)?;
    Ok(asked.with_effect(Effect::MarkSet { person, text, kind })?)
}

/// Call 73, unmark-text: also of a text that the caller does not read any more.
pub fn unmark_text(asked: &Asked<'_>, text: u32) -> Result<Decision, CallError>
    ensures { Meets (Texts.unmark_text asked.now text) result }
{
    let caller = asked.caller();
    let person = caller.person;
    login_guard(&caller)?;
    unless(text != 0, errors::TEXT_ZERO, 0)?;
    unless(
        asked.rows().mark(person, text).is_some(),
        errors::NOT_MARKED,
        text,
    )?;
    Ok(asked.with_effect(Effect::MarkGone { person, text })?)
}
