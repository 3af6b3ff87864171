ghost use Rattle.std.specs.Prelude.{◌≡◌, [], ◌∷◌, IfOk};
ghost use Rattle.kom_types.specs.declared.effects.ConfField.TheVariants as field;
ghost use Rattle.kom_model.specs.calls.Call.{Meets};
ghost use Rattle.kom_model.specs.calls.Guards.{Guards};
ghost use Rattle.kom_model.specs.calls.Texts as Texts;

use crate::owning::{author_of, owns_text};
use access_rights::{
    conference_guard, login_guard, shows_recipient, submit_guard, supervises, text_guard, unless,
};
use kom_model::{CallError, Refused, Viewer};
use kom_state::{Asked, StoredRows, is_recipient_tag};
use kom_types::limits::{LAST_DRAWN, MOST_RECIPIENTS};
use kom_types::{
    ConfField, Decision, Effect, EffectList, Memory, Recipient, Reply, Sequence, errors,
};

/// Call 30, add-recipient.
pub fn add_recipient(
    asked: &Asked<'_>,
    text: u32,
    conference: u32,
    tag: u32,
) -> Result<Decision, CallError>
    ensures { Meets (Texts.add_recipient asked.now text conference tag) result }
{
    let caller = asked.caller();
    let rows = asked.rows();
    login_guard(&caller)?;
    text_guard(rows, &caller, text)?;
    conference_guard(rows, &caller, conference)?;
    unless(is_recipient_tag(tag), errors::ILLEGAL_INFO_TYPE, tag)?;
    unless(
        rows.recipient(text, conference).is_none(),
        errors::ALREADY_RECIPIENT,
        conference,
    )?;
    submit_guard(rows, &caller, conference)?;
    unless(
        rows.recipient_count(text) < MOST_RECIPIENTS,
        errors::RECIPIENT_LIMIT,
        text,
    )?;
    local_guard(rows, conference)?;
    let given = new_recipient(asked, text, conference, tag as u8, caller.person);
    Ok(Decision {
        reply: Reply::Done,
        effects: added_effects(asked, given)?,
        changes: Sequence::new(asked.allocator()),
    })
}

/// A local number of the conference is left.
fn local_guard(rows: &StoredRows, conference: u32) -> Result<(), Refused>
    ensures { Guards (Texts.local_guard rows.now.db conference) result }
{
    unless(
        rows.next_local(conference) <= LAST_DRAWN,
        errors::TEMPORARY_FAILURE,
        0,
    )
}

/// A recipient that is added now, by whom: 0 if the text is made with it.
pub(crate) fn new_recipient(
    asked: &Asked<'_>,
    text: u32,
    conference: u32,
    tag: u8,
    sender: u32,
) -> Recipient
    ensures { result ≡ Texts.new_recipient asked.now text conference tag sender }
{
    Recipient {
        text,
        conference,
        tag,
        local: asked.rows().next_local(conference),
        sender,
        at: asked.moment(),
    }
}

/// The conference was written in now.
pub(crate) fn written(asked: &Asked<'_>, conference: u32) -> Effect
    ensures { result ≡ Texts.written_now asked.now conference }
{
    Effect::ConfField {
        number: conference,
        field: ConfField::LastWritten(asked.moment()),
    }
}

fn added_effects(asked: &Asked<'_>, given: Recipient) -> Result<EffectList, Memory>
    ensures { IfOk result (λ effects. effects
        ≡ Effect.RecipientAdded given ∷ Texts.written_now asked.now given.conference ∷ []) }
{
    let conference = given.conference;
    let mut effects = Sequence::new(asked.allocator());
    effects.push(Effect::RecipientAdded(given))?;
    effects.push(written(asked, conference))?;
    Ok(effects)
}

/// Call 31, sub-recipient.
pub fn sub_recipient(asked: &Asked<'_>, text: u32, conference: u32) -> Result<Decision, CallError>
    ensures { Meets (Texts.sub_recipient asked.now text conference) result }
{
    let caller = asked.caller();
    let rows = asked.rows();
    login_guard(&caller)?;
    text_guard(rows, &caller, text)?;
    unless(conference != 0, errors::CONFERENCE_ZERO, 0)?;
    unless(
        shows_to(rows, &caller, text, conference),
        errors::NOT_RECIPIENT,
        conference,
    )?;
    unless(
        may_take(rows, &caller, text, conference),
        errors::PERMISSION_DENIED,
        text,
    )?;
    Ok(asked.with_effect(Effect::RecipientGone { text, conference })?)
}

/// Whether a recipient is there and shown to the caller.
fn shows_to(rows: &StoredRows, caller: &Viewer, text: u32, conference: u32) -> bool
    ensures { result ≡ Texts.shows_to rows.now.db caller.now text conference }
{
    match rows.recipient(text, conference) {
        None => false,
        Some(row) => shows_recipient(rows, caller, author_of(rows, text), row),
    }
}

/// Whether the caller may take a recipient away.
fn may_take(rows: &StoredRows, caller: &Viewer, text: u32, conference: u32) -> bool
    ensures { result ≡ Texts.may_take rows.now.db caller.now text conference }
{
    owns_text(rows, caller, text)
        || sender_of(rows, text, conference) == caller.person
        || supervises(rows, caller.person, conference)
}

/// Who added a recipient: 0 if the text was made with it.
fn sender_of(rows: &StoredRows, text: u32, conference: u32) -> u32
    ensures { result ≡ Texts.sender_of rows.now.db text conference }
{
    match rows.recipient(text, conference) {
        None => 0,
        Some(row) => row.sender,
    }
}
