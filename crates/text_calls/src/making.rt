ghost use Rattle.std.specs.Prelude.{◌≡◌, ◌∷◌, ◌++◌, [], ◌≤◌, length, map, filter, IfOk};
ghost use Rattle.std.specs.Prelude.{if◌then◌else◌};
ghost use Rattle.std.specs.List.{list_all};
ghost use Rattle.kom_types.specs.declared.limits.TheConstants.{MOST_AUX_ITEMS};
ghost use Rattle.kom_model.specs.Db.{next_text_of};
ghost use Rattle.kom_model.specs.calls.Call.{Meets};
ghost use Rattle.kom_model.specs.calls.Guards.{Guards};
ghost use Rattle.kom_model.specs.calls.NewTexts as NewTexts;

use crate::inheriting::made_items;
use crate::naming::{items_are_good, names_footnote, names_recipient};
use crate::on_recipients::{new_recipient, written};
use access_rights::{login_guard, new_items_guard, size_guard, unless};
use kom_model::CallError;
use kom_state::{Asked, StoredRows, push_count, push_items};
use kom_types::limits::{LAST_DRAWN, LONGEST_BODY};
use kom_types::{
    Bytes, Counter, Decision, Effect, EffectList, Memory, MiscInput, NewText, Object, Reply,
    Sequence, TextLink, errors, lines_of,
};

/// Call 86, create-text.
pub fn create_text(asked: &Asked<'_>, given: &NewText) -> Result<Decision, CallError>
    ensures { Meets (NewTexts.create_text asked.now given.now) result }
{
    new_text(asked, false, given)
}

/// Call 87, create-anonymous-text.
pub fn create_anonymous_text(asked: &Asked<'_>, given: &NewText) -> Result<Decision, CallError>
    ensures { Meets (NewTexts.create_anonymous_text asked.now given.now) result }
{
    new_text(asked, true, given)
}

/// A text is made, by the caller or without an author.
#[tactic(auto, unfolding(kom_model::specs::Db::next_text_of))]
fn new_text(asked: &Asked<'_>, anonymous: bool, given: &NewText) -> Result<Decision, CallError>
    ensures { Meets (NewTexts.new_text anonymous asked.now given.now) result }
{
    let caller = asked.caller();
    login_guard(&caller)?;
    size_guard(given.body.as_slice(), LONGEST_BODY)?;
    items_are_good(asked, anonymous, given.misc_inputs.as_slice())?;
    unless(
        has_numbers(
            asked.rows(),
            caller.person,
            anonymous,
            given.misc_inputs.as_slice(),
        ),
        errors::TEMPORARY_FAILURE,
        0,
    )?;
    new_items_guard(Object::Text, caller.person, &given.aux_items)?;
    let number = asked.rows().next_text();
    Ok(Decision {
        reply: Reply::Number(number),
        effects: text_effects(asked, anonymous, number, given)?,
        changes: Sequence::new(asked.allocator()),
    })
}

/// Whether the next number of a text is left, one in each conference that is named, and one among
/// the texts of an author.
fn has_numbers(rows: &StoredRows, person: u32, anonymous: bool, items: &[MiscInput]) -> bool
    ensures { result ≡ NewTexts.has_numbers rows.now.db person anonymous items.now }
{
    rows.next_text() <= LAST_DRAWN
        && have_locals(rows, items)
        && has_created(rows, person, anonymous)
}

/// Whether a local number of each conference that is named is left.
fn have_locals(rows: &StoredRows, items: &[MiscInput]) -> bool
    ensures { result ≡ list_all (NewTexts.has_local rows.now.db) items.now }
{
    items.iter().all(|item| has_local(rows, item))
}

/// Whether a number among the texts of an author is left, where there is one.
fn has_created(rows: &StoredRows, person: u32, anonymous: bool) -> bool
    ensures { result ≡ NewTexts.has_created rows.now.db person anonymous }
{
    anonymous || rows.next_created(person) <= LAST_DRAWN
}

/// Whether a local number of the conference that an item names is left.
fn has_local(rows: &StoredRows, item: &MiscInput) -> bool
    ensures { result ≡ NewTexts.has_local rows.now.db item.now }
{
    !names_recipient(item) || rows.next_local(item.value) <= LAST_DRAWN
}

/// How many effects a text without aux-items has at most: four, and two for each item.
fn usual_count(given: &NewText) -> usize {
    given.misc_inputs.len().saturating_mul(2).saturating_add(4)
}

/// A text is made, with all that is named.
fn text_effects(
    asked: &Asked<'_>,
    anonymous: bool,
    text: u32,
    given: &NewText,
) -> Result<EffectList, Memory>
    requires { length given.now.aux_items ≤ MOST_AUX_ITEMS }
    ensures { IfOk result (λ effects. effects
        ≡ NewTexts.text_effects asked.now anonymous text given.now) }
{
    let alloc = asked.allocator();
    let mut effects = Sequence::of(Vec::with_capacity(alloc, usual_count(given))?);
    effects.push(Effect::TextAdded {
        number: text,
        author: if anonymous { 0 } else { asked.caller().person },
        at: asked.moment(),
        body: Bytes::copy_of(alloc, given.body.as_slice())?,
    })?;
    push_named(&mut effects, asked, text, given.misc_inputs.as_slice())?;
    push_items(&mut effects, true, text, made_items(asked, given)?)?;
    push_written(&mut effects, asked, given.misc_inputs.as_slice())?;
    if !anonymous {
        push_author(&mut effects, asked, text, given.body.as_slice())?;
    }
    Ok(effects)
}

fn push_named(
    effects: &mut EffectList,
    asked: &Asked<'_>,
    text: u32,
    items: &[MiscInput],
) -> Result<(), Memory>
    ensures { IfOk result (λ done. effects.new
        ≡ effects.old ++ map (NewTexts.item_effect asked.now text) items.now) }
{
    for item in items {
        effects.push(item_effect(asked, text, item))?;
    }
    Ok(())
}

/// What an item makes of a text: a recipient; or a comment, or a footnote, to a text.
fn item_effect(asked: &Asked<'_>, text: u32, item: &MiscInput) -> Effect
    ensures { result ≡ NewTexts.item_effect asked.now text item.now }
{
    if names_recipient(item) {
        let tag = item.tag as u8;
        Effect::RecipientAdded(new_recipient(asked, text, item.value, tag, 0))
    } else {
        Effect::LinkAdded(TextLink {
            child: text,
            parent: item.value,
            footnote: names_footnote(item),
            sender: 0,
            at: asked.moment(),
        })
    }
}

fn push_written(
    effects: &mut EffectList,
    asked: &Asked<'_>,
    items: &[MiscInput],
) -> Result<(), Memory>
    ensures { IfOk result (λ done. effects.new ≡ effects.old
        ++ map (NewTexts.item_written asked.now)
        (filter NewTexts.names_recipient items.now)) }
{
    for item in items {
        if names_recipient(item) {
            effects.push(written(asked, item.value))?;
        }
    }
    Ok(())
}

/// The text is counted among those that its author made.
#[tactic(auto, unfolding(kom_model::specs::Db::next_created_of))]
fn push_author(
    effects: &mut EffectList,
    asked: &Asked<'_>,
    text: u32,
    body: &[u8],
) -> Result<(), Memory>
    ensures { IfOk result (λ done. effects.new
        ≡ effects.old ++ NewTexts.author_effects asked.now text body.now) }
{
    let person = asked.caller().person;
    effects.push(Effect::Created {
        person,
        local: asked.rows().next_created(person),
        text,
    })?;
    push_count(
        effects,
        person,
        Counter::CreatedLines,
        lines_of(body) as u64,
    )?;
    push_count(effects, person, Counter::CreatedBytes, body.len() as u64)
}
