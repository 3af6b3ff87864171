ghost use Rattle.std.specs.Prelude.{◌≡◌};
ghost use Rattle.kom_model.specs.calls.Call.{Meets};
ghost use Rattle.kom_model.specs.calls.Guards.{Guards};
ghost use Rattle.kom_model.specs.calls.Texts as Texts;

use crate::owning::{made_text, owns_text};
use access_rights::{login_guard, text_guard, unless};
use kom_model::{CallError, Refused};
use kom_state::{Asked, StoredRows, most_links};
use kom_types::{Decision, Effect, TextLink, errors};

/// Call 32, add-comment.
pub fn add_comment(asked: &Asked<'_>, child: u32, parent: u32) -> Result<Decision, CallError>
    ensures { Meets (Texts.add_comment asked.now child parent) result }
{
    let caller = asked.caller();
    let rows = asked.rows();
    login_guard(&caller)?;
    text_guard(rows, &caller, child)?;
    text_guard(rows, &caller, parent)?;
    unless(child != parent, errors::PERMISSION_DENIED, child)?;
    unlinked_guard(rows, child, parent, false, errors::ALREADY_COMMENT)?;
    into_guard(rows, parent, false, errors::COMMENT_LIMIT, parent)?;
    from_guard(rows, child, false, errors::COMMENT_LIMIT)?;
    Ok(asked.with_effect(linked(asked, child, parent, false))?)
}

/// Call 33, sub-comment.
pub fn sub_comment(asked: &Asked<'_>, child: u32, parent: u32) -> Result<Decision, CallError>
    ensures { Meets (Texts.sub_comment asked.now child parent) result }
{
    let caller = asked.caller();
    let rows = asked.rows();
    login_guard(&caller)?;
    text_guard(rows, &caller, child)?;
    text_guard(rows, &caller, parent)?;
    linked_guard(rows, child, parent, false, errors::NOT_COMMENT)?;
    let is_linker = linker_of(rows, child, parent, false) == caller.person;
    unless(
        owns_text(rows, &caller, child) || is_linker,
        errors::PERMISSION_DENIED,
        child,
    )?;
    Ok(asked.with_effect(Effect::LinkGone {
        child,
        parent,
        footnote: false,
    })?)
}

/// Call 37, add-footnote.
pub fn add_footnote(asked: &Asked<'_>, child: u32, parent: u32) -> Result<Decision, CallError>
    ensures { Meets (Texts.add_footnote asked.now child parent) result }
{
    let caller = asked.caller();
    let rows = asked.rows();
    login_guard(&caller)?;
    text_guard(rows, &caller, child)?;
    text_guard(rows, &caller, parent)?;
    unless(child != parent, errors::PERMISSION_DENIED, child)?;
    let are_own = made_text(rows, &caller, child) && made_text(rows, &caller, parent);
    unless(are_own, errors::NOT_AUTHOR, parent)?;
    unlinked_guard(rows, child, parent, true, errors::ALREADY_FOOTNOTE)?;
    into_guard(rows, parent, true, errors::FOOTNOTE_LIMIT, parent)?;
    from_guard(rows, child, true, errors::FOOTNOTE_LIMIT)?;
    Ok(asked.with_effect(linked(asked, child, parent, true))?)
}

/// Call 38, sub-footnote.
pub fn sub_footnote(asked: &Asked<'_>, child: u32, parent: u32) -> Result<Decision, CallError>
    ensures { Meets (Texts.sub_footnote asked.now child parent) result }
{
    let caller = asked.caller();
    let rows = asked.rows();
    login_guard(&caller)?;
    text_guard(rows, &caller, child)?;
    text_guard(rows, &caller, parent)?;
    linked_guard(rows, child, parent, true, errors::NOT_FOOTNOTE)?;
    unless(
        made_text(rows, &caller, child) || caller.strong,
        errors::PERMISSION_DENIED,
        child,
    )?;
    Ok(asked.with_effect(Effect::LinkGone {
        child,
        parent,
        footnote: true,
    })?)
}

/// A comment, or a footnote, that is linked to a text now.
fn linked(asked: &Asked<'_>, child: u32, parent: u32, footnote: bool) -> Effect
    ensures { result ≡ Texts.linked_now asked.now child parent footnote }
{
    Effect::LinkAdded(TextLink {
        child,
        parent,
        footnote,
        sender: asked.caller().person,
        at: asked.moment(),
    })
}

/// Two texts are not linked so yet.
fn unlinked_guard(
    rows: &StoredRows,
    child: u32,
    parent: u32,
    footnote: bool,
    code: u32,
) -> Result<(), Refused>
    ensures { Guards (Texts.unlinked_guard rows.now.db child parent footnote code) result }
{
    unless(rows.link(child, parent, footnote).is_none(), code, child)
}

/// Two texts are linked so.
fn linked_guard(
    rows: &StoredRows,
    child: u32,
    parent: u32,
    footnote: bool,
    code: u32,
) -> Result<(), Refused>
    ensures { Guards (Texts.linked_guard rows.now.db child parent footnote code) result }
{
    unless(rows.link(child, parent, footnote).is_some(), code, child)
}

/// One more link is taken into a text.
pub(crate) fn into_guard(
    rows: &StoredRows,
    parent: u32,
    footnote: bool,
    code: u32,
    status: u32,
) -> Result<(), Refused>
    ensures { Guards (Texts.into_guard rows.now.db parent footnote code status) result }
{
    let holds = rows.count_into(parent, footnote) < most_links(footnote);
    unless(holds, code, status)
}

/// One more link is taken from a text.
fn from_guard(rows: &StoredRows, child: u32, footnote: bool, code: u32) -> Result<(), Refused>
    ensures { Guards (Texts.from_guard rows.now.db child footnote code) result }
{
    let holds = rows.count_from(child, footnote) < most_links(footnote);
    unless(holds, code, child)
}

/// Who made a link: 0 if the text was made with it.
fn linker_of(rows: &StoredRows, child: u32, parent: u32, footnote: bool) -> u32
    ensures { result ≡ Texts.linker_of rows.now.db child parent footnote }
{
    match rows.link(child, parent, footnote) {
        None => 0,
        Some(link) => link.sender,
    }
}
