//! What the items of a new text name, and whether each may be named.
ghost use Rattle.std.specs.Prelude.{◌≡◌, [], count_by};
ghost use Rattle.std.specs.List.{list_any};
ghost use Rattle.kom_model.specs.calls.Guards.{Guards, first_refusal};
ghost use Rattle.kom_model.specs.calls.NewTexts as NewTexts;
ghost use Rattle.text_calls.specs.Names.{names};

use crate::on_links::into_guard;
use crate::owning::made_text;
use access_rights::{conference_guard, submit_guard, text_guard, unless};
use kom_model::{Refused, Rows, Viewer};
use kom_state::{Asked, StoredRows, is_recipient_tag};
use kom_types::bits::ALLOWS_ANONYMOUS;
use kom_types::limits::{MOST_COMMENTS, MOST_FOOTNOTES, MOST_RECIPIENTS};
use kom_types::{MiscInput, errors};

/// The tags of a comment's, and of a footnote's, link.
const COMMENT: u32 = 2;

const FOOTNOTE: u32 = 4;

/// What an item may name: a recipient, or a text that is commented, or gets a footnote.
#[derive(Clone, Copy)]
pub(crate) enum Naming {
    Recipient,
    Comment,
    Footnote,
}

/// Whether an item names a recipient.
pub(crate) fn names_recipient(item: &MiscInput) -> bool
    ensures { result ≡ NewTexts.names_recipient item.now }
{
    is_recipient_tag(item.tag)
}

/// Whether an item names a text that is commented.
pub(crate) fn names_comment(item: &MiscInput) -> bool
    ensures { result ≡ NewTexts.names_comment item.now }
{
    item.tag == COMMENT
}

/// Whether an item names a text that gets a footnote.
pub(crate) fn names_footnote(item: &MiscInput) -> bool
    ensures { result ≡ NewTexts.names_footnote item.now }
{
    item.tag == FOOTNOTE
}

/// Each item may be named after those before it.
pub(crate) fn items_are_good(
    asked: &Asked<'_>,
    anonymous: bool,
    items: &[MiscInput],
) -> Result<(), Refused>
    ensures { Guards
        (first_refusal (NewTexts.item_guards asked.now anonymous [] items.now)) result }
{
    for place in 0..items.len() {
        item_guard(asked, anonymous, &items[..place], &items[place])?;
    }
    Ok(())
}

/// An item may be named after these.
fn item_guard(
    asked: &Asked<'_>,
    anonymous: bool,
    before: &[MiscInput],
    item: &MiscInput,
) -> Result<(), Refused>
    ensures { Guards (NewTexts.item_guard asked.now anonymous before.now item.now) result }
{
    if names_recipient(item) {
        recipient_guard(asked, anonymous, before, item.value)
    } else if names_comment(item) {
        comment_guard(asked, before, item.value)
    } else if names_footnote(item) {
        footnote_guard(asked, anonymous, before, item.value)
    } else {
        Err(Refused {
            code: errors::ILLEGAL_MISC,
            status: before.len().min(u32::MAX as usize) as u32,
        })
    }
}

fn recipient_guard(
    asked: &Asked<'_>,
    anonymous: bool,
    before: &[MiscInput],
    conference: u32,
) -> Result<(), Refused>
    ensures { Guards
        (NewTexts.recipient_guard asked.now anonymous before.now conference) result }
{
    let caller = asked.caller();
    let rows = asked.rows();
    conference_guard(rows, &caller, conference)?;
    unless(
        is_new(Naming::Recipient, before, conference),
        errors::ALREADY_RECIPIENT,
        conference,
    )?;
    submit_guard(rows, &caller, conference)?;
    anonymous_guard(rows, anonymous, conference)?;
    unless(
        has_room(Naming::Recipient, before, MOST_RECIPIENTS),
        errors::RECIPIENT_LIMIT,
        0,
    )
}

/// A text without an author is taken by the conference.
fn anonymous_guard(rows: &StoredRows, anonymous: bool, conference: u32) -> Result<(), Refused>
    ensures { Guards (NewTexts.anonymous_guard rows.now.db anonymous conference) result }
{
    unless(
        !anonymous || takes_anonymous(rows, conference),
        errors::ANONYMOUS_REJECTED,
        conference,
    )
}

/// Whether a conference takes texts without an author.
fn takes_anonymous(rows: &StoredRows, conference: u32) -> bool
    ensures { result ≡ NewTexts.takes_anonymous rows.now.db conference }
{
    match Rows::conference(rows, conference) {
        None => false,
        Some(head) => head.kind & ALLOWS_ANONYMOUS != 0,
    }
}

fn comment_guard(asked: &Asked<'_>, before: &[MiscInput], text: u32) -> Result<(), Refused>
    ensures { Guards (NewTexts.comment_guard asked.now before.now text) result }
{
    let caller = asked.caller();
    let rows = asked.rows();
    text_guard(rows, &caller, text)?;
    unless(
        is_new(Naming::Comment, before, text),
        errors::ALREADY_COMMENT,
        text,
    )?;
    into_guard(rows, text, false, errors::COMMENT_LIMIT, text)?;
    unless(
        has_room(Naming::Comment, before, MOST_COMMENTS),
        errors::COMMENT_LIMIT,
        0,
    )
}

fn footnote_guard(
    asked: &Asked<'_>,
    anonymous: bool,
    before: &[MiscInput],
    text: u32,
) -> Result<(), Refused>
    ensures { Guards (NewTexts.footnote_guard asked.now anonymous before.now text) result }
{
    let caller = asked.caller();
    let rows = asked.rows();
    text_guard(rows, &caller, text)?;
    author_guard(rows, &caller, anonymous, text)?;
    unless(
        is_new(Naming::Footnote, before, text),
        errors::ALREADY_FOOTNOTE,
        text,
    )?;
    into_guard(rows, text, true, errors::FOOTNOTE_LIMIT, text)?;
    unless(
        has_room(Naming::Footnote, before, MOST_FOOTNOTES),
        errors::FOOTNOTE_LIMIT,
        0,
    )
}

/// The caller made the text that gets a footnote, and makes this one not without an author.
fn author_guard(
    rows: &StoredRows,
    caller: &Viewer,
    anonymous: bool,
    text: u32,
) -> Result<(), Refused>
    ensures { Guards (NewTexts.author_guard rows.now.db caller.now anonymous text) result }
{
    unless(
        !anonymous && made_text(rows, caller, text),
        errors::NOT_AUTHOR,
        text,
    )
}

/// No item before names the same.
fn is_new(naming: Naming, before: &[MiscInput], value: u32) -> bool
    ensures { result ≡ NewTexts.is_new (names naming) before.now value }
{
    !is_named(naming, before, value)
}

fn is_named(naming: Naming, before: &[MiscInput], value: u32) -> bool
    ensures { result ≡ list_any (NewTexts.names_value (names naming) value) before.now }
{
    before.iter().any(|item| names_value(naming, item, value))
}

/// Whether an item names this so.
fn names_value(naming: Naming, item: &MiscInput, value: u32) -> bool
    ensures { result ≡ NewTexts.names_value (names naming) value item.now }
{
    item.value == value && names(naming, item)
}

/// Whether fewer are named before than may be. Where there are fewer items, none is looked at.
fn has_room(naming: Naming, before: &[MiscInput], most: usize) -> bool
    ensures { result ≡ NewTexts.has_room (names naming) before.now most }
{
    if before.len() < most {
        return true;
    }
    count(naming, before) < most
}

fn count(naming: Naming, before: &[MiscInput]) -> usize
    ensures { result ≡ count_by (names naming) before.now }
{
    before.iter().filter(|item| names(naming, item)).count()
}

fn names(naming: Naming, item: &MiscInput) -> bool
    ensures { result ≡ names naming item.now }
{
    match naming {
        Naming::Recipient => names_recipient(item),
        Naming::Comment => names_comment(item),
        Naming::Footnote => names_footnote(item),
    }
}
