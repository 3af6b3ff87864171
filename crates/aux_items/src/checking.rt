//! Whether a change of the aux-items of an object passes.
ghost use Rattle.std.specs.Prelude.{◌≡◌, ◌==◌, ◌&&◌, [], option_copied};
ghost use Rattle.std.specs.List.{find};
ghost use Rattle.kom_types.specs.AuxItems as Items;
ghost use Rattle.aux_items.specs.Checking.{Checks};
ghost use Rattle.aux_items.specs.Kinds.{kind_meant};

use crate::kinds::{AuxKind, kind_of};
use crate::list::ItemList;
use crate::standing::{Standing, is_among};
use kom_types::aux_tags::{CREATING_SOFTWARE, READ_CONFIRM};
use kom_types::bits::{SECRET_ITEM, WRONG_ITEM_FLAGS};
use kom_types::limits::LONGEST_CONTENT;
use kom_types::{Adder, AuxInput, AuxRow, Object, errors};

/// Whether a change of the items of an object passes, or else the code of the first entry that is
/// refused and its place in its list, counted from 0: deletions come first. Takes no memory.
/// (Protocol A, "Auxiliary Information".)
#[tactic(auto, unfolding(kom_types::specs::AuxItems::refused_change))]
pub fn check_items<R: ItemList>(
    on: Object,
    by: &Adder,
    rows: &R,
    deleted: &[u32],
    added: &[AuxInput],
) -> Result<(), (u32, usize)>
    ensures { Checks
        (Items.refused_change on by.now (R.items rows.now) deleted.now added.now)
        result }
{
    check_deleted(by, rows, deleted)?;
    check_added(on, by, rows, deleted, added)
}

fn check_deleted<R: ItemList>(by: &Adder, rows: &R, deleted: &[u32]) -> Result<(), (u32, usize)>
    ensures { Checks (Items.refused_deleted by.now (R.items rows.now) [] 0 deleted.now) result }
{
    for place in 0..deleted.len() {
        if let Some(code) = code_deleted(by, rows, &deleted[..place], deleted[place]) {
            return Err((code, place));
        }
    }
    Ok(())
}

/// The code with which the deletion of a number is refused after others.
fn code_deleted<R: ItemList>(by: &Adder, rows: &R, earlier: &[u32], number: u32) -> Option<u32>
    ensures { result ≡ Items.code_deleted by.now (R.items rows.now) earlier.now number }
{
    match find_shown(by, rows, number) {
        None => Some(errors::ILLEGAL_AUX_ITEM),
        Some(item) => {
            if is_among(earlier, number) {
                Some(errors::ILLEGAL_AUX_ITEM)
            } else if stays(item.tag) || !(item.creator == by.person || by.owns) {
                Some(errors::AUX_ITEM_PERMISSION)
            } else {
                None
            }
        }
    }
}

/// The item of a number, if it is shown to the person.
fn find_shown<'a, R: ItemList>(by: &Adder, rows: &'a R, number: u32) -> Option<&'a AuxRow>
    ensures { option_copied result
        ≡ find (λ item. item.number == number && Items.is_shown by.now item) (R.items rows.now) }
{
    for place in 0..rows.count() {
        if let Some(item) = rows.item(place) {
            if is_shown_at(by, item, number) {
                return Some(item);
            }
        }
    }
    None
}

/// Whether an item has this number, and is shown to the person.
fn is_shown_at(by: &Adder, item: &AuxRow, number: u32) -> bool
    ensures { result ≡ (item.now.number == number && Items.is_shown by.now item.now) }
{
    item.number == number && is_shown(by, item)
}

/// Whether an item is shown to the person.
fn is_shown(by: &Adder, item: &AuxRow) -> bool
    ensures { result ≡ Items.is_shown by.now item.now }
{
    item.flags & SECRET_ITEM == 0 || item.creator == by.person || by.owns
}

/// Whether items of a tag may never be deleted.
fn stays(tag: u32) -> bool
    ensures { result ≡ Items.stays tag }
{
    tag == READ_CONFIRM || tag == CREATING_SOFTWARE
}

fn check_added<R: ItemList>(
    on: Object,
    by: &Adder,
    rows: &R,
    deleted: &[u32],
    added: &[AuxInput],
) -> Result<(), (u32, usize)>
    ensures { Checks
        (Items.refused_added on by.now (Items.left_after deleted.now (R.items rows.now)) 0
        added.now)
        result }
{
    for place in 0..added.len() {
        let beside = Standing::of(rows, deleted, &added[..place], by.person);
        if let Some(code) = code_added(on, by, &beside, &added[place]) {
            return Err((code, place));
        }
    }
    Ok(())
}

/// The code with which one more item is refused.
fn code_added<R: ItemList>(
    on: Object,
    by: &Adder,
    beside: &Standing<'_, R>,
    given: &AuxInput,
) -> Option<u32>
    ensures { result ≡ Items.code_added on by.now beside.now given.now }
{
    match kind_of(given.tag) {
        None => Some(errors::ILLEGAL_AUX_ITEM),
        Some(known) => {
            if !fits(on, by.person, beside, &known, given) {
                Some(errors::ILLEGAL_AUX_ITEM)
            } else if known.adding.allows(on, by.owns) {
                None
            } else {
                Some(errors::AUX_ITEM_PERMISSION)
            }
        }
    }
}

/// Whether an item of these contents may stand on an object, beside others.
fn fits<R: ItemList>(
    on: Object,
    creator: u32,
    beside: &Standing<'_, R>,
    known: &AuxKind,
    given: &AuxInput,
) -> bool
    ensures { result ≡ Items.fits on beside.now creator (kind_meant known.now) given.now }
{
    known.places.include(on)
        && given.content.len() <= LONGEST_CONTENT
        && given.flags & WRONG_ITEM_FLAGS == 0
        && beside.takes(known, creator)
}
