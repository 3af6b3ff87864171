//! The items that stand on an object when one more is added.
ghost use Rattle.std.specs.Prelude.{◌≡◌, ◌<◌, ◌≤◌, ◌++◌, ◌==◌, ◌&&◌, not, length, map, IsTrue};
ghost use Rattle.std.specs.Prelude.{nat_lt};
ghost use Rattle.std.specs.List.{list_any};
ghost use Rattle.kom_types.specs.declared.limits.TheConstants.{MOST_AUX_ITEMS};
ghost use Rattle.kom_types.specs.AuxItems as Items;
ghost use Rattle.aux_items.specs.Kinds.{count_meant, kind_meant};

use crate::kinds::{AuxKind, Count};
use crate::list::ItemList;
use kom_types::limits::MOST_AUX_ITEMS;
use kom_types::{AuxInput, AuxRow};
use std::marker::Model;

/// Items that are left of an object's, and then those that a person adds. They are not copied.
#[derive(Drop)]
pub(crate) struct Standing<'a, R: ItemList> {
    rows: &'a R,
    deleted: &'a [u32],
    added: &'a [AuxInput],
    person: u32,
}

impl<'a, R: ItemList> Model for Standing<'a, R> {
    ghost use Rattle.std.specs.Prelude.{List, ◌++◌, map};
    ghost use Rattle.kom_types.specs.declared.aux_items.AuxRow.{AuxRow};
    ghost use Rattle.kom_types.specs.AuxItems.{left_after, item_of};

    ghost Value = { List AuxRow };

    ghost view = { λ s. left_after s.deleted.now (R.items s.rows.now)
        ++ map (item_of 0 s.person 0) s.added.now };
}

impl<'a, R: ItemList> Standing<'a, R> {
    /// All that an object has.
    pub(crate) fn all(rows: &'a R) -> Standing<'a, R>
        ensures { result ≡ R.items rows.now }
    {
        Standing {
            rows,
            deleted: &[],
            added: &[],
            person: 0,
        }
    }

    /// What is left of an object's items, and what a person added.
    pub(crate) fn of(
        rows: &'a R,
        deleted: &'a [u32],
        added: &'a [AuxInput],
        person: u32,
    ) -> Standing<'a, R>
        ensures { result ≡ Items.left_after deleted.now (R.items rows.now)
            ++ map (Items.item_of 0 person 0) added.now }
    {
        Standing {
            rows,
            deleted,
            added,
            person,
        }
    }

    /// Whether there may be one more of a kind by a creator.
    pub(crate) fn takes(&self, known: &AuxKind, creator: u32) -> bool
        ensures value { result ≡ Items.may_stand (kind_meant known.now) self.now creator }
        ensures room { IsTrue result → length self.now < MOST_AUX_ITEMS }
    {
        self.is_short() && self.leaves_room(known.count, known.tag, creator)
    }

    fn leaves_room(&self, count: Count, tag: u32, creator: u32) -> bool
        ensures { result ≡ Items.leaves_room (count_meant count) self.now tag creator }
    {
        match count {
            Count::One => !self.has(tag),
            Count::OnePerCreator => !self.has_by(tag, creator),
            Count::Any => true,
        }
    }

    /// Whether there are fewer items than an object may have.
    fn is_short(&self) -> bool
        ensures { result ≡ nat_lt (length self.now) MOST_AUX_ITEMS }
    {
        count_left(self.rows, self.deleted).saturating_add(self.added.len()) < MOST_AUX_ITEMS
    }

    fn has(&self, tag: u32) -> bool
        ensures { result ≡ list_any (λ item. item.tag == tag) self.now }
    {
        has_left(self.rows, self.deleted, tag) || has_added(self.added, tag)
    }

    fn has_by(&self, tag: u32, creator: u32) -> bool
        ensures { result ≡ list_any (λ item. item.tag == tag && item.creator == creator) self.now }
    {
        has_left_by(self.rows, self.deleted, tag, creator)
            || self.person == creator && has_added(self.added, tag)
    }
}

fn count_left<R: ItemList>(rows: &R, deleted: &[u32]) -> usize
    ensures count { result ≡ length (Items.left_after deleted.now (R.items rows.now)) }
    ensures bound { result ≤ length (R.items rows.now) }
{
    let mut count = 0;
    for place in 0..rows.count() {
        if let Some(item) = rows.item(place) {
            if !is_among(deleted, item.number) {
                count += 1;
            }
        }
    }
    count
}

fn has_left<R: ItemList>(rows: &R, deleted: &[u32], tag: u32) -> bool
    ensures { result ≡ list_any
        (λ item. item.tag == tag && not (Items.is_among deleted.now item.number))
        (R.items rows.now) }
{
    for place in 0..rows.count() {
        if let Some(item) = rows.item(place) {
            if is_left(item, deleted, tag) {
                return true;
            }
        }
    }
    false
}

fn has_left_by<R: ItemList>(rows: &R, deleted: &[u32], tag: u32, creator: u32) -> bool
    ensures { result ≡ list_any (λ item. (item.tag == tag && item.creator == creator)
        && not (Items.is_among deleted.now item.number)) (R.items rows.now) }
{
    for place in 0..rows.count() {
        if let Some(item) = rows.item(place) {
            if is_left_by(item, deleted, tag, creator) {
                return true;
            }
        }
    }
    false
}

/// Whether an item has this tag, and is not deleted.
fn is_left(item: &AuxRow, deleted: &[u32], tag: u32) -> bool
    ensures { result
        ≡ (item.now.tag == tag && not (Items.is_among deleted.now item.now.number)) }
{
    item.tag == tag && !is_among(deleted, item.number)
}

/// Whether an item has this tag and this creator, and is not deleted.
fn is_left_by(item: &AuxRow, deleted: &[u32], tag: u32, creator: u32) -> bool
    ensures { result ≡ ((item.now.tag == tag && item.now.creator == creator)
        && not (Items.is_among deleted.now item.now.number)) }
{
    item.tag == tag && item.creator == creator && !is_among(deleted, item.number)
}

fn has_added(added: &[AuxInput], tag: u32) -> bool
    ensures { result ≡ list_any (λ given. given.tag == tag) added.now }
{
    added.iter().any(|given| given.tag == tag)
}

/// Whether a number is among others.
pub(crate) fn is_among(numbers: &[u32], number: u32) -> bool
    ensures { result ≡ Items.is_among numbers.now number }
{
    numbers.iter().any(|one| *one == number)
}
