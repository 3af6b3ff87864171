//! The aux-items of an object: who owns it, which change of them passes, and what is told of them.
ghost use Rattle.std.specs.Prelude.{◌≡◌, ◌++◌, ◌∷◌, [], IfOk, if◌then◌else◌};
ghost use Rattle.kom_types.specs.AuxItems as Items;
ghost use Rattle.kom_model.specs.Db.{items_of};
ghost use Rattle.kom_model.specs.Shown as Shown;
ghost use Rattle.kom_model.specs.calls.Guards as Guard;
ghost use Rattle.kom_model.specs.calls.Guards.{Guards};

use crate::rights::supervises;
use crate::text_stat::told_count;
use crate::texts::is_author;
use aux_items::{ItemList, check_items};
use kom_model::{Refused, Rows, Viewer};
use kom_types::bits::{HIDE_CREATOR, SECRET_ITEM};
use kom_types::{Adder, AuxInput, AuxInputs, AuxRow, AuxRows, Bytes, Memory, Object, Sequence};
use std::alloc::Global;
use std::marker::Model;

/// The items of a text, or of a conference, as any rows keep them. They are not copied.
#[derive(Drop)]
pub struct ItemsOf<'a, R: Rows> {
    rows: &'a R,
    on_text: bool,
    object: u32,
}

impl<'a, R: Rows> Model for ItemsOf<'a, R> {
    ghost use Rattle.std.specs.Prelude.{List};
    ghost use Rattle.kom_types.specs.declared.aux_items.AuxRow.{AuxRow};
    ghost use Rattle.kom_model.specs.Db.{items_of};

    ghost Value = { List AuxRow };

    ghost view = { λ s. items_of (R.db s.rows.now) s.on_text s.object };
}

impl<'a, R: Rows> ItemsOf<'a, R> {
    /// The items of the text, or of the conference, of this number.
    pub fn of(rows: &'a R, on_text: bool, object: u32) -> ItemsOf<'a, R>
        ensures { result ≡ items_of (R.db rows.now) on_text object }
    {
        ItemsOf {
            rows,
            on_text,
            object,
        }
    }
}

impl<'a, R: Rows> ItemList for ItemsOf<'a, R> {
    ghost items = { λ rows. rows };

    fn count(&self) -> usize {
        self.rows.item_count(self.on_text, self.object)
    }

    fn item(&self, place: usize) -> Option<&AuxRow> {
        self.rows.item(self.on_text, self.object, place)
    }
}

/// The items of an object that is not made yet: none.
#[derive(Clone, Copy)]
struct NoItems;

impl ItemList for NoItems {
    ghost use Rattle.std.specs.Prelude.{[]};

    ghost items = { λ none. [] };

    fn count(&self) -> usize {
        0
    }

    fn item(&self, _place: usize) -> Option<&AuxRow> {
        None
    }
}

/// Who looks at the items of a text. (Protocol A, "Auxiliary Information".)
pub fn text_adder<R: Rows>(rows: &R, viewer: &Viewer, text: u32) -> Adder
    ensures { result ≡ Shown.text_adder (R.db rows.now) viewer.now text }
{
    Adder {
        person: viewer.person,
        owns: owns_text(rows, viewer, text),
    }
}

/// Who looks at the items of a conference. (Protocol A, "Auxiliary Information".)
pub fn conference_adder<R: Rows>(rows: &R, viewer: &Viewer, conference: u32) -> Adder
    ensures { result ≡ Shown.conference_adder (R.db rows.now) viewer.now conference }
{
    Adder {
        person: viewer.person,
        owns: supervises(rows, viewer.person, conference) || viewer.strong,
    }
}

fn owns_text<R: Rows>(rows: &R, viewer: &Viewer, text: u32) -> bool
    ensures { result ≡ (Shown.text_adder (R.db rows.now) viewer.now text).owns }
{
    match rows.author(text) {
        None => viewer.strong,
        Some(author) => {
            is_author(viewer.person, author)
                || supervises(rows, viewer.person, author)
                || viewer.strong
        }
    }
}

/// A change of the items of an object passes: the time grows with its items for each entry.
pub fn items_guard<R: Rows>(
    rows: &R,
    on_text: bool,
    object: u32,
    on: Object,
    by: &Adder,
    deleted: &[u32],
    added: &[AuxInput],
) -> Result<(), Refused>
    ensures { Guards (Guard.items_guard on by.now (items_of (R.db rows.now) on_text object)
        deleted.now added.now) result }
{
    change_guard(on, by, &ItemsOf::of(rows, on_text, object), deleted, added)
}

/// The items pass with which a person makes an object.
pub fn new_items_guard(on: Object, maker: u32, added: &AuxInputs) -> Result<(), Refused>
    ensures { Guards (Guard.new_items_guard on maker added.now) result }
{
    let by = Adder {
        person: maker,
        owns: true,
    };
    change_guard(on, &by, &NoItems, &[], added.as_slice())
}

fn change_guard<L: ItemList>(
    on: Object,
    by: &Adder,
    items: &L,
    deleted: &[u32],
    added: &[AuxInput],
) -> Result<(), Refused>
    ensures { Guards
        (Guard.items_guard on by.now (L.items items.now) deleted.now added.now) result }
{
    match check_items(on, by, items, deleted, added) {
        Ok(()) => Ok(()),
        Err((code, place)) => Err(Refused {
            code,
            status: told_count(place),
        }),
    }
}

/// The items of an object that are shown to who looks, with copies of their contents: the time
/// grows with all its items and with those contents. (Protocol A, "Auxiliary Information".)
pub fn items_shown<R: Rows>(
    alloc: Global,
    rows: &R,
    on_text: bool,
    object: u32,
    by: &Adder,
) -> Result<AuxRows, Memory>
    ensures { IfOk result (λ items. items
        ≡ Shown.items_shown by.now (items_of (R.db rows.now) on_text object)) }
{
    let mut items = Sequence::new(alloc);
    push_items(alloc, &mut items, rows, on_text, object, by)?;
    Ok(items)
}

/// Adds the items that are shown to who looks, as they are told.
fn push_items<R: Rows>(
    alloc: Global,
    items: &mut AuxRows,
    rows: &R,
    on_text: bool,
    object: u32,
    by: &Adder,
) -> Result<(), Memory>
    ensures { IfOk result (λ done. items.new ≡ items.old
        ++ Shown.items_shown by.now (items_of (R.db rows.now) on_text object)) }
{
    for place in 0..rows.item_count(on_text, object) {
        if let Some(item) = rows.item(on_text, object, place) {
            push_item(alloc, items, by, item)?;
        }
    }
    Ok(())
}

/// Adds an item as it is told, with a copy of its content, if it is shown to who looks. (Protocol
/// A, "Auxiliary Information".)
pub fn push_item(
    alloc: Global,
    items: &mut AuxRows,
    by: &Adder,
    item: &AuxRow,
) -> Result<(), Memory>
    ensures { IfOk result (λ done. items.new ≡ items.old
        ++ (if Items.is_shown by.now item.now then Shown.item_told by.now item.now ∷ [] else [])) }
{
    if is_shown(by, item) {
        items.push(item_told(alloc, by, item)?)?;
    }
    Ok(())
}

fn is_shown(by: &Adder, item: &AuxRow) -> bool
    ensures { result ≡ Items.is_shown by.now item.now }
{
    item.flags & SECRET_ITEM == 0 || item.creator == by.person || by.owns
}

fn item_told(alloc: Global, by: &Adder, item: &AuxRow) -> Result<AuxRow, Memory>
    ensures { IfOk result (λ told. told ≡ Shown.item_told by.now item.now) }
{
    let content = Bytes::copy_of(alloc, item.content.as_slice())?;
    Ok(AuxRow {
        number: item.number,
        tag: item.tag,
        creator: creator_told(by, item),
        at: item.at,
        flags: item.flags,
        limit: item.limit,
        content,
    })
}

/// Who added an item, or 0 if that is kept from who looks.
fn creator_told(by: &Adder, item: &AuxRow) -> u32
    ensures { result ≡ (Shown.item_told by.now item.now).creator }
{
    if item.flags & HIDE_CREATOR != 0 && !(item.creator == by.person || by.owns) {
        0
    } else {
        item.creator
    }
}
