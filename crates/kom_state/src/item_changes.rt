//! What calls make of aux-items.
ghost use Rattle.std.specs.Prelude.{◌≡◌, ◌+◌, ◌≤◌, ◌++◌, length, map, IfOk};
ghost use Rattle.kom_types.specs.declared.limits.TheConstants.{LAST_DRAWN};
ghost use Rattle.kom_types.specs.AuxItems as Items;
ghost use Rattle.kom_model.specs.Db.{items_of, next_item_of};
ghost use Rattle.kom_model.specs.calls.AuxItems as AuxItems;

use crate::asked::Asked;
use crate::stored_rows::StoredRows;
use kom_types::{
    Adder, AuxChange, AuxInput, AuxRow, AuxRows, Bytes, Effect, EffectList, Memory, Moment,
    Sequence,
};
use std::alloc::Global;

/// The aux-items that are added now, by this person, numbered from this number on: each with a copy
/// of its contents.
pub fn new_items(
    asked: &Asked<'_>,
    first: u32,
    creator: u32,
    given: &[AuxInput],
) -> Result<AuxRows, Memory>
    requires { first + length given.now ≤ LAST_DRAWN + 1 }
    ensures { IfOk result (λ items. items
        ≡ Items.items_from first creator asked.now.moment given.now) }
{
    let alloc = asked.allocator();
    let at = asked.moment();
    let mut items = Sequence::new(alloc);
    for place in 0..given.len() {
        let number = first + place as u32;
        items.push(item_of(alloc, number, creator, at, &given[place])?)?;
    }
    Ok(items)
}

fn item_of(
    alloc: Global,
    number: u32,
    creator: u32,
    at: Moment,
    given: &AuxInput,
) -> Result<AuxRow, Memory>
    ensures { IfOk result (λ item. item ≡ Items.item_of number creator at given.now) }
{
    Ok(AuxRow {
        number,
        tag: given.tag,
        creator,
        at,
        flags: given.flags,
        limit: given.inherit_limit,
        content: Bytes::copy_of(alloc, given.content.as_slice())?,
    })
}

/// Adds to effects that aux-items are added to a text, or a conference.
pub fn push_items(
    effects: &mut EffectList,
    on_text: bool,
    object: u32,
    items: AuxRows,
) -> Result<(), Memory>
    ensures { IfOk result (λ done. effects.new
        ≡ effects.old ++ AuxItems.items_added on_text object items) }
{
    for item in items.into_vec() {
        effects.push(Effect::AuxAdded {
            on_text,
            object,
            item,
        })?;
    }
    Ok(())
}

/// Adds to effects that all aux-items of a text, or a conference, go.
pub fn push_items_gone(
    effects: &mut EffectList,
    rows: &StoredRows,
    on_text: bool,
    object: u32,
) -> Result<(), Memory>
    ensures { IfOk result (λ done. effects.new ≡ effects.old
        ++ map (λ item. Effect.AuxGone on_text object item.number)
        (items_of rows.now.db on_text object)) }
{
    for place in 0..rows.item_count(on_text, object) {
        if let Some(item) = rows.nth_item(on_text, object, place) {
            effects.push(Effect::AuxGone {
                on_text,
                object,
                number: item.number,
            })?;
        }
    }
    Ok(())
}

/// The effects of a change of aux-items, for which numbers are left: those that are deleted go, and
/// others are added with the next numbers.
pub fn item_effects(
    asked: &Asked<'_>,
    on_text: bool,
    by: &Adder,
    change: &AuxChange,
) -> Result<EffectList, Memory>
    requires { next_item_of asked.now.db on_text change.now.object + length change.now.add
        ≤ LAST_DRAWN + 1 }
    ensures { IfOk result (λ effects. effects
        ≡ AuxItems.item_effects asked.now on_text by.now change.now) }
{
    let first = asked.rows().next_item(on_text, change.object);
    let items = new_items(asked, first, by.person, change.add.as_slice())?;
    let mut effects = Sequence::new(asked.allocator());
    push_gone(
        &mut effects,
        on_text,
        change.object,
        change.delete.as_slice(),
    )?;
    push_items(&mut effects, on_text, change.object, items)?;
    Ok(effects)
}

fn push_gone(
    effects: &mut EffectList,
    on_text: bool,
    object: u32,
    numbers: &[u32],
) -> Result<(), Memory>
    ensures { IfOk result (λ done. effects.new ≡ effects.old
        ++ map (λ number. Effect.AuxGone on_text object number) numbers.now) }
{
    for number in numbers {
        effects.push(Effect::AuxGone {
            on_text,
            object,
            number: *number,
        })?;
    }
    Ok(())
}
