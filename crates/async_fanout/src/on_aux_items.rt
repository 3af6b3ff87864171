//! The message about the aux-items of a text.
ghost use Rattle.std.specs.Prelude.{◌≡◌, ◌++◌, true, IfOk, find, option_copied, ◌==◌};
ghost use Rattle.kom_model.specs.Db.{items_of};
ghost use Rattle.kom_model.specs.Shown.{items_shown};
ghost use Rattle.kom_model.specs.ToWhom.{items_named, items_made};
ghost use Rattle.kom_types.specs.declared.calls.Call.TheVariants as call;
ghost use Rattle.kom_model.specs.ToWhom.{sent_by};
ghost use Rattle.async_fanout.specs.Delivered.{all_brought};

use crate::added::item_in;
use crate::deliveries::{Delivery, Tells, deliver};
use access_rights::{gets_text, push_item, text_adder};
use kom_model::Viewer;
use kom_state::{Asked, StoredRows};
use kom_types::{
    Adder, AuxChange, AuxRow, AuxRows, Boxed, ChangedItems, Decision, Effect, Memory, Message,
    Sequence, async_numbers,
};
use std::alloc::Global;

/// Message 22, text-aux-changed: to who reads the text and takes the texts of a recipient, with the
/// items of which it is told, if there are any.
#[derive(Clone, Copy)]
pub(crate) struct TextAuxChanged<'a> {
    pub(crate) rows: &'a StoredRows,
    pub(crate) text: u32,
    /// The numbers of the items that go.
    pub(crate) deleted: &'a [u32],
    /// The effects that add others.
    pub(crate) effects: &'a [Effect],
}

impl<'a> Tells for TextAuxChanged<'a> {
    ghost use Rattle.kom_model.specs.Messages.{text_aux_changed};
    ghost use Rattle.kom_model.specs.ToWhom.{items_named, items_made};

    ghost sending = { λ one. text_aux_changed one.rows.now.db one.text
        (items_named one.rows.now.db one.text one.deleted.now) (items_made one.effects.now) };

    fn number(&self) -> u32 {
        async_numbers::TEXT_AUX_CHANGED
    }

    fn told(&self, alloc: Global, viewer: &Viewer) -> Result<Option<Message>, Memory> {
        if !gets_text(self.rows, viewer, self.text) {
            return Ok(None);
        }
        let by = text_adder(self.rows, viewer, self.text);
        let deleted = named_shown(alloc, self.rows, self.text, self.deleted, &by)?;
        let added = added_shown(alloc, self.effects, &by)?;
        if deleted.is_empty() && added.is_empty() {
            return Ok(None);
        }
        let changed = ChangedItems {
            text: self.text,
            deleted,
            added,
        };
        Ok(Some(Message::TextAuxChanged(Boxed::new(alloc, changed)?)))
    }
}

/// The items of a text that have these numbers, as they are told to who looks.
fn named_shown(
    alloc: Global,
    rows: &StoredRows,
    text: u32,
    numbers: &[u32],
    by: &Adder,
) -> Result<AuxRows, Memory>
    ensures { IfOk result (λ items. items
        ≡ items_shown by.now (items_named rows.now.db text numbers.now)) }
{
    let mut items = Sequence::new(alloc);
    for number in numbers {
        if let Some(item) = item_of(rows, text, *number) {
            push_item(alloc, &mut items, by, item)?;
        }
    }
    Ok(items)
}

/// The item of a text that has this number: the time grows with its items.
fn item_of(rows: &StoredRows, text: u32, number: u32) -> Option<&AuxRow>
    ensures { option_copied result
        ≡ find (λ item. item.number == number) (items_of rows.now.db true text) }
{
    for place in 0..rows.item_count(true, text) {
        if let Some(item) = rows.nth_item(true, text, place) {
            if item.number == number {
                return Some(item);
            }
        }
    }
    None
}

/// The items that effects add, as they are told to who looks.
fn added_shown(alloc: Global, effects: &[Effect], by: &Adder) -> Result<AuxRows, Memory>
    ensures { IfOk result (λ items. items ≡ items_shown by.now (items_made effects.now)) }
{
    let mut items = Sequence::new(alloc);
    for effect in effects {
        if let Some(item) = item_in(effect) {
            push_item(alloc, &mut items, by, item)?;
        }
    }
    Ok(items)
}

/// Adds what call 92, modify-text-info, sends, if it came to this decision.
#[tactic(auto, using(crate::proofs::Brought::none, crate::proofs::Brought::one))]
pub(crate) fn modify_text_info(
    asked: &Asked<'_>,
    change: &Boxed<AuxChange>,
    decision: &Decision,
    sent: &mut Vec<Delivery>,
) -> Result<(), Memory>
    ensures { IfOk result (λ done. sent.new.items ≡ sent.old.items
        ++ all_brought asked.now
        (sent_by asked.now decision.now (call.ModifyTextInfo change.now))) }
{
    let change = change.get();
    let message = TextAuxChanged {
        rows: asked.rows(),
        text: change.object,
        deleted: change.delete.as_slice(),
        effects: decision.effects.as_slice(),
    };
    deliver(asked, &message, sent)
}
