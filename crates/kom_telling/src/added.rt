// Rows that are told in the order of adding.
ghost use Rattle.std.specs.Prelude.{◌≤◌, [], ◌∷◌, length, flat_map, OnOk};
ghost use Rattle.std.specs.List.{AllByRecursion};
ghost use Rattle.kom_types.specs.Parts.{Makes};
ghost use Rattle.kom_telling.specs.Takes.{Keeps, Takes};

use crate::sink::{PartSink, put_plain};
use kom_types::limits::LONGEST_CONTENT;
use kom_types::{Effect, ItemRow, MarkRow, PartRef, Recipient, TextLink};
use row_slots::SlotWalk;

pub(crate) fn tell_recipients<S: PartSink>(
    mut walk: SlotWalk<'_, Recipient>,
    sink: &mut S,
) -> Result<(), S::Refusal>
    ensures told { OnOk result
        (Takes S.took sink.old sink.new (flat_map (λ row. Makes (Effect.RecipientAdded row) ∷ [])
        walk.entry)) }
    ensures keeps { Keeps S.becomes sink.old sink.new }
{
    while let Some(row) = walk.next_row() {
        put_plain(sink, Effect::RecipientAdded(*row))?;
    }
    Ok(())
}

pub(crate) fn tell_links<S: PartSink>(
    mut walk: SlotWalk<'_, TextLink>,
    sink: &mut S,
) -> Result<(), S::Refusal>
    ensures told { OnOk result
        (Takes S.took sink.old sink.new (flat_map (λ row. Makes (Effect.LinkAdded row) ∷ [])
        walk.entry)) }
    ensures keeps { Keeps S.becomes sink.old sink.new }
{
    while let Some(row) = walk.next_row() {
        put_plain(sink, Effect::LinkAdded(*row))?;
    }
    Ok(())
}

pub(crate) fn tell_marks<S: PartSink>(
    mut walk: SlotWalk<'_, MarkRow>,
    sink: &mut S,
) -> Result<(), S::Refusal>
    ensures told { OnOk result
        (Takes S.took sink.old sink.new (flat_map (λ row. Makes (Effect.MarkSet row.person row.text
        row.kind) ∷ []) walk.entry)) }
    ensures keeps { Keeps S.becomes sink.old sink.new }
{
    while let Some(row) = walk.next_row() {
        put_plain(
            sink,
            Effect::MarkSet {
                person: row.person,
                text: row.text,
                kind: row.kind,
            },
        )?;
    }
    Ok(())
}

pub(crate) fn tell_items<S: PartSink>(
    mut walk: SlotWalk<'_, ItemRow>,
    sink: &mut S,
) -> Result<(), S::Refusal>
    requires { AllByRecursion (λ row. length row.item.content ≤ LONGEST_CONTENT) walk }
    ensures told { OnOk result
        (Takes S.took sink.old sink.new (flat_map (λ row. Makes (Effect.AuxAdded row.on_text
        row.object row.item) ∷ []) walk.entry)) }
    ensures keeps { Keeps S.becomes sink.old sink.new }
{
    while let Some(row) = walk.next_row() {
        sink.put(&PartRef::ItemAdded {
            on_text: row.on_text,
            object: row.object,
            item: &row.item,
        })?;
    }
    Ok(())
}
