//! What goes with a text.
ghost use Rattle.std.specs.Prelude.{◌≡◌, ◌++◌, map, IfOk};
ghost use Rattle.kom_model.specs.Db.{links_of, recipients_of, marks_on};
ghost use Rattle.kom_model.specs.calls.Texts as Texts;

use kom_state::{StoredRows, push_items_gone};
use kom_types::{Effect, EffectList, Memory, Sequence};
use std::alloc::Global;

/// What hangs on a text goes before it: links, recipients, marks, aux-items.
pub(crate) fn gone_text(alloc: Global, rows: &StoredRows, text: u32) -> Result<EffectList, Memory>
    ensures { IfOk result (λ effects. effects ≡ Texts.gone_text rows.now.db text) }
{
    let mut effects = Sequence::new(alloc);
    push_links(&mut effects, rows, text)?;
    push_recipients(&mut effects, rows, text)?;
    push_marks(&mut effects, rows, text)?;
    push_items_gone(&mut effects, rows, true, text)?;
    effects.push(Effect::TextGone { number: text })?;
    Ok(effects)
}

fn push_links(effects: &mut EffectList, rows: &StoredRows, text: u32) -> Result<(), Memory>
    ensures { IfOk result (λ done. effects.new ≡ effects.old
        ++ map (λ link. Effect.LinkGone link.child link.parent link.footnote)
        (links_of rows.now.db text)) }
{
    let links = rows.links_of(text)?;
    for link in links.as_slice() {
        effects.push(Effect::LinkGone {
            child: link.child,
            parent: link.parent,
            footnote: link.footnote,
        })?;
    }
    Ok(())
}

fn push_recipients(effects: &mut EffectList, rows: &StoredRows, text: u32) -> Result<(), Memory>
    ensures { IfOk result (λ done. effects.new ≡ effects.old
        ++ map (λ row. Effect.RecipientGone row.text row.conference)
        (recipients_of rows.now.db text)) }
{
    for place in 0..rows.recipient_count(text) {
        if let Some(row) = rows.nth_recipient(text, place) {
            effects.push(Effect::RecipientGone {
                text: row.text,
                conference: row.conference,
            })?;
        }
    }
    Ok(())
}

fn push_marks(effects: &mut EffectList, rows: &StoredRows, text: u32) -> Result<(), Memory>
    ensures { IfOk result (λ done. effects.new ≡ effects.old
        ++ map (λ row. Effect.MarkGone row.person row.text) (marks_on rows.now.db text)) }
{
    for place in 0..rows.mark_count_on(text) {
        if let Some(row) = rows.nth_mark_on(text, place) {
            effects.push(Effect::MarkGone {
                person: row.person,
                text: row.text,
            })?;
        }
    }
    Ok(())
}
