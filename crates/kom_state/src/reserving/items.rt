//! Room for the aux-items that effects add.
ghost use Rattle.std.specs.Prelude.{◌≡◌, OnOk, count_by};
ghost use Rattle.kom_state.specs.Room.{HasItemRoom, adds_item, item_key};

use aux_items::Items;
use kom_types::{Effect, Memory};

/// Makes room for all aux-items that effects add, on each text and each conference.
pub(crate) fn reserve_items(items: &mut Items, effects: &[Effect]) -> Result<(), Memory>
    ensures rows { items.new.rows ≡ items.old.rows }
    ensures ok { OnOk result (HasItemRoom items.new effects.now) }
{
    let count = item_count(effects);
    for effect in effects {
        if let Some((on_text, object)) = item_key(effect) {
            items.reserve(on_text, object, count)?;
        }
    }
    Ok(())
}

fn item_count(effects: &[Effect]) -> usize
    ensures { result ≡ count_by adds_item effects.now }
{
    effects
        .iter()
        .filter(|effect| item_key(effect).is_some())
        .count()
}

/// The text, or the conference, that an effect adds an aux-item to.
fn item_key(effect: &Effect) -> Option<(bool, u32)>
    ensures { result ≡ item_key effect.now }
{
    match effect {
        Effect::AuxAdded {
            on_text,
            object,
            ..
        } => Some((*on_text, *object)),
        _ => None,
    }
}
