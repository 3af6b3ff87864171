//! The aux-items of a text that is made.
ghost use Rattle.std.specs.Prelude.{◌≡◌, ◌≤◌, true, length, filter, IfOk};
ghost use Rattle.kom_types.specs.declared.limits.TheConstants.{MOST_AUX_ITEMS};
ghost use Rattle.kom_types.specs.AuxItems.{inherit};
ghost use Rattle.kom_model.specs.Db.{items_of};
ghost use Rattle.kom_model.specs.calls.NewTexts as NewTexts;

use crate::naming::names_comment;
use access_rights::ItemsOf;
use kom_state::{Asked, new_items};
use kom_types::{AuxRows, Memory, MiscInput, NewText};

/// The items that a text is given, and those that it inherits from each text that it comments. The
/// time grows with the items of these.
pub(crate) fn made_items(asked: &Asked<'_>, given: &NewText) -> Result<AuxRows, Memory>
    requires { length given.now.aux_items ≤ MOST_AUX_ITEMS }
    ensures { IfOk result (λ items. items ≡ NewTexts.new_items asked.now given.now) }
{
    let caller = asked.caller();
    let mut items = new_items(asked, 1, caller.person, given.aux_items.as_slice())?;
    push_inherited(&mut items, asked, given.misc_inputs.as_slice())?;
    Ok(items)
}

fn push_inherited(items: &mut AuxRows, asked: &Asked<'_>, named: &[MiscInput]) -> Result<(), Memory>
    ensures { IfOk result (λ done. items.new
        ≡ NewTexts.inherited_from asked.now.db items.old
        (filter NewTexts.names_comment named.now)) }
{
    for item in named {
        if names_comment(item) {
            inherit(items, asked, item.value)?;
        }
    }
    Ok(())
}

/// What a commented text hands down.
fn inherit(items: &mut AuxRows, asked: &Asked<'_>, text: u32) -> Result<(), Memory>
    ensures { IfOk result (λ done. items.new
        ≡ inherit items.old (items_of asked.now.db true text)) }
{
    let parent = ItemsOf::of(asked.rows(), true, text);
    aux_items::inherit(asked.allocator(), items, &parent)
}
