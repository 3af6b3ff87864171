ghost use Rattle.kom_model.specs.calls.AuxItems as AuxItems;
ghost use Rattle.kom_model.specs.calls.Call.{Meets};

use access_rights::{items_guard, login_guard, text_adder, text_guard};
use kom_model::CallError;
use kom_state::{Asked, item_effects};
use kom_types::{AuxChange, Decision, Object, Reply, Sequence};

/// Call 92, modify-text-info. The time grows with the items of the text for each entry.
pub fn modify_text_info(asked: &Asked<'_>, change: &AuxChange) -> Result<Decision, CallError>
    ensures { Meets (AuxItems.modify_text_info asked.now change.now) result }
{
    let caller = asked.caller();
    let rows = asked.rows();
    let text = change.object;
    login_guard(&caller)?;
    text_guard(rows, &caller, text)?;
    let by = text_adder(rows, &caller, text);
    items_guard(
        rows,
        true,
        text,
        Object::Text,
        &by,
        change.delete.as_slice(),
        change.add.as_slice(),
    )?;
    rows.numbers_guard(true, change)?;
    Ok(Decision {
        reply: Reply::Done,
        effects: item_effects(asked, true, &by, change)?,
        changes: Sequence::new(asked.allocator()),
    })
}
