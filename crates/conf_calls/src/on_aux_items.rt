ghost use Rattle.std.specs.Prelude.{◌≡◌};
ghost use Rattle.kom_model.specs.calls.AuxItems as AuxItems;
ghost use Rattle.kom_model.specs.calls.Call.{Meets};

use access_rights::{conference_adder, conference_guard, items_guard, login_guard};
use kom_model::CallError;
use kom_state::{Asked, StoredRows, item_effects};
use kom_types::bits::is_letterbox;
use kom_types::{AuxChange, Decision, Object, Reply, Sequence};

/// Call 93, modify-conf-info. The time grows with the items of the conference for each entry.
pub fn modify_conf_info(asked: &Asked<'_>, change: &AuxChange) -> Result<Decision, CallError>
    ensures { Meets (AuxItems.modify_conf_info asked.now change.now) result }
{
    let caller = asked.caller();
    let rows = asked.rows();
    let conference = change.object;
    login_guard(&caller)?;
    conference_guard(rows, &caller, conference)?;
    let by = conference_adder(rows, &caller, conference);
    items_guard(
        rows,
        false,
        conference,
        object_of(rows, conference),
        &by,
        change.delete.as_slice(),
        change.add.as_slice(),
    )?;
    rows.numbers_guard(false, change)?;
    Ok(Decision {
        reply: Reply::Done,
        effects: item_effects(asked, false, &by, change)?,
        changes: Sequence::new(asked.allocator()),
    })
}

/// What a conference is to aux-items.
fn object_of(rows: &StoredRows, conference: u32) -> Object
    ensures { result ≡ AuxItems.object_of rows.now.db conference }
{
    match rows.conference(conference) {
        Some(row) if is_letterbox(row.kind) => Object::Letterbox,
        _ => Object::Conference,
    }
}
