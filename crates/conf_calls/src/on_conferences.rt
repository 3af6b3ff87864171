ghost use Rattle.std.specs.Prelude.{◌≡◌, ◌≤◌, false, ◌∷◌, ◌++◌, length, IfOk};
ghost use Rattle.kom_types.specs.declared.limits.TheConstants.{MOST_AUX_ITEMS};
ghost use Rattle.kom_types.specs.AuxItems.{items_from};
ghost use Rattle.kom_model.specs.Db.{next_conference_of};
ghost use Rattle.kom_model.specs.calls.AuxItems.{items_added};
ghost use Rattle.kom_model.specs.calls.Call.{Meets};
ghost use Rattle.kom_model.specs.calls.Conferences as Conferences;
ghost use Rattle.kom_model.specs.calls.Guards.{Guards};
ghost use Rattle.kom_model.specs.calls.Sessions.{counts};

use crate::owning::owner_guards;
use access_rights::{login_guard, name_guard, new_items_guard, type_guard, unless};
use kom_model::{CallError, Refused, Viewer};
use kom_state::{Asked, StoredRows, new_items, push_items};
use kom_types::bits::{CREATES_CONFERENCES, is_letterbox};
use kom_types::{
    Bytes, Counter, Decision, Effect, EffectList, Memory, NewConference, Object, Reply, Sequence,
    errors,
};

/// Call 3, change-name.
pub fn change_name(asked: &Asked<'_>, conference: u32, name: &Bytes) -> Result<Decision, CallError>
    ensures { Meets (Conferences.change_name asked.now conference name.now) result }
{
    let rows = asked.rows();
    owner_guards(rows, &asked.caller(), conference)?;
    name_guard(name.as_slice())?;
    rows.free_guard(conference, name.as_slice())?;
    let name = Bytes::copy_of(asked.allocator(), name.as_slice())?;
    Ok(asked.with_effect(Effect::ConfNamed {
        number: conference,
        name,
    })?)
}

/// Call 88, create-conf: the caller is its creator and its supervisor.
#[tactic(auto, unfolding(kom_model::specs::Db::next_conference_of))]
pub fn create_conf(asked: &Asked<'_>, given: &NewConference) -> Result<Decision, CallError>
    ensures { Meets (Conferences.create_conf asked.now given.now) result }
{
    let caller = asked.caller();
    let rows = asked.rows();
    login_guard(&caller)?;
    create_conf_guard(rows, &caller)?;
    name_guard(given.name.as_slice())?;
    unless(!is_letterbox(given.kind), errors::LETTERBOX, 0)?;
    type_guard(given.kind)?;
    rows.free_guard(0, given.name.as_slice())?;
    rows.drawn_guard()?;
    new_items_guard(Object::Conference, caller.person, &given.aux_items)?;
    Ok(Decision {
        reply: Reply::Number(rows.next_conference()),
        effects: made_effects(asked, &caller, given)?,
        changes: Sequence::new(asked.allocator()),
    })
}

/// The caller may make conferences, or its session is strong.
fn create_conf_guard(rows: &StoredRows, caller: &Viewer) -> Result<(), Refused>
    ensures { Guards (Conferences.create_conf_guard rows.now.db caller.now) result }
{
    unless(
        may_make_conferences(rows, caller.person) || caller.strong,
        errors::PERMISSION_DENIED,
        0,
    )
}

fn may_make_conferences(rows: &StoredRows, person: u32) -> bool
    ensures { result ≡ Conferences.may_make_conferences rows.now.db person }
{
    match rows.person(person) {
        None => false,
        Some(row) => row.privileges & CREATES_CONFERENCES != 0,
    }
}

/// The conference is added with its aux-items, and counted among those that the caller made.
#[tactic(auto, unfolding(kom_model::specs::Db::next_conference_of))]
fn made_effects(
    asked: &Asked<'_>,
    caller: &Viewer,
    given: &NewConference,
) -> Result<EffectList, Memory>
    requires { length given.now.aux_items ≤ MOST_AUX_ITEMS }
    ensures { let by = caller.now.person in let number = next_conference_of asked.now.db in
        IfOk result (λ effects. effects ≡ Effect.ConfAdded number given.now.name given.now.kind
        asked.now.moment by by ∷ items_added false number
        (items_from 1 by asked.now.moment given.now.aux_items)
        ++ counts by Counter.CreatedConferences 1) }
{
    let alloc = asked.allocator();
    let number = asked.rows().next_conference();
    let mut effects = Sequence::new(alloc);
    effects.push(Effect::ConfAdded {
        number,
        name: Bytes::copy_of(alloc, given.name.as_slice())?,
        kind: given.kind,
        at: asked.moment(),
        creator: caller.person,
        supervisor: caller.person,
    })?;
    let items = new_items(asked, 1, caller.person, given.aux_items.as_slice())?;
    push_items(&mut effects, false, number, items)?;
    effects.push(Effect::Counted {
        number: caller.person,
        counter: Counter::CreatedConferences,
        by: 1,
    })?;
    Ok(effects)
}
