ghost use Rattle.std.specs.Prelude.{◌≡◌, ◌≤◌, length, IfOk};
ghost use Rattle.kom_types.specs.declared.limits.TheConstants.{MOST_AUX_ITEMS};
ghost use Rattle.kom_model.specs.calls.Call.{Meets};
ghost use Rattle.kom_model.specs.calls.Guards.{Guards};
ghost use Rattle.kom_model.specs.calls.Persons as Persons;

use crate::leaving::count;
use access_rights::{
    login_guard, name_guard, new_items_guard, size_guard, strong_guard, supervisor_guard,
    text_or_none_guard, unless,
};
use kom_model::{CallError, Refused, Viewer};
use kom_state::{Asked, StoredRows, new_items, push_items};
use kom_types::bits::{CREATES_PERSONS, FIRST_PRIVILEGES, LETTERBOX_TYPE};
use kom_types::limits::LONGEST_PASSWORD;
use kom_types::{
    Bytes, Counter, Decision, Effect, EffectList, Memory, NewPerson, Object, PasswordChange,
    PersonField, Reply, Sequence, errors, password_hash,
};

/// Call 7, set-priv-bits.
pub fn set_priv_bits(asked: &Asked<'_>, person: u32, privileges: u16) -> Result<Decision, CallError>
    ensures { Meets (Persons.set_priv_bits asked.now person privileges) result }
{
    let caller = asked.caller();
    login_guard(&caller)?;
    asked.rows().person_guard(person)?;
    strong_guard(&caller)?;
    Ok(asked.with_effect(Effect::PersonField {
        number: person,
        field: PersonField::Privileges(privileges),
    })?)
}

/// Call 8, set-passwd: the old password is that of the caller.
pub fn set_passwd(asked: &Asked<'_>, given: &PasswordChange) -> Result<Decision, CallError>
    ensures { Meets (Persons.set_passwd asked.now given.now) result }
{
    let caller = asked.caller();
    let rows = asked.rows();
    login_guard(&caller)?;
    rows.person_guard(given.person)?;
    supervisor_guard(rows, &caller, given.person)?;
    rows.password_guard(&caller, caller.person, given.old_password.as_slice())?;
    size_guard(given.new_password.as_slice(), LONGEST_PASSWORD)?;
    Ok(asked.with_effect(Effect::Password {
        number: given.person,
        hash: password_hash(given.person, given.new_password.as_slice()),
    })?)
}

/// Call 89, create-person: nobody is logged in by it.
#[tactic(auto, unfolding(kom_model::specs::Db::next_conference_of))]
pub fn create_person(asked: &Asked<'_>, given: &NewPerson) -> Result<Decision, CallError>
    ensures { Meets (Persons.create_person asked.now given.now) result }
{
    let rows = asked.rows();
    create_person_guard(rows, &asked.caller())?;
    name_guard(given.name.as_slice())?;
    size_guard(given.password.as_slice(), LONGEST_PASSWORD)?;
    rows.free_guard(0, given.name.as_slice())?;
    rows.drawn_guard()?;
    let number = rows.next_conference();
    let by = maker(asked.caller().person, number);
    new_items_guard(Object::Letterbox, by, &given.aux_items)?;
    Ok(Decision {
        reply: Reply::Number(number),
        effects: person_effects(asked, number, given)?,
        changes: Sequence::new(asked.allocator()),
    })
}

/// The caller may make persons.
fn create_person_guard(rows: &StoredRows, caller: &Viewer) -> Result<(), Refused>
    ensures { Guards (Persons.create_person_guard rows.now.db caller.now) result }
{
    unless(
        may_make_persons(rows, caller.person) || caller.strong,
        errors::PERMISSION_DENIED,
        0,
    )
}

/// Whether nobody is logged in, or a person that may make persons.
fn may_make_persons(rows: &StoredRows, person: u32) -> bool
    ensures { result ≡ Persons.may_make_persons rows.now.db person }
{
    match rows.person(person) {
        None => person == 0,
        Some(row) => row.privileges & CREATES_PERSONS != 0,
    }
}

/// A person of this number is made, with a letterbox in which it is a member, and its aux-items.
fn person_effects(asked: &Asked<'_>, person: u32, given: &NewPerson) -> Result<EffectList, Memory>
    requires { length given.now.aux_items ≤ MOST_AUX_ITEMS }
    ensures { IfOk result (λ effects. effects
        ≡ Persons.person_effects asked.now person given.now) }
{
    let caller = asked.caller().person;
    let by = maker(caller, person);
    let mut effects = Sequence::new(asked.allocator());
    effects.push(Effect::ConfAdded {
        number: person,
        name: Bytes::copy_of(asked.allocator(), given.name.as_slice())?,
        kind: LETTERBOX_TYPE,
        at: asked.moment(),
        creator: by,
        supervisor: person,
    })?;
    effects.push(Effect::PersonAdded {
        number: person,
        privileges: FIRST_PRIVILEGES,
        flags: given.flags,
        last_login: asked.moment(),
    })?;
    effects.push(Effect::Password {
        number: person,
        hash: password_hash(person, given.password.as_slice()),
    })?;
    effects.push(Effect::MemberSet {
        person,
        conference: person,
        position: 0,
        priority: u8::MAX,
        added_by: by,
        added_at: asked.moment(),
        kind: 0,
    })?;
    let items = new_items(asked, 1, by, given.aux_items.as_slice())?;
    push_items(&mut effects, false, person, items)?;
    if caller != 0 {
        count(&mut effects, caller, Counter::CreatedPersons, 1)?;
    }
    Ok(effects)
}

/// Who makes a person: the caller, or else the person itself.
fn maker(caller: u32, person: u32) -> u32
    ensures { result ≡ Persons.maker caller person }
{
    if caller == 0 { person } else { caller }
}

/// Call 106, set-pers-flags.
pub fn set_pers_flags(asked: &Asked<'_>, person: u32, flags: u8) -> Result<Decision, CallError>
    ensures { Meets (Persons.set_pers_flags asked.now person flags) result }
{
    let caller = asked.caller();
    login_guard(&caller)?;
    asked.rows().person_guard(person)?;
    supervisor_guard(asked.rows(), &caller, person)?;
    Ok(asked.with_effect(Effect::PersonField {
        number: person,
        field: PersonField::Flags(flags),
    })?)
}

/// Call 57, set-user-area: a text, or 0.
pub fn set_user_area(asked: &Asked<'_>, person: u32, text: u32) -> Result<Decision, CallError>
    ensures { Meets (Persons.set_user_area asked.now person text) result }
{
    let caller = asked.caller();
    let rows = asked.rows();
    login_guard(&caller)?;
    rows.person_guard(person)?;
    supervisor_guard(rows, &caller, person)?;
    text_or_none_guard(rows, &caller, text)?;
    Ok(asked.with_effect(Effect::PersonField {
        number: person,
        field: PersonField::UserArea(text),
    })?)
}
