ghost use Rattle.std.specs.Prelude.{◌≤◌, [], ◌∷◌, ◌++◌, length, map, flat_map, OnOk};
ghost use Rattle.kom_types.specs.Parts.{Makes};
ghost use Rattle.kom_types.specs.declared.effects.PersonField.TheVariants as field;
ghost use Rattle.kom_snapshot.specs.Snap.{person_effects, count_effect, count_effects, unless_zero};
ghost use Rattle.kom_telling.specs.Takes.{Keeps, Takes};

use crate::sink::{PartSink, put_plain};
use kom_types::limits::LONGEST_USER_NAME;
use kom_types::{Counter, Effect, PartRef, PersonField, PersonRow};

/// Tells a person.
pub(crate) fn tell_person<S: PartSink>(row: &PersonRow, sink: &mut S) -> Result<(), S::Refusal>
    requires { length row.now.user ≤ LONGEST_USER_NAME }
    ensures told { OnOk result
        (Takes S.took sink.old sink.new (map Makes (person_effects row.now))) }
    ensures keeps { Keeps S.becomes sink.old sink.new }
{
    put_plain(
        sink,
        Effect::PersonAdded {
            number: row.number,
            privileges: row.privileges,
            flags: row.flags,
            last_login: row.last_login,
        },
    )?;
    tell_area(row, sink)?;
    put_plain(
        sink,
        Effect::Password {
            number: row.number,
            hash: row.hash,
        },
    )?;
    tell_login(row, sink)?;
    tell_counts(row, sink)
}

/// Tells the user-area of a person, if it has one.
fn tell_area<S: PartSink>(row: &PersonRow, sink: &mut S) -> Result<(), S::Refusal>
    ensures told { OnOk result
        (Takes S.took sink.old sink.new (map Makes (unless_zero row.now.user_area
        (Effect.PersonField row.now.number (field.UserArea row.now.user_area))))) }
    ensures keeps { Keeps S.becomes sink.old sink.new }
{
    if row.user_area == 0 {
        return Ok(());
    }
    put_plain(
        sink,
        Effect::PersonField {
            number: row.number,
            field: PersonField::UserArea(row.user_area),
        },
    )
}

/// Tells the last login of a person, if it has had one.
fn tell_login<S: PartSink>(row: &PersonRow, sink: &mut S) -> Result<(), S::Refusal>
    requires { length row.now.user ≤ LONGEST_USER_NAME }
    ensures told { OnOk result
        (Takes S.took sink.old sink.new (map Makes (unless_zero row.now.sessions (Effect.LoggedIn
        row.now.number row.now.last_login row.now.user)))) }
    ensures keeps { Keeps S.becomes sink.old sink.new }
{
    if row.sessions == 0 {
        return Ok(());
    }
    sink.put(&PartRef::LoggedIn {
        number: row.number,
        at: row.last_login,
        user: row.user.as_slice(),
    })
}

/// Tells what was counted of a person.
fn tell_counts<S: PartSink>(row: &PersonRow, sink: &mut S) -> Result<(), S::Refusal>
    ensures told { OnOk result
        (Takes S.took sink.old sink.new (map Makes (count_effects row.now))) }
    ensures keeps { Keeps S.becomes sink.old sink.new }
{
    let counts = [
        (Counter::TimePresent, row.time_present),
        (Counter::CreatedLines, row.created_lines),
        (Counter::CreatedBytes, row.created_bytes),
        (Counter::ReadTexts, row.read_texts),
        (Counter::TextFetches, row.text_fetches),
        (Counter::CreatedPersons, row.created_persons),
        (Counter::CreatedConferences, row.created_conferences),
    ];
    tell_each_count(row.number, &counts, sink)
}

fn tell_each_count<S: PartSink>(
    number: u32,
    counts: &[(Counter, u32)],
    sink: &mut S,
) -> Result<(), S::Refusal>
    ensures told { OnOk result
        (Takes S.took sink.old sink.new (flat_map (λ one. map Makes (count_effect number one.0
        one.1)) counts.now)) }
    ensures keeps { Keeps S.becomes sink.old sink.new }
{
    for one in counts {
        tell_count(number, one.0, one.1, sink)?;
    }
    Ok(())
}

fn tell_count<S: PartSink>(
    number: u32,
    counter: Counter,
    count: u32,
    sink: &mut S,
) -> Result<(), S::Refusal>
    ensures told { OnOk result
        (Takes S.took sink.old sink.new (map Makes (count_effect number counter count))) }
    ensures keeps { Keeps S.becomes sink.old sink.new }
{
    if count == 0 {
        return Ok(());
    }
    put_plain(
        sink,
        Effect::Counted {
            number,
            counter,
            by: u64::from(count),
        },
    )
}
