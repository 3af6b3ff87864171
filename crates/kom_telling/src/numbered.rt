// What is told of rows that are found by their numbers.
ghost use Rattle.std.specs.Prelude.{◌≡◌, ◌≤◌, [], ◌∷◌, length, flat_map, OnOk};
ghost use Rattle.kom_types.specs.Parts.{Makes, Raises};
ghost use Rattle.kom_model.specs.Db.{created_by};
ghost use Rattle.kom_model.specs.Whole.{IsWhole};
ghost use Rattle.kom_snapshot.specs.Listed.{IsListed};
ghost use Rattle.kom_snapshot.specs.Snap.{raise_to};
ghost use Rattle.kom_telling.specs.Sections.{parts_at};
ghost use Rattle.kom_telling.specs.Takes.{Keeps, Takes};

use crate::on_conferences::tell_conference;
use crate::on_persons::tell_person;
use crate::section::Section;
use crate::sink::{PartSink, put_plain};
use kom_state::StoredRows;
use kom_types::limits::LONGEST_BODY;
use kom_types::{Effect, PartRef, Raised, RaisedCounter, TextRow};

/// Tells a section, of which each number finds a row.
pub(crate) fn tell_each<S: PartSink>(
    section: Section,
    rows: &StoredRows,
    numbers: &[u32],
    sink: &mut S,
) -> Result<(), S::Refusal>
    requires whole { IsWhole rows.now.db }
    requires listed { IsListed rows.now.db }
    ensures told { OnOk result
        (Takes S.took sink.old sink.new (flat_map (parts_at section rows.now.db) numbers.now)) }
    ensures keeps { Keeps S.becomes sink.old sink.new }
{
    for number in numbers {
        tell_numbered(section, rows, *number, sink)?;
    }
    Ok(())
}

/// Tells what of a section one number finds.
fn tell_numbered<S: PartSink>(
    section: Section,
    rows: &StoredRows,
    number: u32,
    sink: &mut S,
) -> Result<(), S::Refusal>
    requires whole { IsWhole rows.now.db }
    requires listed { IsListed rows.now.db }
    ensures told { OnOk result
        (Takes S.took sink.old sink.new (parts_at section rows.now.db number)) }
    ensures keeps { Keeps S.becomes sink.old sink.new }
{
    match section {
        Section::Conferences => tell_conference_of(rows, number, sink),
        Section::Persons => tell_person_of(rows, number, sink),
        Section::Texts => tell_text_of(rows, number, sink),
        Section::Created => tell_created_by(rows, number, sink),
        Section::NextLocals => tell_next_local(rows, number, sink),
        Section::NextCreated => tell_next_created(rows, number, sink),
        Section::NextTextItems => tell_next_text_item(rows, number, sink),
        Section::NextConferenceItems => tell_next_conference_item(rows, number, sink),
        Section::Sessions => tell_sessions(rows, number, sink),
        Section::Recipients
        | Section::Links
        | Section::Memberships
        | Section::Marks
        | Section::Items
        | Section::NextNumbers => Ok(()),
    }
}

fn tell_conference_of<S: PartSink>(
    rows: &StoredRows,
    number: u32,
    sink: &mut S,
) -> Result<(), S::Refusal>
    requires { IsWhole rows.now.db }
    ensures told { OnOk result
        (Takes S.took sink.old sink.new (parts_at Section.Conferences rows.now.db number)) }
    ensures keeps { Keeps S.becomes sink.old sink.new }
{
    match rows.conference(number) {
        None => Ok(()),
        Some(row) => tell_conference(row, sink),
    }
}

fn tell_person_of<S: PartSink>(
    rows: &StoredRows,
    number: u32,
    sink: &mut S,
) -> Result<(), S::Refusal>
    requires { IsListed rows.now.db }
    ensures told { OnOk result
        (Takes S.took sink.old sink.new (parts_at Section.Persons rows.now.db number)) }
    ensures keeps { Keeps S.becomes sink.old sink.new }
{
    match rows.person(number) {
        None => Ok(()),
        Some(row) => tell_person(row, sink),
    }
}

fn tell_text_of<S: PartSink>(rows: &StoredRows, number: u32, sink: &mut S) -> Result<(), S::Refusal>
    requires { IsWhole rows.now.db }
    ensures told { OnOk result
        (Takes S.took sink.old sink.new (parts_at Section.Texts rows.now.db number)) }
    ensures keeps { Keeps S.becomes sink.old sink.new }
{
    match rows.text(number) {
        None => Ok(()),
        Some(row) => tell_text(row, sink),
    }
}

fn tell_text<S: PartSink>(row: &TextRow, sink: &mut S) -> Result<(), S::Refusal>
    requires { length row.now.body ≤ LONGEST_BODY }
    ensures told { OnOk result
        (Takes S.took sink.old sink.new (Makes (Effect.TextAdded row.now.number row.now.author
        row.now.created row.now.body) ∷ [])) }
    ensures keeps { Keeps S.becomes sink.old sink.new }
{
    sink.put(&PartRef::TextAdded {
        number: row.number,
        author: row.author,
        at: row.created,
        body: row.body.as_slice(),
    })
}

/// Tells the numbers of the texts that a person made, among those that it made.
fn tell_created_by<S: PartSink>(
    rows: &StoredRows,
    person: u32,
    sink: &mut S,
) -> Result<(), S::Refusal>
    ensures told { OnOk result
        (Takes S.took sink.old sink.new (flat_map (λ pair. Makes (Effect.Created person pair.local
        pair.text) ∷ []) (created_by rows.now.db person))) }
    ensures keeps { Keeps S.becomes sink.old sink.new }
{
    let Some(pairs) = rows.created_from(person, 0) else {
        return Ok(());
    };
    for pair in pairs {
        put_plain(
            sink,
            Effect::Created {
                person,
                local: pair.local,
                text: pair.text,
            },
        )?;
    }
    Ok(())
}

fn tell_next_local<S: PartSink>(
    rows: &StoredRows,
    number: u32,
    sink: &mut S,
) -> Result<(), S::Refusal>
    ensures told { OnOk result
        (Takes S.took sink.old sink.new (parts_at Section.NextLocals rows.now.db number)) }
    ensures keeps { Keeps S.becomes sink.old sink.new }
{
    match rows.conference(number) {
        None => Ok(()),
        Some(row) => put_raised(sink, RaisedCounter::Locals, row.number, row.next_local),
    }
}

fn tell_next_created<S: PartSink>(
    rows: &StoredRows,
    number: u32,
    sink: &mut S,
) -> Result<(), S::Refusal>
    ensures told { OnOk result
        (Takes S.took sink.old sink.new (parts_at Section.NextCreated rows.now.db number)) }
    ensures keeps { Keeps S.becomes sink.old sink.new }
{
    match rows.person(number) {
        None => Ok(()),
        Some(row) => put_raised(sink, RaisedCounter::Created, row.number, row.next_created),
    }
}

fn tell_next_text_item<S: PartSink>(
    rows: &StoredRows,
    number: u32,
    sink: &mut S,
) -> Result<(), S::Refusal>
    ensures told { OnOk result
        (Takes S.took sink.old sink.new (parts_at Section.NextTextItems rows.now.db number)) }
    ensures keeps { Keeps S.becomes sink.old sink.new }
{
    match rows.text(number) {
        None => Ok(()),
        Some(row) => put_raised(sink, RaisedCounter::TextItems, row.number, row.next_item),
    }
}

fn tell_next_conference_item<S: PartSink>(
    rows: &StoredRows,
    number: u32,
    sink: &mut S,
) -> Result<(), S::Refusal>
    ensures told { OnOk result
        (Takes S.took sink.old sink.new (parts_at Section.NextConferenceItems rows.now.db number)) }
    ensures keeps { Keeps S.becomes sink.old sink.new }
{
    match rows.conference(number) {
        None => Ok(()),
        Some(row) => put_raised(
            sink,
            RaisedCounter::ConferenceItems,
            row.number,
            row.next_item,
        ),
    }
}

fn tell_sessions<S: PartSink>(
    rows: &StoredRows,
    number: u32,
    sink: &mut S,
) -> Result<(), S::Refusal>
    ensures told { OnOk result
        (Takes S.took sink.old sink.new (parts_at Section.Sessions rows.now.db number)) }
    ensures keeps { Keeps S.becomes sink.old sink.new }
{
    match rows.person(number) {
        None => Ok(()),
        Some(row) => put_raised(sink, RaisedCounter::Sessions, row.number, row.sessions),
    }
}

/// Tells a counter that is raised.
pub(crate) fn put_raised<S: PartSink>(
    sink: &mut S,
    counter: RaisedCounter,
    object: u32,
    next: u32,
) -> Result<(), S::Refusal>
    ensures told { OnOk result
        (Takes S.took sink.old sink.new (Raises (raise_to counter object next) ∷ [])) }
    ensures keeps { Keeps S.becomes sink.old sink.new }
{
    sink.put(&PartRef::Raised(Raised {
        counter,
        object,
        next: u64::from(next),
    }))
}
