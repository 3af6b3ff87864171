ghost use Rattle.std.specs.Prelude.{[], ◌∷◌, flat_map, OnOk};
ghost use Rattle.kom_types.specs.Parts.{Raises};
ghost use Rattle.kom_model.specs.Whole.{IsWhole};
ghost use Rattle.kom_snapshot.specs.Listed.{IsListed};
ghost use Rattle.kom_snapshot.specs.Snap.{raise_to};
ghost use Rattle.kom_telling.specs.Keys.{AreKeys};
ghost use Rattle.kom_telling.specs.Sections.{section_parts};
ghost use Rattle.kom_telling.specs.Takes.{Keeps, Takes};

use crate::added::{tell_items, tell_links, tell_marks, tell_recipients};
use crate::keys::Keys;
use crate::numbered::{put_raised, tell_each};
use crate::on_memberships::tell_memberships;
use crate::section::Section;
use crate::sink::PartSink;
use kom_state::StoredRows;
use kom_types::RaisedCounter;

/// Tells sections, one after the other.
pub(crate) fn tell_sections<S: PartSink>(
    sections: &[Section],
    rows: &StoredRows,
    keys: &Keys,
    sink: &mut S,
) -> Result<(), S::Refusal>
    requires whole { IsWhole rows.now.db }
    requires listed { IsListed rows.now.db }
    requires keys { AreKeys rows.now.db keys.now }
    ensures told { OnOk result
        (Takes S.took sink.old sink.new (flat_map (section_parts rows.now.db) sections.now)) }
    ensures keeps { Keeps S.becomes sink.old sink.new }
{
    for section in sections {
        tell_section(*section, rows, keys, sink)?;
    }
    Ok(())
}

fn tell_section<S: PartSink>(
    section: Section,
    rows: &StoredRows,
    keys: &Keys,
    sink: &mut S,
) -> Result<(), S::Refusal>
    requires whole { IsWhole rows.now.db }
    requires listed { IsListed rows.now.db }
    requires keys { AreKeys rows.now.db keys.now }
    ensures told { OnOk result
        (Takes S.took sink.old sink.new (section_parts rows.now.db section)) }
    ensures keeps { Keeps S.becomes sink.old sink.new }
{
    match section {
        Section::Recipients => tell_recipients(rows.all_recipients(), sink),
        Section::Links => tell_links(rows.all_links(), sink),
        Section::Memberships => tell_memberships(rows, &keys.memberships, sink),
        Section::Marks => tell_marks(rows.all_marks(), sink),
        Section::Items => tell_items(rows.all_items(), sink),
        Section::NextNumbers => tell_next_numbers(rows, sink),
        Section::Conferences => tell_each(Section::Conferences, rows, &keys.conferences, sink),
        Section::NextLocals => tell_each(Section::NextLocals, rows, &keys.conferences, sink),
        Section::NextConferenceItems => {
            tell_each(Section::NextConferenceItems, rows, &keys.conferences, sink)
        }
        Section::Persons => tell_each(Section::Persons, rows, &keys.persons, sink),
        Section::Created => tell_each(Section::Created, rows, &keys.persons, sink),
        Section::NextCreated => tell_each(Section::NextCreated, rows, &keys.persons, sink),
        Section::Sessions => tell_each(Section::Sessions, rows, &keys.persons, sink),
        Section::Texts => tell_each(Section::Texts, rows, &keys.texts, sink),
        Section::NextTextItems => tell_each(Section::NextTextItems, rows, &keys.texts, sink),
    }
}

/// Tells the next numbers of all conferences and of all texts.
#[tactic(auto, unfolding(kom_model::specs::Db::next_text_of))]
fn tell_next_numbers<S: PartSink>(rows: &StoredRows, sink: &mut S) -> Result<(), S::Refusal>
    ensures told { OnOk result
        (Takes S.took sink.old sink.new (Raises (raise_to RaisedCounter.Conferences 0
        rows.now.db.next_conference) ∷ Raises (raise_to RaisedCounter.Texts 0
        rows.now.db.next_text) ∷ [])) }
    ensures keeps { Keeps S.becomes sink.old sink.new }
{
    put_raised(sink, RaisedCounter::Conferences, 0, rows.next_conference())?;
    put_raised(sink, RaisedCounter::Texts, 0, rows.next_text())
}
