ghost use Rattle.std.specs.Prelude.{◌≡◌, OnOk, Err};
ghost use Rattle.kom_model.specs.Whole.{IsWhole};
ghost use Rattle.kom_snapshot.specs.Listed.{IsListed};
ghost use Rattle.kom_snapshot.specs.Snap.{snap};
ghost use Rattle.kom_snapshot.specs.Snapshot.{parts_of};
ghost use Rattle.kom_telling.specs.Takes.{Keeps, Takes};

use crate::keys::keys_of;
use crate::section::Section;
use crate::sections::tell_sections;
use crate::sink::PartSink;
use kom_state::StoredRows;
use kom_types::Memory;
use std::alloc::Global;

/// Why rows were not told.
#[derive(Debug, Drop)]
pub enum Untold<E> {
    /// Memory ran out for the keys of the rows, before the first part.
    Memory,
    /// The sink refused a part.
    Refused(E),
}

/// Tells the stored rows to a sink as the parts of their snapshot. Memory is taken for the keys of
/// the rows alone, before the first part: four bytes for each conference, person and text, and 28
/// for each membership.
pub fn tell<S: PartSink>(
    alloc: Global,
    rows: &StoredRows,
    sink: &mut S,
) -> Result<(), Untold<S::Refusal>>
    requires whole { IsWhole rows.now.db }
    requires listed { IsListed rows.now.db }
    ensures told { OnOk result
        (Takes S.took sink.old sink.new (parts_of (snap rows.now.db))) }
    ensures memory { result ≡ Err Untold.Memory → sink.new ≡ sink.old }
    ensures keeps { Keeps S.becomes sink.old sink.new }
{
    let keys = match keys_of(alloc, rows) {
        Ok(keys) => keys,
        Err(Memory) => return Err(Untold::Memory),
    };
    let sections = [
        Section::Conferences,
        Section::Persons,
        Section::Texts,
        Section::Recipients,
        Section::Links,
        Section::Created,
        Section::Memberships,
        Section::Marks,
        Section::Items,
        Section::NextNumbers,
        Section::NextLocals,
        Section::NextCreated,
        Section::NextTextItems,
        Section::NextConferenceItems,
        Section::Sessions,
    ];
    match tell_sections(&sections, rows, &keys, sink) {
        Ok(()) => Ok(()),
        Err(why) => Err(Untold::Refused(why)),
    }
}
