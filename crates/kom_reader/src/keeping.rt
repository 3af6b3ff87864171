//! What is kept of rows and memberships, and how one is put among them.
ghost use Rattle.std.specs.Prelude.{◌≡◌, OnOk};
ghost use Rattle.kom_reader.specs.Reading.{without_text, without_recipient, without_rows};
ghost use Rattle.kom_reader.specs.Reading.{without_place, with_place};

use crate::finding::rank_of;
use crate::rows::{Place, Row};
use kom_types::Memory;

pub(crate) fn drop_text(rows: &mut Vec<Row>, text: u32)
    ensures { rows.new.items ≡ without_text text rows.old.items }
{
    rows.retain(|row| row.text != text);
}

pub(crate) fn drop_recipient(rows: &mut Vec<Row>, text: u32, conference: u32)
    ensures { rows.new.items ≡ without_recipient text conference rows.old.items }
{
    rows.retain(|row| row.text != text || row.conference != conference);
}

pub(crate) fn drop_rows(rows: &mut Vec<Row>, conference: u32)
    ensures { rows.new.items ≡ without_rows conference rows.old.items }
{
    rows.retain(|row| row.conference != conference);
}

pub(crate) fn drop_place(places: &mut Vec<Place>, conference: u32)
    ensures { places.new.items ≡ without_place conference places.old.items }
{
    places.retain(|place| place.conference != conference);
}

/// Puts a membership at its rank, in the place of one of the same conference.
pub(crate) fn enter_place(places: &mut Vec<Place>, place: Place) -> Result<(), Memory>
    ensures { OnOk result (places.new.items ≡ with_place place places.old.items) }
{
    drop_place(places, place.conference);
    let rank = rank_of(place, places.as_slice());
    places.insert(rank, place)?;
    Ok(())
}
