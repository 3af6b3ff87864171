//! What is found among the rows that are unread, and among memberships.
ghost use Rattle.std.specs.Prelude.{◌≡◌, ◌≤◌, find, length, take_while};
ghost use Rattle.std.specs.List.{list_any};
ghost use Rattle.kom_reader.specs.Reading.{is_unread, is_same_place, stands_before};
ghost use Rattle.kom_reader.specs.Steps.{first_in, has_rows, lower};

use crate::rows::{Place, Row};

pub(crate) fn is_unread(text: u32, rows: &[Row]) -> bool
    ensures { result ≡ is_unread text rows.now }
{
    rows.iter().any(|row| row.text == text)
}

/// Whether there is a row of the same conference and local number.
pub(crate) fn has_row(row: Row, rows: &[Row]) -> bool
    ensures { result ≡ list_any (is_same_place row) rows.now }
{
    rows.iter().any(|other| other.conference == row.conference && other.local == row.local)
}

/// The first of some texts that is unread.
pub(crate) fn first_unread(texts: &[u32], rows: &[Row]) -> Option<u32>
    ensures { result ≡ find (λ text. is_unread text rows.now) texts.now }
{
    texts.iter().copied().find(|text| is_unread(*text, rows))
}

/// The row of a conference that has the lowest local number.
#[tactic(auto, using(crate::proofs::Passing::first_step, crate::proofs::Passing::first_end))]
pub(crate) fn first_in(conference: u32, rows: &[Row]) -> Option<Row>
    ensures { result ≡ first_in conference rows.now }
{
    let mut first = None;
    for row in rows {
        if row.conference == conference {
            first = lower(first, *row);
        }
    }
    first
}

fn lower(first: Option<Row>, row: Row) -> Option<Row>
    ensures { result ≡ lower first row }
{
    match first {
        Some(first) if row.local >= first.local => Some(first),
        _ => Some(row),
    }
}

/// The first membership in which something is unread.
pub(crate) fn first_place(places: &[Place], rows: &[Row]) -> Option<Place>
    ensures { result ≡ find (has_rows rows.now) places.now }
{
    places.iter().copied().find(|place| has_rows(rows, *place))
}

fn has_rows(rows: &[Row], place: Place) -> bool
    ensures { result ≡ has_rows rows.now place }
{
    rows.iter().any(|row| row.conference == place.conference)
}

/// How many memberships have a higher rank.
pub(crate) fn rank_of(place: Place, places: &[Place]) -> usize
    ensures value { result
        ≡ length (take_while (λ other. stands_before other place) places.now) }
    ensures within { result ≤ length places.now }
{
    places
        .iter()
        .take_while(|other| stands_before(**other, place))
        .count()
}

fn stands_before(other: Place, place: Place) -> bool
    ensures { result ≡ stands_before other place }
{
    place.priority < other.priority
        || (other.priority == place.priority && other.position <= place.position)
}
