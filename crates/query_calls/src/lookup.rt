ghost use Rattle.std.specs.Prelude.{◌≡◌, ◌&&◌, map, filter, option_copied, IfOk, if◌then◌else◌};
ghost use Rattle.kom_types.specs.Names.{finds};
ghost use Rattle.kom_types.specs.tables.Conferences.{is_letterbox};
ghost use Rattle.kom_model.specs.Db.{conferences_of};
ghost use Rattle.kom_model.specs.Rights as Rights;
ghost use Rattle.kom_model.specs.calls.Conferences.{is_wanted, name_of};
ghost use Rattle.kom_model.specs.calls.Guards.{caller as caller_of};
ghost use Rattle.query_calls.specs.Shown.{shown_of};

use access_rights::sees;
use kom_model::Viewer;
use kom_state::{Asked, StoredRows};
use kom_types::bits::{FIRST_CONFERENCE_BITS, LETTERBOX};
use kom_types::{Bytes, ConferenceName, ConferenceNames, ConferenceRow, Memory, Sequence};
use std::alloc::Global;

/// What a look-up gives of the conferences whose names a pattern finds: of those that are wanted
/// and that the caller is shown.
pub(crate) fn shown_names(
    asked: &Asked<'_>,
    pattern: &[u8],
    persons: bool,
    conferences: bool,
) -> Result<ConferenceNames, Memory>
    ensures { IfOk result (λ names. names ≡ map name_of (filter
        (λ row. finds pattern.now row.name && is_wanted persons conferences row
        && Rights.sees asked.now.db (caller_of asked.now) row.number)
        (conferences_of asked.now.db))) }
{
    let alloc = asked.allocator();
    let caller = asked.caller();
    let rows = asked.rows();
    let numbers = rows.find_conferences(pattern)?;
    let mut names = Sequence::new(alloc);
    for number in numbers.as_slice() {
        if let Some(row) = shown(rows, &caller, *number, persons, conferences) {
            names.push(name_of(alloc, row)?)?;
        }
    }
    Ok(names)
}

/// The row of a conference, if it is wanted and shown to who looks.
fn shown<'a>(
    rows: &'a StoredRows,
    viewer: &Viewer,
    number: u32,
    persons: bool,
    conferences: bool,
) -> Option<&'a ConferenceRow>
    ensures { option_copied result ≡ shown_of rows.now.db viewer.now persons conferences number }
{
    let row = rows.conference(number)?;
    let is_shown = is_wanted(row.kind, persons, conferences) && sees(rows, viewer, row.number);
    is_shown.then_some(row)
}

/// Whether a conference of this type is among those that are wanted.
fn is_wanted(kind: u8, persons: bool, conferences: bool) -> bool
    ensures { result ≡ (if is_letterbox kind then persons else conferences) }
{
    if kind & LETTERBOX != 0 {
        persons
    } else {
        conferences
    }
}

/// What a look-up gives of a conference.
fn name_of(alloc: Global, row: &ConferenceRow) -> Result<ConferenceName, Memory>
    ensures { IfOk result (λ name. name ≡ name_of row.now) }
{
    Ok(ConferenceName {
        name: Bytes::copy_of(alloc, row.name.as_slice())?,
        kind: row.kind & FIRST_CONFERENCE_BITS,
        number: row.number,
    })
}
