//! The number that is nearest to one, of what the caller is shown.
ghost use Rattle.std.specs.Prelude.{◌≡◌};
ghost use Rattle.query_calls.specs.Nearest as Nearest;

use access_rights::{reads, sees};
use kom_model::Viewer;
use kom_state::{Asked, StoredRows};

/// What is looked for: a conference that the caller sees, or a text that it reads.
#[derive(Clone, Copy)]
pub(crate) enum Wanted {
    Conference,
    Text,
}

/// The first number after one.
pub(crate) fn next_shown(asked: &Asked<'_>, wanted: Wanted, start: u32) -> Option<u32>
    ensures { result ≡ Nearest.next_of asked.now wanted start }
{
    let caller = asked.caller();
    let rows = asked.rows();
    for number in start.saturating_add(1)..end_of(rows, wanted) {
        if shows(rows, &caller, wanted, number) {
            return Some(number);
        }
    }
    None
}

/// The last number before one.
pub(crate) fn previous_shown(asked: &Asked<'_>, wanted: Wanted, start: u32) -> Option<u32>
    ensures { result ≡ Nearest.previous_of asked.now wanted start }
{
    let caller = asked.caller();
    let rows = asked.rows();
    for number in (0..start.min(end_of(rows, wanted))).rev() {
        if shows(rows, &caller, wanted, number) {
            return Some(number);
        }
    }
    None
}

/// The least number that the next one may get.
fn end_of(rows: &StoredRows, wanted: Wanted) -> u32
    ensures { Nearest.EndsAt rows.now.db wanted result }
{
    match wanted {
        Wanted::Conference => rows.next_conference(),
        Wanted::Text => rows.next_text(),
    }
}

fn shows(rows: &StoredRows, caller: &Viewer, wanted: Wanted, number: u32) -> bool
    ensures { result ≡ Nearest.shows rows.now.db caller.now wanted number }
{
    match wanted {
        Wanted::Conference => sees(rows, caller, number),
        Wanted::Text => reads(rows, caller, number),
    }
}
