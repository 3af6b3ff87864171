//! What a member had read, what it tells of that, and whether it may.
ghost use Rattle.std.specs.Prelude.{◌≡◌, ◌≢◌, ◌-◌, All, IfOk, OnOk};
ghost use Rattle.read_ranges.specs.Changed as Changed;
ghost use Rattle.read_ranges.specs.Changed.{size_of};
ghost use Rattle.kom_model.specs.calls.Guards.{Guards, first_refusal};
ghost use Rattle.kom_model.specs.calls.Memberships as Calls;

use access_rights::unless;
use kom_model::Refused;
use kom_state::{Asked, StoredRows};
use kom_types::{Memory, ReadRange, errors};
use read_ranges::{Marked, Ranges};

/// The highest local number that was drawn in a conference: 0 if none was.
pub(crate) fn highest_of(rows: &StoredRows, conference: u32) -> u32
    ensures { result ≡ Calls.highest_of rows.now.db conference }
{
    rows.next_local(conference).saturating_sub(1)
}

/// The local number was drawn, or is 0.
pub(crate) fn drawn_local_guard(highest: u32, local: u32) -> Result<(), Refused>
    ensures { Guards (Calls.drawn_local_guard highest local) result }
{
    unless(local <= highest, errors::NO_SUCH_LOCAL_TEXT, local)
}

/// The local number was drawn.
pub(crate) fn local_guard(highest: u32, local: u32) -> Result<(), Refused>
    ensures { Guards (first_refusal (Calls.local_guards highest local)) result }
{
    unless(local != 0, errors::LOCAL_TEXT_ZERO, 0)?;
    drawn_local_guard(highest, local)
}

/// All local numbers were drawn.
pub(crate) fn locals_guard(highest: u32, locals: &[u32]) -> Result<(), Refused>
    ensures guards { Guards (first_refusal (Calls.all_locals_guards highest locals.now)) result }
    ensures above_zero { OnOk result (All (λ local. local ≢ 0) locals.now) }
{
    for place in 0..locals.len() {
        local_guard(highest, locals[place])?;
    }
    Ok(())
}

/// The ranges of a list rise, and their numbers were drawn.
pub(crate) fn ranges_guard(highest: u32, ranges: &[ReadRange]) -> Result<(), Refused>
    ensures { Guards (first_refusal (Calls.ranges_guards highest 0 0 ranges.now)) result }
{
    let mut end = 0;
    for place in 0..ranges.len() {
        range_guard(highest, place, end, &ranges[place])?;
        end = ranges[place].last;
    }
    Ok(())
}

/// The range at a place of a list is one, comes after one with this end, and its numbers were
/// drawn.
fn range_guard(highest: u32, place: usize, end: u32, range: &ReadRange) -> Result<(), Refused>
    ensures { Guards (first_refusal (Calls.range_guards highest place end range.now)) result }
{
    let status = place.min(u32::MAX as usize) as u32;
    unless(
        range.first != 0 && range.first <= range.last,
        errors::INVALID_RANGE,
        status,
    )?;
    unless(end < range.first, errors::INVALID_RANGE_LIST, status)?;
    drawn_local_guard(highest, range.last)
}

/// What the caller has read of a conference with these local numbers, none of which is 0.
pub(crate) fn marked(asked: &Asked<'_>, conference: u32, locals: &[u32]) -> Result<Marked, Memory>
    requires { All (λ local. local ≢ 0) locals.now }
    ensures ranges { IfOk result (λ marked. marked.ranges.items
        ≡ Changed.all_marked locals.now (Calls.had_read asked.now conference)) }
    ensures newly { IfOk result (λ marked. marked.newly
        ≡ size_of marked.ranges.items - size_of (Calls.had_read asked.now conference)) }
{
    match asked.rows().read(asked.caller().person, conference) {
        Some(read) => read.all_marked(locals),
        None => Ranges::new(asked.allocator()).all_marked(locals),
    }
}

/// What the caller has read of a conference without a local number.
pub(crate) fn unmarked(
    asked: &Asked<'_>,
    conference: u32,
    local: u32,
) -> Result<Vec<ReadRange>, Memory>
    requires { local ≢ 0 }
    ensures { IfOk result (λ ranges. ranges.items
        ≡ Changed.mark_unread local (Calls.had_read asked.now conference)) }
{
    match asked.rows().read(asked.caller().person, conference) {
        Some(read) => read.unmarked(local),
        None => Ranges::new(asked.allocator()).unmarked(local),
    }
}
