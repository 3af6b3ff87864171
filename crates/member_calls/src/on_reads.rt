//! The calls by which a member tells what it has read.
ghost use Rattle.std.specs.Prelude.{◌≡◌, ◌≢◌, All, IfOk};
ghost use Rattle.kom_model.specs.calls.Call.{Meets};
ghost use Rattle.kom_model.specs.calls.Memberships as Calls;

use crate::reading::{
    drawn_local_guard, highest_of, local_guard, locals_guard, marked, ranges_guard, unmarked,
};
use access_rights::{conference_guard, login_guard, member_guard};
use kom_model::CallError;
use kom_state::{Asked, push_count};
use kom_types::{
    Counter, Decision, Effect, Memory, Numbers, ReadRange, ReadRanges, Reply, Sequence,
};
use read_ranges::up_to;
use std::alloc::Global;

/// Call 27, mark-as-read. The time grows with the ranges that the membership has, and with the
/// numbers given.
pub fn mark_as_read(
    asked: &Asked<'_>,
    conference: u32,
    locals: &Numbers,
) -> Result<Decision, CallError>
    ensures { Meets (Calls.mark_as_read asked.now conference locals.now) result }
{
    let caller = asked.caller();
    let rows = asked.rows();
    login_guard(&caller)?;
    conference_guard(rows, &caller, conference)?;
    member_guard(rows, caller.person, conference)?;
    locals_guard(highest_of(rows, conference), locals.as_slice())?;
    Ok(marks(asked, conference, locals.as_slice())?)
}

/// What is done by a mark: the texts that were not read before are counted.
fn marks(asked: &Asked<'_>, conference: u32, locals: &[u32]) -> Result<Decision, Memory>
    requires { All (λ local. local ≢ 0) locals.now }
    ensures { IfOk result (λ decision. decision
        ≡ (Calls.mark_as_read asked.now conference locals.now).rest) }
{
    let alloc = asked.allocator();
    let marked = marked(asked, conference, locals)?;
    let mut effects = Sequence::new(alloc);
    effects.push(reads_now(asked, conference, marked.ranges))?;
    push_count(
        &mut effects,
        asked.caller().person,
        Counter::ReadTexts,
        u64::from(marked.newly),
    )?;
    Ok(Decision {
        reply: Reply::Done,
        effects,
        changes: Sequence::new(alloc),
    })
}

/// Call 109, mark-as-unread. The time grows with the ranges that the membership has.
pub fn mark_as_unread(asked: &Asked<'_>, conference: u32, local: u32) -> Result<Decision, CallError>
    ensures { Meets (Calls.mark_as_unread asked.now conference local) result }
{
    let caller = asked.caller();
    let rows = asked.rows();
    login_guard(&caller)?;
    conference_guard(rows, &caller, conference)?;
    member_guard(rows, caller.person, conference)?;
    local_guard(highest_of(rows, conference), local)?;
    let ranges = unmarked(asked, conference, local)?;
    Ok(asked.with_effect(reads_now(asked, conference, ranges))?)
}

/// Call 40, set-unread: all but the last ones were read.
pub fn set_unread(asked: &Asked<'_>, conference: u32, count: u32) -> Result<Decision, CallError>
    ensures { Meets (Calls.set_unread asked.now conference count) result }
{
    let caller = asked.caller();
    let rows = asked.rows();
    login_guard(&caller)?;
    conference_guard(rows, &caller, conference)?;
    member_guard(rows, caller.person, conference)?;
    let last = highest_of(rows, conference).saturating_sub(count);
    let ranges = up_to(asked.allocator(), last)?;
    Ok(asked.with_effect(reads_now(asked, conference, ranges))?)
}

/// Call 77, set-last-read: all up to this one were read; 0 is none.
pub fn set_last_read(asked: &Asked<'_>, conference: u32, local: u32) -> Result<Decision, CallError>
    ensures { Meets (Calls.set_last_read asked.now conference local) result }
{
    let caller = asked.caller();
    let rows = asked.rows();
    login_guard(&caller)?;
    conference_guard(rows, &caller, conference)?;
    member_guard(rows, caller.person, conference)?;
    drawn_local_guard(highest_of(rows, conference), local)?;
    let ranges = up_to(asked.allocator(), local)?;
    Ok(asked.with_effect(reads_now(asked, conference, ranges))?)
}

/// Call 110, set-read-ranges: ranges that touch become one.
pub fn set_read_ranges(
    asked: &Asked<'_>,
    conference: u32,
    ranges: &ReadRanges,
) -> Result<Decision, CallError>
    ensures { Meets (Calls.set_read_ranges asked.now conference ranges.now) result }
{
    let caller = asked.caller();
    let rows = asked.rows();
    login_guard(&caller)?;
    conference_guard(rows, &caller, conference)?;
    member_guard(rows, caller.person, conference)?;
    ranges_guard(highest_of(rows, conference), ranges.as_slice())?;
    let ranges = copy_of(asked.allocator(), ranges.as_slice())?;
    Ok(asked.with_effect(reads_now(asked, conference, ranges))?)
}

/// The caller has read these ranges of a conference now.
fn reads_now(asked: &Asked<'_>, conference: u32, ranges: Vec<ReadRange>) -> Effect
    ensures { result ≡ Calls.reads_now asked.now conference ranges.items }
{
    Effect::ReadSet {
        person: asked.caller().person,
        conference,
        at: asked.moment(),
        ranges: Sequence::of(ranges),
    }
}

fn copy_of(alloc: Global, ranges: &[ReadRange]) -> Result<Vec<ReadRange>, Memory>
    ensures { IfOk result (λ copy. copy.items ≡ ranges.now) }
{
    Ok(Vec::from_slice(alloc, ranges)?)
}
