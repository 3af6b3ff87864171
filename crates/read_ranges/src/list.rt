//! A given list of ranges: its faults, and its ranges with those that touch made one.
ghost use Rattle.std.specs.Prelude.{◌≡◌, ◌+◌, ◌≤◌, ◌<◌, ◌↔◌, length, take, IsTrue};
ghost use Rattle.std.specs.Prelude.{OnOk, IfErr, MatchOption};
ghost use Rattle.read_ranges.specs.ListFault.{IsFaultless, IsFirstFault, IsListFault, IsFaultAt};
ghost use Rattle.read_ranges.specs.ListFault.{EndWithinBelow, range_at};
ghost use Rattle.read_ranges.specs.Merged.{merge_all};
ghost use Rattle.read_ranges.specs.Numbers.{greatest};

use crate::RangeFault;
use crate::kept::Kept;
use kom_types::ReadRange;

/// What is wrong with the range at a place, if anything is: the range itself, and only then its
/// order.
pub fn fault_at(list: &[ReadRange], at: usize) -> Option<RangeFault>
    requires { at < length list.now }
    ensures fault { IsFaultAt list.now at result }
    ensures bound { let range = range_at list.now at in range.last ≤ greatest }
{
    let ReadRange { first, last } = list[at];
    if first == 0 || last < first {
        return Some(RangeFault::Invalid(at));
    }
    if at > 0 && first <= list[at - 1].last {
        return Some(RangeFault::Order(at));
    }
    None
}

/// The place of the first faulty range.
pub fn first_fault(list: &[ReadRange]) -> Option<usize>
    ensures { MatchOption result (IsFaultless list.now) (IsFirstFault list.now) }
{
    for at in 0..list.len() {
        if fault_at(list, at).is_some() {
            return Some(at);
        }
    }
    None
}

/// Whether the second range begins right after the first.
fn touches(before: ReadRange, after: ReadRange) -> bool
    ensures { IsTrue result ↔ (after.first ≡ before.last + 1) }
{
    before.last.checked_add(1) == Some(after.first)
}

/// Finds the first fault of the list.
pub fn check(list: &[ReadRange]) -> Result<(), RangeFault>
    ensures faultless { OnOk result (IsFaultless list.now) }
    ensures bounds { OnOk result (EndWithinBelow list.now (length list.now)) }
    ensures refused { IfErr result (IsListFault list.now) }
{
    for at in 0..list.len() {
        if let Some(fault) = fault_at(list, at) {
            return Err(fault);
        }
    }
    Ok(())
}

/// How many ranges the list makes.
pub(crate) fn merged_count(list: &[ReadRange]) -> usize
    ensures { result ≡ length (merge_all list.now) }
{
    let Some((&first, others)) = list.split_first() else {
        return 0;
    };
    let mut last = first;
    let mut count = 1;
    for &range in others {
        if touches(last, range) {
            last.last = range.last;
        } else {
            count += 1;
            last = range;
        }
    }
    count
}

/// Keeps the ranges that the list makes, in place of those before.
pub(crate) fn refill(kept: &mut Kept, list: &[ReadRange])
    requires { length (merge_all list.now) ≤ kept.old.spare }
    ensures items { kept.new.items ≡ merge_all list.now }
    ensures spare { kept.old.spare ≤ kept.new.spare }
{
    kept.keep_only(None);
    let Some((&first, others)) = list.split_first() else {
        return;
    };
    let mut last = first;
    for &range in others {
        if touches(last, range) {
            last.last = range.last;
        } else {
            kept.push(last);
            last = range;
        }
    }
    kept.push(last);
}

/// The range itself. No number is past the bounds of a set.
fn within_bounds(range: ReadRange) -> ReadRange
    ensures same { result ≡ range }
    ensures bound { range.last ≤ greatest }
{
    range
}

/// Makes one range of those that touch, where the list stands, and tells how many there are then.
pub(crate) fn merge(list: &mut [ReadRange]) -> usize
    ensures count { result ≤ length list.old }
    ensures items { take result list.new ≡ merge_all list.old }
    ensures bounds { EndWithinBelow list.old (length list.old) }
{
    if list.is_empty() {
        return 0;
    }
    let mut last = within_bounds(list[0]);
    let mut count = 0;
    for at in 1..list.len() {
        let range = within_bounds(list[at]);
        if touches(last, range) {
            last.last = range.last;
        } else {
            list[count] = last;
            count += 1;
            last = range;
        }
    }
    list[count] = last;
    count + 1
}
