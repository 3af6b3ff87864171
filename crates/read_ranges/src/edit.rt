//! One number more or less in ranges.
ghost use Rattle.std.specs.Prelude.{◌≡◌, ◌≢◌, ◌≤◌, ◌<◌, length, OnOk, OnErr};
ghost use Rattle.std.specs.FinSet.{insert, remove};
ghost use Rattle.read_ranges.specs.Numbers.{AreRanges, union_of, count_of};
ghost use Rattle.read_ranges.specs.Places.{EndsJustBelow, Marks};

use crate::kept::Kept;
use crate::search::place_of;
use kom_types::{Memory, ReadRange};

/// Adds a number: alone, at an end of a range, or between two ranges that become one.
pub fn mark(kept: &mut Kept, n: u32) -> Result<(), Memory>
    requires ranges { AreRanges kept.old.items }
    requires number { n ≢ 0 }
    ensures ranges { AreRanges kept.new.items }
    ensures ok { OnOk result (union_of kept.new.items ≡ insert (union_of kept.old.items) n) }
    ensures err { OnErr result (kept.new.items ≡ kept.old.items) }
    ensures spare { kept.old.spare ≤ kept.new.spare }
    ensures full { OnErr result (kept.old.spare < count_of (insert (union_of kept.old.items) n)) }
{
    let ranges = kept.as_slice();
    let at = place_of(ranges, n - 1);
    let Some(&ReadRange { first, last }) = ranges.get(at) else {
        return kept.insert(at, ReadRange { first: n, last: n });
    };
    if first.saturating_sub(n) > 1 {
        return kept.insert(at, ReadRange { first: n, last: n });
    }
    if n < first {
        kept.write(at, ReadRange { first: n, last });
    } else if last < n {
        extend(kept, at, n);
    }
    Ok(())
}

/// Lengthens a range by the number after its end, and joins it with the next one if it then touches
/// that.
fn extend(kept: &mut Kept, at: usize, n: u32)
    requires ranges { AreRanges kept.old.items }
    requires end { EndsJustBelow kept.old.items at n }
    ensures marked { Marks kept.old.items kept.new.items n }
    ensures spare { kept.old.spare ≤ kept.new.spare }
{
    let ranges = kept.as_slice();
    let first = ranges[at].first;
    match ranges.get(at + 1) {
        Some(&ReadRange { first: next, last }) if next - 1 == n => {
            kept.write(at, ReadRange { first, last });
            kept.remove(at + 1);
        }
        _ => kept.write(at, ReadRange { first, last: n }),
    }
}

/// Takes a number away: a range with it alone goes, one that it ends is shorter, and any other one
/// becomes two.
pub fn unmark(kept: &mut Kept, n: u32) -> Result<(), Memory>
    requires ranges { AreRanges kept.old.items }
    requires number { n ≢ 0 }
    ensures ranges { AreRanges kept.new.items }
    ensures ok { OnOk result (union_of kept.new.items ≡ remove (union_of kept.old.items) n) }
    ensures err { OnErr result (kept.new.items ≡ kept.old.items) }
    ensures spare { kept.old.spare ≤ kept.new.spare }
    ensures full { OnErr result (kept.old.spare < count_of (remove (union_of kept.old.items) n)) }
{
    let ranges = kept.as_slice();
    let at = place_of(ranges, n);
    match ranges.get(at) {
        Some(&ReadRange { first, last }) if first <= n => {
            if first == last {
                kept.remove(at);
            } else if first == n {
                kept.write(at, ReadRange { first: n + 1, last });
            } else if last == n {
                kept.write(at, ReadRange { first, last: n - 1 });
            } else {
                let (below, above) = (
                    ReadRange { first, last: n - 1 },
                    ReadRange { first: n + 1, last },
                );
                kept.insert(at + 1, above)?;
                kept.write(at, below);
            }
            Ok(())
        }
        _ => Ok(()),
    }
}
