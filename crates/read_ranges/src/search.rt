//! Look-ups in ranges, by halving.
ghost use Rattle.std.specs.Prelude.{◌≡◌, ◌≢◌, ◌↔◌, IsNone, IfSome};
ghost use Rattle.std.specs.FinSet as set;
ghost use Rattle.read_ranges.specs.Numbers.{AreRanges, union_of, IsNextUnread, IsReadFrom};
ghost use Rattle.read_ranges.specs.Places.{IsPlaceOf};

use kom_types::ReadRange;

/// The place of the first range that ends at n or above.
pub fn place_of(ranges: &[ReadRange], n: u32) -> usize
    requires { AreRanges ranges.now }
    ensures { IsPlaceOf ranges.now n result }
{
    ranges.partition_point(|range| range.last < n)
}

pub fn holds(ranges: &[ReadRange], n: u32) -> bool
    requires { AreRanges ranges.now }
    ensures { result ≡ set.contains (union_of ranges.now) n }
{
    match ranges.get(place_of(ranges, n)) {
        Some(range) => range.first <= n,
        None => false,
    }
}

pub fn next_unread(ranges: &[ReadRange], from: u32) -> Option<u32>
    requires ranges { AreRanges ranges.now }
    requires from { from ≢ 0 }
    ensures found { IfSome result (IsNextUnread (union_of ranges.now) from) }
    ensures none { IsNone result ↔ IsReadFrom (union_of ranges.now) from }
{
    match ranges.get(place_of(ranges, from)) {
        Some(&ReadRange { first, last }) if first <= from => last.checked_add(1),
        _ => Some(from),
    }
}
