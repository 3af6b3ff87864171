// Ranges that are tried before all of them are there.
ghost use Rattle.std.specs.Prelude.{◌≡◌, ◌≤◌, ◌*◌, ◌&&◌, nat_lt, nat_le, length, IsTrue};
ghost use Rattle.read_ranges.specs.Changed.{rise_after};
ghost use Rattle.effect_codec.specs.Faulty as faulty;
ghost use Rattle.effect_codec.specs.Faulty.{BeginsFaulty, ranges_there};
ghost use Rattle.effect_codec.specs.Fields.{ranges_of};

use crate::reader::{byte_of, number_of, rest_of};

/// Whether the bytes begin a set of read ranges of which one is faulty: it begins with 0, after its
/// own end, or not after the end of the one before it. Those after it need not be there. It takes
/// no memory.
pub fn has_faulty_range(bytes: &[u8]) -> bool
    ensures exact { result ≡ faulty.has_faulty_range bytes.now }
    ensures faulty { IsTrue result → BeginsFaulty bytes.now }
{
    bytes.len() >= 21 && byte_of(bytes, 0) == 19 && !ranges_there_rise(bytes)
}

// Whether the ranges that are there of a set rise.
fn ranges_there_rise(bytes: &[u8]) -> bool
    requires { 21 ≤ length bytes.now }
    ensures { result ≡ rise_after 0 (ranges_there bytes.now) }
{
    let many = number_of(rest_of(bytes, 17)) as usize;
    let ranges = rest_of(bytes, 21);
    rise(ranges, many.min(ranges.len() / 8))
}

// Whether a range begins after this number, and not after its own end.
fn rises_after(end: u32, first: u32, last: u32) -> bool
    ensures { result ≡ (nat_lt end first && nat_le first last) }
{
    end < first && first <= last
}

// Whether so many ranges rise.
fn rise(bytes: &[u8], many: usize) -> bool
    requires { 8 * many ≤ length bytes.now }
    ensures { result ≡ rise_after 0 (ranges_of many bytes.now) }
{
    let mut end = 0;
    for place in 0..many {
        let range = rest_of(bytes, 8 * place);
        let first = number_of(range);
        let after = rest_of(range, 4);
        let last = number_of(after);
        if !rises_after(end, first, last) {
            return false;
        }
        end = last;
    }
    true
}
