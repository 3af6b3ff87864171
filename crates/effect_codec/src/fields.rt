// Fields that are put at the end of a vector, in the room that it has.
ghost use Rattle.std.specs.Prelude.{◌≡◌, ◌+◌, ◌*◌, ◌≤◌, ◌<◌, ◌^◌, [], ◌∷◌, ◌++◌, length, vec_len};
ghost use Rattle.std.specs.Prelude.{vec_capacity};
ghost use Rattle.std.specs.Int.{w16, w32, w64, to_le_bytes, to_be_bytes};
ghost use Rattle.std.specs.List.{AllByRecursion};
ghost use Rattle.effect_codec.specs.Fields.{bit, coded_numbers, coded_ranges, IsRange};

use kom_types::ReadRange;

pub(crate) fn put(out: &mut Vec<u8>, bytes: &[u8])
    requires { vec_len out.old + length bytes.now ≤ vec_capacity out.old }
    ensures items { out.new.items ≡ out.old.items ++ bytes.now }
    ensures len { vec_len out.new ≡ vec_len out.old + length bytes.now }
    ensures capacity { vec_capacity out.old ≤ vec_capacity out.new }
{
    out.extend_from_slice(bytes).unwrap();
}

pub(crate) fn put_byte(out: &mut Vec<u8>, byte: u8)
    requires { vec_len out.old + 1 ≤ vec_capacity out.old }
    ensures items { out.new.items ≡ out.old.items ++ byte ∷ [] }
    ensures len { vec_len out.new ≡ vec_len out.old + 1 }
    ensures capacity { vec_capacity out.old ≤ vec_capacity out.new }
{
    out.push_reserved(byte);
}

pub(crate) fn put_flag(out: &mut Vec<u8>, flag: bool)
    requires { vec_len out.old + 1 ≤ vec_capacity out.old }
    ensures items { out.new.items ≡ out.old.items ++ bit flag ∷ [] }
    ensures len { vec_len out.new ≡ vec_len out.old + 1 }
    ensures capacity { vec_capacity out.old ≤ vec_capacity out.new }
{
    put_byte(out, if flag { 1 } else { 0 });
}

pub(crate) fn put_half(out: &mut Vec<u8>, number: u16)
    requires { vec_len out.old + 2 ≤ vec_capacity out.old }
    ensures items { out.new.items ≡ out.old.items ++ to_be_bytes w16 number }
    ensures len { vec_len out.new ≡ vec_len out.old + 2 }
    ensures capacity { vec_capacity out.old ≤ vec_capacity out.new }
{
    put(out, &number.to_be_bytes());
}

fn put_number(out: &mut Vec<u8>, number: u32)
    requires { vec_len out.old + 4 ≤ vec_capacity out.old }
    ensures items { out.new.items ≡ out.old.items ++ to_le_bytes w32 number }
    ensures len { vec_len out.new ≡ vec_len out.old + 4 }
    ensures capacity { vec_capacity out.old ≤ vec_capacity out.new }
{
    put(out, &number.to_le_bytes());
}

pub(crate) fn put_numbers(out: &mut Vec<u8>, numbers: &[u32])
    requires { vec_len out.old + 4 * length numbers.now ≤ vec_capacity out.old }
    ensures items { out.new.items ≡ out.old.items ++ coded_numbers numbers.now }
    ensures len { vec_len out.new ≡ vec_len out.old + 4 * length numbers.now }
    ensures capacity { vec_capacity out.old ≤ vec_capacity out.new }
{
    for number in numbers {
        put_number(out, *number);
    }
}

/// Puts the kind of an effect, and its first numbers.
pub(crate) fn put_start(out: &mut Vec<u8>, kind: u8, numbers: &[u32])
    requires { vec_len out.old + (1 + 4 * length numbers.now) ≤ vec_capacity out.old }
    ensures items { out.new.items ≡ out.old.items ++ kind ∷ coded_numbers numbers.now }
    ensures len { vec_len out.new ≡ vec_len out.old + (1 + 4 * length numbers.now) }
    ensures capacity { vec_capacity out.old ≤ vec_capacity out.new }
{
    put_byte(out, kind);
    put_numbers(out, numbers);
}

pub(crate) fn put_amount(out: &mut Vec<u8>, amount: u64)
    requires { vec_len out.old + 8 ≤ vec_capacity out.old }
    ensures items { out.new.items ≡ out.old.items ++ to_le_bytes w64 amount }
    ensures len { vec_len out.new ≡ vec_len out.old + 8 }
    ensures capacity { vec_capacity out.old ≤ vec_capacity out.new }
{
    put(out, &amount.to_le_bytes());
}

pub(crate) fn put_text(out: &mut Vec<u8>, bytes: &[u8])
    requires length { length bytes.now < 2 ^ 32 }
    requires room { vec_len out.old + (4 + length bytes.now) ≤ vec_capacity out.old }
    ensures items { out.new.items ≡ out.old.items
        ++ (to_le_bytes w32 (length bytes.now) ++ bytes.now) }
    ensures len { vec_len out.new ≡ vec_len out.old + (4 + length bytes.now) }
    ensures capacity { vec_capacity out.old ≤ vec_capacity out.new }
{
    put_number(out, bytes.len() as u32);
    put(out, bytes);
}

pub(crate) fn put_ranges(out: &mut Vec<u8>, ranges: &[ReadRange])
    requires length { AllByRecursion IsRange ranges.now → length ranges.now < 2 ^ 32 }
    requires room { vec_len out.old + (4 + 8 * length ranges.now) ≤ vec_capacity out.old }
    ensures items { out.new.items
        ≡ out.old.items ++ (to_le_bytes w32 (length ranges.now) ++ coded_ranges ranges.now) }
    ensures len { vec_len out.new ≡ vec_len out.old + (4 + 8 * length ranges.now) }
    ensures capacity { vec_capacity out.old ≤ vec_capacity out.new }
    ensures are_ranges { AllByRecursion IsRange ranges.now }
{
    // There are fewer, as is known once the numbers of each were read.
    put_number(out, (ranges.len() % (1 << 32)) as u32);
    put_each_range(out, ranges);
}

fn put_each_range(out: &mut Vec<u8>, ranges: &[ReadRange])
    requires { vec_len out.old + 8 * length ranges.now ≤ vec_capacity out.old }
    ensures items { out.new.items ≡ out.old.items ++ coded_ranges ranges.now }
    ensures len { vec_len out.new ≡ vec_len out.old + 8 * length ranges.now }
    ensures capacity { vec_capacity out.old ≤ vec_capacity out.new }
    ensures are_ranges { AllByRecursion IsRange ranges.now }
{
    for range in ranges {
        put_number(out, range.first);
        put_number(out, range.last);
    }
}

pub(crate) fn put_setting(out: &mut Vec<u8>, part: u8, value: u64)
    requires { vec_len out.old + 9 ≤ vec_capacity out.old }
    ensures items { out.new.items ≡ out.old.items ++ part ∷ to_le_bytes w64 value }
    ensures len { vec_len out.new ≡ vec_len out.old + 9 }
    ensures capacity { vec_capacity out.old ≤ vec_capacity out.new }
{
    put_byte(out, part);
    put_amount(out, value);
}
