ghost use Rattle.std.specs.Prelude.{◌≡◌, ◌+◌, ◌*◌, ◌≤◌, ◌<◌, ◌^◌, if◌then◌else◌, [], ◌∷◌, ◌++◌};
ghost use Rattle.std.specs.Prelude.{length, take, false, OnOk, vec_len};
ghost use Rattle.std.specs.Fmt.{decimal};
ghost use Rattle.kom_types.specs.spellings.Words.{hollerith};
ghost use Rattle.kom_framing.specs.Writing.{put_numbers, written_to};

use itoa::write_digits;
use kom_types::Memory;

/// How many bytes a buffer has at least, once it has any.
const LEAST_ROOM: usize = 512;

/// Room for so many bytes after the first `used` of a buffer.
#[inline(always)]
pub fn make_room(out: &mut Vec<u8>, used: usize, more: usize) -> Result<(), Memory>
    requires { used ≤ vec_len out.old }
    ensures ok { OnOk result (used + more ≤ vec_len out.new) }
    ensures kept { take used out.new.items ≡ take used out.old.items }
    ensures within { used ≤ vec_len out.new }
{
    if more <= out.len() - used {
        Ok(())
    } else {
        grow(out, used, more)
    }
}

// The same where that room is missing: the buffer becomes twice as long, or longer.
#[inline(never)]
fn grow(out: &mut Vec<u8>, used: usize, more: usize) -> Result<(), Memory>
    requires used { used ≤ vec_len out.old }
    requires missing { vec_len out.old < used + more }
    ensures ok { OnOk result (used + more ≤ vec_len out.new) }
    ensures kept { take used out.new.items ≡ take used out.old.items }
    ensures within { used ≤ vec_len out.new }
{
    let Some(needed) = used.checked_add(more) else {
        return Err(Memory);
    };
    let length = needed.max(LEAST_ROOM).max(out.len().saturating_mul(2));
    out.resize(length, 0)?;
    Ok(())
}

/// Writes a number, with a space before it unless it is joined, and returns the place after it.
#[inline(always)]
pub fn place_number(out: &mut [u8], used: usize, joined: bool, n: u32) -> usize
    requires { used + 11 ≤ length out.old }
    ensures written { take result out.new
        ≡ take used out.old ++ (if joined then [] else 32 ∷ []) ++ decimal n }
    ensures within { result ≤ used + 11 }
{
    let at = place_space(out, used, joined);
    let end = at + digit_count(n as u64);
    write_digits(n as u64, out, end);
    end
}

/// Writes numbers, each with a space before it but a first one that is joined, and returns the
/// place after them.
pub fn place_numbers(out: &mut [u8], used: usize, joined: bool, values: &[u32]) -> usize
    requires some { 0 < length values.now }
    requires room { used + 11 * length values.now ≤ length out.old }
    ensures written { written_to result out.new false
        ≡ put_numbers values.now (written_to used out.old joined) }
    ensures within { result ≤ length out.new }
{
    let mut at = used;
    let mut joined = joined;
    for value in values {
        at = place_number(out, at, joined, *value);
        joined = false;
    }
    at
}

/// Writes a string with its length before it, and a space before that unless it is joined, and
/// returns the place after it.
pub fn place_string(out: &mut [u8], used: usize, joined: bool, text: &[u8]) -> usize
    requires { used + (length text.now + 22) ≤ length out.old }
    ensures written { take result out.new
        ≡ take used out.old ++ (if joined then [] else 32 ∷ []) ++ hollerith text.now }
    ensures within { result ≤ length out.new }
{
    let at = place_space(out, used, joined);
    let at = place_len(out, at, text.len());
    let at = place_byte(out, at, b'H');
    place_bytes(out, at, text)
}

/// Writes a word as it stands, with a space before it unless it is joined, and returns the place
/// after it.
pub fn place_word(out: &mut [u8], used: usize, joined: bool, word: &[u8]) -> usize
    requires { used + (length word.now + 1) ≤ length out.old }
    ensures written { take result out.new
        ≡ take used out.old ++ (if joined then [] else 32 ∷ []) ++ word.now }
    ensures within { result ≤ length out.new }
{
    let at = place_space(out, used, joined);
    place_bytes(out, at, word)
}

/// Writes a word of one byte, with a space before it unless it is joined, and returns the place
/// after it.
pub fn place_mark(out: &mut [u8], used: usize, joined: bool, byte: u8) -> usize
    requires { used + 2 ≤ length out.old }
    ensures written { take result out.new
        ≡ take used out.old ++ (if joined then [] else 32 ∷ []) ++ byte ∷ [] }
    ensures within { result ≤ length out.new }
{
    let at = place_space(out, used, joined);
    place_byte(out, at, byte)
}

// Writes the space before a word that is not joined.
#[inline(always)]
fn place_space(out: &mut [u8], used: usize, joined: bool) -> usize
    requires { used < length out.old }
    ensures written { take result out.new ≡ take used out.old ++ (if joined then [] else 32 ∷ []) }
    ensures within { result ≤ used + 1 }
{
    if joined {
        used
    } else {
        place_byte(out, used, b' ')
    }
}

/// Writes a byte, and returns the place after it.
#[inline(always)]
pub fn place_byte(out: &mut [u8], at: usize, byte: u8) -> usize
    requires { at < length out.old }
    ensures written { take result out.new ≡ take at out.old ++ byte ∷ [] }
    ensures end { result ≡ at + 1 }
{
    out[at] = byte;
    at + 1
}

// Writes bytes.
#[inline(always)]
fn place_bytes(out: &mut [u8], at: usize, bytes: &[u8]) -> usize
    requires { at + length bytes.now ≤ length out.old }
    ensures written { take result out.new ≡ take at out.old ++ bytes.now }
    ensures end { result ≡ at + length bytes.now }
{
    let end = at + bytes.len();
    out[at..end].copy_from_slice(bytes);
    end
}

// Writes the length of a string.
#[inline(always)]
fn place_len(out: &mut [u8], at: usize, len: usize) -> usize
    requires { at + 20 ≤ length out.old }
    ensures written { take result out.new ≡ take at out.old ++ decimal len }
    ensures within { result ≤ at + 20 }
{
    let end = at + digit_count(len as u64);
    write_digits(len as u64, out, end);
    end
}

/// How many digits a number has in decimal.
#[inline(always)]
pub fn digit_count(number: u64) -> usize
    ensures digits { result ≡ length (decimal number) }
    ensures few { result ≤ 20 }
{
    if number < 10 {
        1
    } else if number < 100 {
        2
    } else if number < 1_000 {
        3
    } else if number < 10_000 {
        4
    } else {
        number.ilog10() as usize + 1
    }
}
