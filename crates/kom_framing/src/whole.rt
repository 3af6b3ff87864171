ghost use Rattle.std.specs.Prelude.{◌≡◌, ◌↔◌, ◌<◌, ◌≤◌, [], length, get_or, IfOk, IfSome, IsTrue};
ghost use Rattle.kom_types.specs.ByteKind.{kind_of};
ghost use Rattle.kom_types.specs.declared.side.Side.{Side};
ghost use Rattle.kom_framing.specs.BegunLines.{EndsIn};
ghost use Rattle.kom_framing.specs.WholeTokens.{IsRunTo, IsTokenTo};

use crate::lines::LineStarts;
use kom_types::limits::LONGEST_LINE;
use kom_types::{ByteKind, Memory, kind_of_byte};

/// The number of the bytes of the line that a window begins with, if it is whole there and has no
/// sign, and the places of its tokens. Else there may be places of any tokens.
#[inline(always)]
pub fn whole_line(window: &[u8], starts: &mut LineStarts) -> Result<Option<usize>, Memory>
    requires fresh { starts.old.items ≡ [] }
    requires short { length window.now ≤ LONGEST_LINE }
    ensures { IfOk result (λ found. IfSome found (λ count.
        (side : Side) → EndsIn side [] window.now starts.new.items count)) }
{
    let mut at = 0;
    while at < window.len() {
        let byte = window[at];
        if byte == b'\n' {
            return Ok(Some(at + 1));
        }
        if is_blank(byte) {
            at += 1;
        } else {
            let Some(end) = token_end(window, at) else {
                return Ok(None);
            };
            if end >= window.len() {
                return Ok(None);
            }
            let after = window[end];
            if after == b'\n' {
                starts.push(at as u32)?;
                return Ok(Some(end + 1));
            }
            if !is_blank(after) {
                return Ok(None);
            }
            starts.push(at as u32)?;
            at = end + 1;
        }
    }
    Ok(None)
}

#[inline(always)]
fn is_blank(byte: u8) -> bool
    ensures { IsTrue result ↔ (kind_of byte ≡ ByteKind.Blank) }
{
    byte == b' ' || byte == b'\t' || byte == b'\r'
}

// The place after the token that begins there, if it is whole in the window.
#[inline(always)]
fn token_end(window: &[u8], start: usize) -> Option<usize>
    requires within { start < length window.now }
    requires short { length window.now ≤ LONGEST_LINE }
    ensures { IfSome result (IsTokenTo window.now start) }
{
    let byte = window[start];
    if byte.is_ascii_digit() {
        return run_end(window, start);
    }
    match kind_of_byte(byte) {
        ByteKind::Open => Some(start + 1),
        ByteKind::Close => Some(start + 1),
        ByteKind::Star => Some(start + 1),
        _ => None,
    }
}

// The same of a run of digits, or of the string of which they are the length.
#[inline(always)]
fn run_end(window: &[u8], start: usize) -> Option<usize>
    requires within { start < length window.now }
    requires short { length window.now ≤ LONGEST_LINE }
    requires digit { kind_of (get_or window.now start 0) ≡ ByteKind.Digit }
    ensures { IfSome result (IsTokenTo window.now start) }
{
    let (end, number) = digits_from(window, start);
    if end < window.len() && window[end] == b'H' {
        string_end(window, start, end, number)
    } else {
        Some(end)
    }
}

// The same of a string whose length goes from one place to another and is this number.
#[inline(always)]
fn string_end(window: &[u8], start: usize, end: usize, number: u64) -> Option<usize>
    requires run { IsRunTo window.now start end number }
    requires within { end < length window.now }
    requires short { length window.now ≤ LONGEST_LINE }
    requires letter { get_or window.now end 0 ≡ 72 }
    ensures { IfSome result (IsTokenTo window.now start) }
{
    if end - start <= 10 && number <= (window.len() - end - 1) as u64 {
        Some(end + 1 + number as usize)
    } else {
        None
    }
}

// The place after the digits that begin there, sixteen at most, and the number that they spell.
#[inline(always)]
fn digits_from(window: &[u8], start: usize) -> (usize, u64)
    requires within { start < length window.now }
    requires short { length window.now ≤ LONGEST_LINE }
    requires digit { kind_of (get_or window.now start 0) ≡ ByteKind.Digit }
    ensures { IsRunTo window.now start result.0 result.1 }
{
    let mut number = (window[start] - b'0') as u64;
    let mut end = start + 1;
    while end < window.len() && end - start < 16 && window[end].is_ascii_digit() {
        number = 10 * number + (window[end] - b'0') as u64;
        end += 1;
    }
    (end, number)
}
