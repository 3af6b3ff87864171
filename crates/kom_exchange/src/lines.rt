//! The lines of bytes.
ghost use Rattle.std.specs.Prelude.{◌≡◌, ◌+◌, ◌<◌, ◌≤◌, length, take, drop};
ghost use Rattle.kom_exchange.specs.Pages.{goes_on, first_line, behind_line};

/// The first line of some bytes, and those behind its line feed.
#[tactic(auto, using(crate::proofs::FirstLines::nothing_behind))]
pub fn first_line(bytes: &[u8]) -> (&[u8], &[u8])
    ensures first { result.0.now ≡ first_line bytes.now }
    ensures behind { result.1.now ≡ behind_line bytes.now }
    ensures shorter { 0 < length bytes.now → length result.1.now < length bytes.now }
{
    let end = line_end(bytes);
    if end < bytes.len() {
        (&bytes[..end], &bytes[end + 1..])
    } else {
        (&bytes[..end], b"")
    }
}

fn goes_on(byte: u8) -> bool
    ensures { result ≡ goes_on byte }
{
    byte != b'\n'
}

/// How many bytes stand before the first line feed.
#[tactic(auto, using(crate::proofs::FirstLines::nothing_behind))]
pub(crate) fn line_end(bytes: &[u8]) -> usize
    ensures within { result ≤ length bytes.now }
    ensures first { take result bytes.now ≡ first_line bytes.now }
    ensures behind { drop (result + 1) bytes.now ≡ behind_line bytes.now }
{
    for (index, byte) in bytes.iter().enumerate() {
        if !goes_on(*byte) {
            return index;
        }
    }
    bytes.len()
}
