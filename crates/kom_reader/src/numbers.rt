//! Numbers that are typed.
ghost use Rattle.std.specs.Prelude.{◌≡◌, ◌≤◌, length};
ghost use Rattle.kom_types.specs.Token.{number_of};
ghost use Rattle.kom_reader.specs.Commands.{number_in};

use itoa::Buffer;

/// The number that a word is, without a zero before its other digits, and below 2^32.
pub fn number_in(word: &[u8]) -> Option<u32>
    ensures { result ≡ number_in word.now }
{
    if word.len() > 10 {
        return None;
    }
    match u32::try_from(value_of(word)) {
        Ok(number) => {
            let mut buffer = Buffer::new();
            if buffer.format(number).as_bytes() == word {
                Some(number)
            } else {
                None
            }
        }
        Err(_) => None,
    }
}

/// The number that a run of ten digits at most spells.
fn value_of(digits: &[u8]) -> u64
    requires { length digits.now ≤ 10 }
    ensures { result ≡ number_of digits.now }
{
    let mut number = 0;
    for digit in digits {
        number = 10 * number + u64::from(digit.saturating_sub(b'0'));
    }
    number
}
