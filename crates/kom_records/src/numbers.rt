ghost use Rattle.std.specs.Prelude.{◌≡◌, ◌<◌, ◌≤◌, ◌^◌, length, IfSome};
ghost use Rattle.kom_types.specs.Token.{number_of};
ghost use Rattle.kom_types.specs.calls.Arguments.{is_binary, bits_of};
ghost use Rattle.kom_records.specs.Rules.{number_told, bits_told};

use itoa::Buffer;

/// The number that some digits spell as a server does: without a zero before the others, and below
/// 2^32.
pub(crate) fn number_in(digits: &[u8]) -> Option<u32>
    ensures { result ≡ number_told digits.now }
{
    if digits.len() > 10 {
        return None;
    }
    match u32::try_from(value_of(digits)) {
        Ok(number) => {
            let mut buffer = Buffer::new();
            if buffer.format(number).as_bytes() == digits {
                Some(number)
            } else {
                None
            }
        }
        Err(_) => None,
    }
}

/// The number that a run of ten digits at most spells.
fn value_of(digits: &[u8]) -> u64
    requires { length digits.now ≤ 10 }
    ensures { result ≡ number_of digits.now }
{
    let mut number = 0;
    for digit in digits {
        number = 10 * number + u64::from(digit.saturating_sub(b'0'));
    }
    number
}

/// The number that so many binary digits spell, the first one highest.
pub(crate) fn bits_in(digits: &[u8], width: usize) -> Option<u16>
    requires { width ≤ 16 }
    ensures bits { result ≡ bits_told width digits.now }
    ensures small { IfSome result (λ bits. bits < 2 ^ width) }
{
    if digits.len() != width {
        return None;
    }
    let mut bits = 0;
    for digit in digits {
        if *digit != b'0' && *digit != b'1' {
            return None;
        }
        bits = 2 * bits + u16::from(*digit - b'0');
    }
    Some(bits)
}
