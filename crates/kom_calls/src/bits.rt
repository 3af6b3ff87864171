ghost use Rattle.std.specs.Prelude.{◌≡◌, ◌<◌, ◌≤◌, ◌^◌, IfSome};
ghost use Rattle.kom_calls.specs.Telling.{bits_told};

/// The number that so many binary digits spell, the first one highest.
pub(crate) fn bits_in(digits: &[u8], width: usize) -> Option<u16>
    requires { width ≤ 16 }
    ensures bits { result ≡ bits_told width digits.now }
    ensures small { IfSome result (λ bits. bits < 2 ^ width) }
{
    if digits.len() != width {
        return None;
    }
    let mut bits = 0;
    for digit in digits {
        if *digit != b'0' && *digit != b'1' {
            return None;
        }
        bits = 2 * bits + u16::from(*digit - b'0');
    }
    Some(bits)
}
