//! Numbers in decimal digits.

ghost use Rattle.std.specs.Prelude.{◌≡◌, IfSome, ◌<◌, ◌^◌};
ghost use Rattle.vcp_base.specs.Numerals.{numeral_of};

/// The number that one to ten decimal digits write; leading zeros are allowed. It is below 10^10. Nothing
/// else writes a number.
pub fn numeral(digits: &[u8]) -> Option<u64>
    ensures value { result ≡ numeral_of digits.now }
    ensures below { IfSome result (λ n. n < 10 ^ 10) }
{
    if digits.is_empty() || digits.len() > 10 {
        return None;
    }
    let mut value = 0u64;
    'digits: for byte in digits {
        if !byte.is_ascii_digit() {
            return None;
        }
        value = value * 10 + (*byte - b'0') as u64;
    }
    Some(value)
}
