//! Integers with an optional sign.

ghost use Rattle.std.specs.Prelude.{◌≡◌, ◌≤ℤ◌, pos, neg_ℤ, IfSome, option_map, option_and_then};
ghost use Rattle.vcp_base.specs.Numerals.{natural_of, cut_natural, integer_of, in_type};

use crate::{Ty, fits};

/// More than any value of 64 bits, with or without a sign before it, so that the value of longer
/// digits is cut to it.
const BEYOND: u128 = 18_446_744_073_709_551_616;

// The number that decimal digits spell, or `BEYOND` if it is greater; `None` if they are no digits.
fn natural(digits: &[u8]) -> Option<i128>
    ensures value { result ≡ cut_natural (natural_of digits.now) }
    ensures no_sign { IfSome result (λ v. pos 0 ≤ℤ v) }
{
    let mut number = 0u128;
    'digits: for digit in digits {
        if !digit.is_ascii_digit() {
            return None;
        }
        number = (number * 10 + u128::from(*digit - b'0')).min(BEYOND);
    }
    if digits.is_empty() {
        return None;
    }
    Some(number as i128)
}

// The value that an optional sign and digits spell, if there is a type that has it; else one that no
// type has.
fn integer(text: &[u8]) -> Option<i128>
    ensures { (t : Ty) → option_and_then (in_type t) result ≡ option_and_then (in_type t) (integer_of text.now) }
{
    match text {
        [] => None,
        [first, digits @ ..] => {
            if *first == b'+' {
                natural(digits)
            } else if *first == b'-' {
                minus(natural(digits))
            } else {
                natural(text)
            }
        }
    }
}

// The number with a minus sign.
fn minus(number: Option<i128>) -> Option<i128>
    requires { IfSome number (λ v. pos 0 ≤ℤ v) }
    ensures { result ≡ option_map neg_ℤ number }
{
    Some(-number?)
}

/// The value that an optional sign and decimal digits spell, if it is one of the type.
pub fn number_in(ty: Ty, text: &[u8]) -> Option<i64>
    ensures { result ≡ option_and_then (in_type ty) (integer_of text.now) }
{
    let v = integer(text)?;
    if fits(ty, v) { Some(v as i64) } else { None }
}
