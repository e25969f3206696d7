//! The numbers that words write.

ghost use Rattle.std.specs.Prelude.{◌≡◌, option_map};
ghost use Rattle.std.specs.Char.{is_ascii_digit};
ghost use Rattle.std.specs.List.{list_all};
ghost use Rattle.std.specs.Option.{is_some};
ghost use Rattle.vcp_base.specs.Numerals.{integer_of, natural_of};
ghost use Rattle.vcp_base.specs.Integers.{as_lint, is_addend as is_addend_of};

use crate::{Ty, number_in};

/// The most that a script adds to a word, in size.
const MOST_ADDEND: i64 = 1 << 62;

// Whether a text is decimal digits alone.
fn are_digits(text: &[u8]) -> bool
    ensures { result ≡ list_all is_ascii_digit text.now }
{
    text.iter().all(|c| c.is_ascii_digit())
}

// Whether a text is one or more decimal digits.
fn is_natural(digits: &[u8]) -> bool
    ensures { result ≡ is_some (natural_of digits.now) }
{
    !digits.is_empty() && are_digits(digits)
}

// Whether a word is an optional sign and decimal digits.
fn is_integer(word: &[u8]) -> bool
    ensures { result ≡ is_some (integer_of word.now) }
{
    match word {
        [b'+', digits @ ..] => is_natural(digits),
        [b'-', digits @ ..] => is_natural(digits),
        _ => is_natural(word),
    }
}

/// The number that a word writes: an optional sign and decimal digits. One that hasn't 64 bits is given
/// as the greatest that has.
#[tactic(auto, using(crate::proofs::Written::in_lint, crate::proofs::Written::beyond))]
pub fn integer(word: &[u8]) -> Option<i64>
    ensures { result ≡ option_map as_lint (integer_of word.now) }
{
    if let Some(number) = number_in(Ty::Lint, word) {
        return Some(number);
    }
    if is_integer(word) {
        Some(i64::MAX)
    } else {
        None
    }
}

/// Whether a number is at most 2^62 in size.
pub fn is_addend(e: i64) -> bool
    ensures { result ≡ is_addend_of e }
{
    -MOST_ADDEND <= e && e <= MOST_ADDEND
}
