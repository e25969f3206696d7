//! What may be a name. Letters are those of ASCII.

ghost use Rattle.std.specs.Prelude.{◌≡◌};
ghost use Rattle.std.specs.List.{list_all};
ghost use Rattle.vcp_base.specs.Names.{is_letter as is_letter_of, is_letter_or_digit as is_letter_or_digit_of, is_name as is_name_of};

/// Whether the byte is a letter or `_`.
pub fn is_letter(c: u8) -> bool
    ensures { result ≡ is_letter_of c }
{
    (65 <= c && c <= 90) || (97 <= c && c <= 122) || c == 95
}

/// Whether the byte is a letter, `_` or a digit.
pub fn is_letter_or_digit(c: u8) -> bool
    ensures { result ≡ is_letter_or_digit_of c }
{
    is_letter(c) || (48 <= c && c <= 57)
}

/// Whether the bytes are letters, digits and `_` alone.
fn are_letters_or_digits(text: &[u8]) -> bool
    ensures { result ≡ list_all is_letter_or_digit_of text.now }
{
    text.iter().all(|c| is_letter_or_digit(*c))
}

/// Whether the bytes are a letter or `_`, and then letters, digits and `_`. How long a name may be isn't looked at.
pub fn is_name(text: &[u8]) -> bool
    ensures { result ≡ is_name_of text.now }
{
    match text {
        [] => false,
        [first, rest @ ..] => is_letter(*first) && are_letters_or_digits(rest),
    }
}
