//! Parts of a text that may be shorter.

ghost use Rattle.std.specs.Prelude.{◌≡◌, take, drop, slice_index};
ghost use Rattle.std.specs.Str.{str_eq_ignore_ascii_case};

/// The first `n` bytes, or all where there are fewer.
pub fn front(text: &[u8], n: usize) -> &[u8]
    ensures { result.now ≡ take n text.now }
{
    if n < text.len() {
        text.split_at(n).0
    } else {
        text
    }
}

/// What follows the first `n` bytes, or nothing where there are fewer.
pub fn behind(text: &[u8], n: usize) -> &[u8]
    ensures { result.now ≡ drop n text.now }
{
    if n < text.len() {
        text.split_at(n).1
    } else {
        &[]
    }
}

/// The first byte, or 0 where there is none.
pub fn first(text: &[u8]) -> u8
    ensures { result ≡ slice_index text.now 0 }
{
    text.first().copied().unwrap_or(0)
}

/// Whether the two are equal without regard to the case of ASCII letters.
pub fn same_word(a: &[u8], b: &[u8]) -> bool
    ensures { result ≡ str_eq_ignore_ascii_case a.now b.now }
{
    a.eq_ignore_ascii_case(b)
}
