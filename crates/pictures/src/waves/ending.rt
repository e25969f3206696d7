//! The last line of a run.

ghost use Rattle.std.specs.Prelude.{◌≡◌, codes, option_map, option_and_then};
ghost use Rattle.std.specs.Option.{is_some};
ghost use Rattle.pictures.specs.Ending.{rest_behind as rest_behind_of, rest_behind_number as rest_behind_number_of};
ghost use Rattle.pictures.specs.Ending.{mark_of as mark_of_text};

use itoa::Buffer;
use vcp_base::Text;

/// How a run ended.
#[derive(Clone, Copy)]
pub enum Mark {
    /// It came to the end of its rows.
    Ended,
    /// It stopped.
    Stopped,
    /// An output was refused.
    Refused,
}

/// How a run ended, and the words of its last line.
#[derive(Drop)]
pub struct Ending {
    /// How the run ended.
    pub mark: Mark,
    /// The last line, without its end.
    pub text: Text,
}

// What stands behind these bytes, where a text begins with them.
fn rest_behind<'a>(front: &[u8], text: &'a [u8]) -> Option<&'a [u8]>
    ensures { option_map (λ r. r.now) result ≡ rest_behind_of front.now text.now }
{
    text.strip_prefix(front)
}

// What stands behind a word and a number.
fn rest_behind_number<'a>(word: &[u8], n: u32, text: &'a [u8]) -> Option<&'a [u8]>
    ensures { option_map (λ r. r.now) result ≡ rest_behind_number_of word.now n text.now }
{
    match rest_behind(word, text) {
        Some(rest) => rest_behind(Buffer::new().format(n).as_bytes(), rest),
        None => None,
    }
}

// Whether the text begins with the word, the number and a space.
fn is_numbered(word: &[u8], n: u32, text: &[u8]) -> bool
    ensures { result ≡ is_some (option_and_then (rest_behind_of (codes " ")) (rest_behind_number_of word.now n text.now)) }
{
    match rest_behind_number(word, n, text) {
        Some(rest) => rest_behind(b" ", rest).is_some(),
        None => false,
    }
}

/// How a run ends by its last line, which is behind the rows of the cycles below this one; `None`
/// where the text is no last line.
pub(crate) fn mark_of(cycle: u32, text: &[u8]) -> Option<Mark>
    ensures { result ≡ mark_of_text cycle text.now }
{
    if let Some(rest) = rest_behind_number(b"end ", cycle, text)
        && rest.is_empty()
    {
        return Some(Mark::Ended);
    }
    if is_numbered(b"stop ", cycle, text) {
        return Some(Mark::Stopped);
    }
    if is_numbered(b"refused ", cycle, text) {
        return Some(Mark::Refused);
    }
    None
}
