//! A word that has to come next.

ghost use Rattle.std.specs.Prelude.{◌≡◌, drop};
ghost use Rattle.fault_sites.specs.NextWord.{first_is};

use vcp_base::{WordsLeft, same_bytes};

/// Takes the next word of a line, where there is one, and answers whether it is this one.
pub fn next_is(words: &mut WordsLeft<'_>, name: &[u8]) -> bool
    ensures is { result ≡ first_is name.now words.old }
    ensures rest { words.new ≡ drop 1 words.old }
{
    match words.next() {
        Some(word) => same_bytes(word, name),
        None => false,
    }
}
