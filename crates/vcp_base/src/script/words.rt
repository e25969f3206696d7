//! The words of a line, read from the front.

ghost use Rattle.std.specs.Prelude.{◌≡◌, ◌≤◌, ◌∷◌, [], length, IfSome, IfNone};
ghost use Rattle.std.specs.Option.{option_map};
ghost use Rattle.std.specs.List.{position_or_len};
ghost use Rattle.vcp_base.specs.Blanks.{is_blank};
ghost use Rattle.vcp_base.specs.Words.{words as words_of, is_end as is_end_of, only as only_of};

use crate::without_first_blanks;
use memchr::memchr2;
use std::marker::Model;

/// The words that are left of a line, from the front, seen as a list. A word is what is between spaces
/// and tabs.
#[derive(Drop)]
pub struct WordsLeft<'a> {
    rest: &'a [u8],
}

impl<'a> Model for WordsLeft<'a> {
    ghost use Rattle.std.specs.Prelude.{List, ℕ};
    ghost use Rattle.vcp_base.specs.Words.{words};

    ghost Value = { List (List ℕ) };

    ghost view = { λ w. words w.rest.now };
}

// How many bytes stand before the first blank, or in the whole text.
#[tactic(auto, using(crate::proofs::Firsts::first_place))]
fn word_length(text: &[u8]) -> usize
    ensures place { result ≡ position_or_len is_blank text.now }
    ensures bound { result ≤ length text.now }
{
    memchr2(b' ', b'\t', text).unwrap_or(text.len())
}

impl<'a> WordsLeft<'a> {
    /// All words of a line.
    pub fn new(line: &'a [u8]) -> WordsLeft<'a>
        ensures { result ≡ words_of line.now }
    {
        WordsLeft { rest: line }
    }

    /// Takes the first word.
    #[tactic(auto, using(crate::proofs::Firsts::word_next, crate::proofs::Firsts::no_word))]
    pub fn next(&mut self) -> Option<&'a [u8]>
        ensures none { IfNone result ((self.old ≡ []) × (self.new ≡ [])) }
        ensures some { IfSome result (λ word. self.old ≡ word.now ∷ self.new) }
    {
        let text = without_first_blanks(self.rest);
        let end = word_length(text);
        self.rest = &text[end..];
        if end == 0 {
            return None;
        }
        Some(&text[..end])
    }

    /// Takes the one word that is left, where it is one.
    pub fn only(&mut self) -> Option<&'a [u8]>
        ensures { option_map (λ word. word.now) result ≡ only_of self.old }
    {
        let word = self.next()?;
        if self.is_end() { Some(word) } else { None }
    }

    /// Whether no word is left.
    #[tactic(auto, using(crate::proofs::Firsts::is_end_is))]
    pub fn is_end(&self) -> bool
        ensures { result ≡ is_end_of self.now }
    {
        without_first_blanks(self.rest).is_empty()
    }
}
