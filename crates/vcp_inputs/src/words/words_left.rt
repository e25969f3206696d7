//! The words of a command, read from the front.

ghost use Rattle.std.specs.Prelude.{◌≡◌, ◌≤◌, ◌∷◌, [], IfSome, IfNone};
ghost use Rattle.std.specs.Option.{option_map};
ghost use Rattle.vcp_inputs.specs.Forms.{is_file_name as is_file_name_of, is_end as is_end_of, name_and_rest, rows_and_rest};
ghost use Rattle.vcp_inputs.specs.Forms.{number_and_rest, code_of, rows_of, as_code, AreFew, IsCode};

use crate::words::command::{Code, DEFAULT_CODE, RowsWord};
use std::marker::Model;
use vcp_base::{MOST_CYCLES, MOST_STEP, SEEDS, Text, Words, numeral, same_bytes};

/// The words that are left, from the front, seen as a list.
#[derive(Drop)]
pub struct CommandWords<'a> {
    words: &'a Words,
    at: usize,
}

impl<'a> Model for CommandWords<'a> {
    ghost use Rattle.std.specs.Prelude.{List, ℕ, drop};

    ghost Value = { List (List ℕ) };

    ghost view = { λ w. drop w.at w.words.now };
}

/// Whether a word can be a file's name: it isn't empty and doesn't begin with `-`.
fn is_file_name(word: &Text) -> bool
    ensures { result ≡ is_file_name_of word.now }
{
    match word.bytes() {
        [] => false,
        [first, ..] => *first != b'-',
    }
}

impl<'a> CommandWords<'a> {
    /// All these words.
    pub fn new(words: &'a Words) -> CommandWords<'a>
        ensures { result ≡ words.now }
    {
        CommandWords { words, at: 0 }
    }

    /// Whether no word is left.
    pub fn is_end(&self) -> bool
        ensures { result ≡ is_end_of self.now }
    {
        self.at >= self.words.len()
    }

    /// Takes the first word. It stays as it is where there is none.
    pub fn next(&mut self) -> Option<&'a Text>
        ensures none { IfNone result ((self.old ≡ []) × (self.new ≡ [])) }
        ensures some { IfSome result (λ word. self.old ≡ word.now ∷ self.new) }
    {
        if self.at >= self.words.len() {
            return None;
        }
        let word = self.words.at(self.at);
        self.at += 1;
        Some(word)
    }

    /// Takes a file's name.
    pub fn name(&mut self) -> Option<&'a Text>
        ensures { option_map (λ name. (name.now, self.new)) result ≡ name_and_rest self.old }
    {
        let Some(word) = self.next() else {
            return None;
        };
        if is_file_name(word) { Some(word) } else { None }
    }

    /// Takes ROWS.
    pub fn rows(&mut self) -> Option<RowsWord<'a>>
        ensures rows { option_map (λ rows. (rows_of rows, self.new)) result ≡ rows_and_rest self.old }
        ensures few { IfSome result (λ rows. AreFew (rows_of rows)) }
    {
        let Some(word) = self.next() else {
            return None;
        };
        if same_bytes(word.bytes(), b"--cycles") {
            return match self.number(0, MOST_CYCLES) {
                Some(cycles) => Some(RowsWord::Cycles(cycles)),
                None => None,
            };
        }
        if is_file_name(word) {
            Some(RowsWord::File(word))
        } else {
            None
        }
    }

    /// Takes a number from `least` to `most`.
    pub fn number(&mut self, least: u32, most: u32) -> Option<u32>
        ensures number { option_map (λ n. (n, self.new)) result ≡ number_and_rest least most self.old }
        ensures most { IfSome result (λ n. n ≤ most) }
    {
        let Some(word) = self.next() else {
            return None;
        };
        let Some(number) = numeral(word.bytes()) else {
            return None;
        };
        if least as u64 <= number && number <= most as u64 {
            Some(number as u32)
        } else {
            None
        }
    }

    /// Takes CODE, to the last word: `--seed N` and `--step N`, each at most once.
    pub fn code(&mut self) -> Option<Code>
        ensures code { option_map as_code result ≡ code_of self.old }
        ensures rest { IfSome result (λ code. self.new ≡ []) }
        ensures sound { IfSome result (λ code. IsCode (as_code code)) }
    {
        let mut seed = DEFAULT_CODE.seed;
        let mut step = DEFAULT_CODE.step;
        let mut has_seed = false;
        let mut has_step = false;
        'options: while let Some(option) = self.next() {
            if !has_seed && same_bytes(option.bytes(), b"--seed") {
                let Some(given) = self.number(0, SEEDS - 1) else {
                    return None;
                };
                seed = given;
                has_seed = true;
            } else if !has_step && same_bytes(option.bytes(), b"--step") {
                let Some(given) = self.number(1, MOST_STEP as u32) else {
                    return None;
                };
                step = given as u16;
                has_step = true;
            } else {
                return None;
            }
        }
        Some(Code { seed, step })
    }
}
