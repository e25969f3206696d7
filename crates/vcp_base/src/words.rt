//! Command words.

ghost use Rattle.std.specs.Prelude.{◌≡◌, ◌<◌, [], ◌∷◌, ◌++◌, Some, OnOk, OnErr, length, slice_get};

use crate::memory::Memory;
use crate::text::Text;
use std::alloc::Global;
use std::marker::Model;

/// Words, seen as a list of texts.
pub struct Words {
    words: Vec<Text>,
    alloc: Global,
}

impl Drop for Words {
    fn drop(self) {
        let Words { words: _, alloc: _ } = self;
    }
}

impl Model for Words {
    ghost use Rattle.std.specs.Prelude.{List, ℕ};

    ghost Value = { List (List ℕ) };

    ghost view = { λ w. w.words.items };
}

impl Words {
    /// No words. It takes no memory.
    pub fn new(alloc: Global) -> Words
        ensures { result ≡ [] }
    {
        Words {
            words: Vec::new(alloc),
            alloc,
        }
    }

    /// Appends a copy of a word. After `Memory` the list is unchanged.
    pub fn push(&mut self, word: &[u8]) -> Result<(), Memory>
        ensures ok { OnOk result (self.new ≡ self.old ++ word.now ∷ []) }
        ensures err { OnErr result (self.new ≡ self.old) }
    {
        let copy = Text::copy_of(self.alloc, word)?;
        self.words.push(copy)?;
        Ok(())
    }

    /// How many words there are.
    pub fn len(&self) -> usize
        ensures { result ≡ length self.now }
    {
        self.words.len()
    }

    /// The word at place `i`, counted from 0, where `i` is less than `len`.
    pub fn at(&self, i: usize) -> &Text
        requires { i < length self.now }
        ensures { slice_get self.now i ≡ Some result.now }
    {
        &self.words[i]
    }
}
