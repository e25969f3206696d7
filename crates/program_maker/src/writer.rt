//! The text while it is written: pieces go to its end, one by one.

ghost use Rattle.std.specs.Prelude.{◌≡◌, [], false, IfOk};
ghost use Rattle.std.specs.Fmt.{signed_decimal};
ghost use Rattle.program_maker.specs.MadeSource.{variable};
ghost use Rattle.program_maker.specs.Written.{Writes};

use itoa::Buffer;
use std::alloc::Global;
use vcp_base::{Memory, Text};

// The bytes of a text. They are a type of their own, since a loop that gives on what holds a `Vec` itself gets no proof.
#[derive(Drop)]
struct Bytes {
    list: Vec<u8>,
}

/// A text that is written to its end. Where memory runs out it has failed, from then on, and lacks a piece.
#[derive(Drop)]
pub struct Writer {
    text: Bytes,
    has_failed: bool,
}

impl Writer {
    /// A text without bytes. It takes no memory.
    pub fn new(alloc: Global) -> Writer
        ensures text { result.text.list.items ≡ [] }
        ensures sound { result.has_failed ≡ false }
    {
        Writer {
            text: Bytes {
                list: Vec::new(alloc),
            },
            has_failed: false,
        }
    }

    /// The text that was written; `Memory` where it lacks a piece. It takes no memory.
    pub fn into_text(self) -> Result<Text, Memory>
        ensures sound { IfOk result (λ text. self.has_failed ≡ false) }
        ensures text { IfOk result (λ text. text ≡ self.text.list.items) }
    {
        if self.has_failed {
            Err(Memory)
        } else {
            Ok(Text::from_vec(self.text.list))
        }
    }

    /// Writes these bytes.
    pub fn put(mut self, bytes: &[u8]) -> Writer
        ensures { Writes self result bytes.now }
    {
        match self.text.list.extend_from_slice(bytes) {
            Ok(()) => {}
            Err(_) => self.has_failed = true,
        }
        self
    }

    /// Writes the name of a variable.
    pub fn variable(self, i: u32) -> Writer
        ensures { Writes self result (variable i) }
    {
        self.put(b"v").number(i as i64)
    }

    /// Writes a number in decimal digits, after `-` where it is negative.
    pub fn number(self, value: i64) -> Writer
        ensures { Writes self result (signed_decimal value) }
    {
        self.put(Buffer::new().format(value).as_bytes())
    }
}
