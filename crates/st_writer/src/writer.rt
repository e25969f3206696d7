//! The text while it is written: lexemes go to its end, one by one.

ghost use Rattle.std.specs.Prelude.{◌≡◌, ◌∷◌, [], suc, false, IfOk};
ghost use Rattle.st_writer.specs.Adds.{Adds, Puts, separator, prefix_piece};
ghost use Rattle.st_writer.specs.Lexemes as lexeme;

use itoa::Buffer;
use std::alloc::Global;
use vcp_base::{Memory, Text, Ty, ty_name};

// The bytes of a text. They are a type of their own, since a loop that gives on what holds a `Vec` itself gets no proof.
#[derive(Drop)]
struct Bytes {
    list: Vec<u8>,
}

/// A text that is written to its end. Where memory runs out it has failed, from then on, and its bytes lack some.
#[derive(Drop)]
pub struct Writer {
    text: Bytes,
    has_failed: bool,
}

impl Writer {
    /// A text without bytes. It takes no memory.
    pub fn new(alloc: Global) -> Writer
        ensures text { result.text.list.items ≡ [] }
        ensures sound { result.has_failed ≡ false }
    {
        Writer {
            text: Bytes {
                list: Vec::new(alloc),
            },
            has_failed: false,
        }
    }

    /// The text that was written; `Memory` where memory ran out.
    pub fn into_text(self) -> Result<Text, Memory>
        ensures sound { IfOk result (λ t. self.has_failed ≡ false) }
        ensures text { IfOk result (λ t. t ≡ self.text.list.items) }
    {
        if self.has_failed {
            Err(Memory)
        } else {
            Ok(Text::from_vec(self.text.list))
        }
    }

    /// Writes bytes.
    pub fn put(mut self, bytes: &[u8]) -> Writer
        ensures { Puts self result bytes.now }
    {
        match self.text.list.extend_from_slice(bytes) {
            Ok(()) => {}
            Err(_) => self.has_failed = true,
        }
        self
    }

    /// Writes a name, as the tree has it.
    pub fn name(self, name: &Text) -> Writer
        ensures { Adds self result (lexeme.name name.now ∷ []) }
    {
        self.put(name.bytes())
    }

    // Writes what stands before the digits of a number: its type where it has one, and `#`.
    fn prefix(self, ty: Option<Ty>) -> Writer
        ensures { Adds self result (prefix_piece ty) }
    {
        match ty {
            None => self,
            Some(ty) => self.put(ty_name(ty)).put(b"#"),
        }
    }

    /// Writes a number: its type where it has one, and its value in decimal digits.
    pub fn number(self, ty: Option<Ty>, value: i64) -> Writer
        ensures { Adds self result (lexeme.number ty value ∷ []) }
    {
        self.prefix(ty).put(Buffer::new().format(value).as_bytes())
    }

    /// Writes a literal.
    pub fn literal(self, ty: Option<Ty>, value: i64) -> Writer
        ensures { Adds self result (lexeme.literal ty value ∷ []) }
    {
        match ty {
            Some(Ty::Bool) => match value {
                0 => self.put(b"FALSE"),
                1 => self.put(b"TRUE"),
                _ => self.number(ty, value),
            },
            Some(Ty::Int | Ty::Dint | Ty::Lint) | None => self.number(ty, value),
        }
    }

    /// Writes what comes before item `i` of a list: nothing before the first, and a comma and a space
    /// before each other.
    pub fn separator(self, i: usize) -> Writer
        ensures { Adds self result (separator i) }
    {
        if i == 0 { self } else { self.put(b", ") }
    }

    /// Writes the indent of a line at a level, two spaces a level.
    pub fn indent(mut self, level: usize) -> Writer
        ensures { Adds self result (lexeme.indent level) }
    {
        'levels: for _outer in 0..level {
            self = self.put(b"  ");
        }
        self
    }

    /// The level one deeper. No text is so deep that there is none: there it fails as where memory runs out.
    pub fn deeper(&mut self, level: usize) -> usize
        ensures adds { Adds self.old self.new [] }
        ensures level { self.new.has_failed ≡ false → result ≡ suc level }
    {
        match level.checked_add(1) {
            Some(inner) => inner,
            None => {
                self.has_failed = true;
                level
            }
        }
    }
}
