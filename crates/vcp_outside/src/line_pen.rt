//! A pen that gathers a line.

ghost use Rattle.std.specs.Prelude.{[], ◌++◌, codes, decimal};
ghost use Rattle.vcp_outside.specs.Pens.{penned, HasWritten, Ends};

use crate::svg::characters::then_pieces;
use crate::{Escaping, Failed, Line, Pen, Piece, Sink};

/// A pen for a sink, which gathers what it writes in a line. A struct that holds a `&mut` has no model, so contracts name its parts.
#[derive(Drop)]
pub struct LinePen<'o, O> {
    pub(crate) out: &'o mut O,
    pub(crate) line: Line,
}

impl<'o, O: Sink> LinePen<'o, O> {
    /// A pen for a sink, with which nothing is written.
    pub fn new(out: &'o mut O) -> LinePen<'o, O>
        ensures { HasWritten (O.seen out.old) out.entry.ghost_name []
            (penned (O.seen result.out.now) result.line result.out.ghost_name) }
    {
        LinePen {
            out,
            line: Line::new(),
        }
    }

    /// Ends the line with LF, and writes what is pending. It fails where a write of the line failed, and then
    /// a part of the line is written. The part comes only where the count of faults rose.
    pub fn end(self) -> Result<(), Failed>
        ensures { Ends (penned (O.seen self.entry.out.now) self.entry.line self.entry.out.ghost_name)
            (O.seen self.exit.0.now) (codes "\n") result }
    {
        let LinePen { out, line } = self;
        line.end(out)
    }
}

impl<'o, O: Sink> Pen for LinePen<'o, O> {
    ghost seen = { λ p. penned (O.seen p.out.now) p.line p.out.ghost_name };

    fn text(self, bytes: &[u8]) -> Self {
        let LinePen { out, mut line } = self;
        line.text(out, bytes);
        LinePen { out, line }
    }

    fn mark(self, byte: u8) -> Self {
        let LinePen { out, mut line } = self;
        line.mark(out, byte);
        LinePen { out, line }
    }

    fn count(self, n: u64) -> Self {
        let LinePen { out, mut line } = self;
        line.count(out, n);
        LinePen { out, line }
    }

    fn value(self, v: i64) -> Self {
        let LinePen { out, mut line } = self;
        line.value(out, v);
        LinePen { out, line }
    }

    fn long_value(self, number: i128) -> Self {
        let LinePen { out, mut line } = self;
        line.long_value(out, number);
        LinePen { out, line }
    }

    fn texts(self, first: &[u8], second: &[u8]) -> Self {
        self.text(first).text(second)
    }

    fn numbered(self, text: &[u8], n: u64) -> Self {
        self.text(text).count(n)
    }

    fn signed(self, text: &[u8], v: i64) -> Self {
        self.text(text).value(v)
    }

    fn pieces(self, escaping: Escaping, pieces: &[Piece<'_>]) -> Self {
        let LinePen { out, mut line } = self;
        then_pieces(&mut line, out, escaping, pieces);
        LinePen { out, line }
    }
}

/// A line that begins with a word and a number.
pub fn begin<'o, O: Sink>(out: &'o mut O, word: &[u8], number: u32) -> LinePen<'o, O>
    ensures { HasWritten (O.seen out.old) out.entry.ghost_name (word.now ++ decimal number)
        (penned (O.seen result.out.now) result.line result.out.ghost_name) }
{
    LinePen::new(out).numbered(word, number as u64)
}
