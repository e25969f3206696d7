//! Pens: a text is written with one, piece by piece.

ghost use Rattle.std.specs.Prelude.{[], ◌∷◌, ◌++◌, decimal, flat_map};
ghost use Rattle.std.specs.Fmt.{signed_decimal};
ghost use Rattle.vcp_outside.specs.Characters.{escaped_in, piece_bytes};
ghost use Rattle.vcp_outside.specs.Pens.{Penned, Goes};

use crate::{Escaping, Piece};

/// What a text is written with, piece by piece, on its way to a sink. After a write that failed nothing more is written, and
/// its end fails. It stays a pen for the same sink.
pub trait Pen: Sized {
    /// What is seen of it: its sink, the line on its way there, and which sink it is.
    ghost seen: { Self → Penned };

    /// Goes on with these bytes.
    fn text(self, bytes: &[u8]) -> Self
        ensures { Goes (seen self) (seen result) bytes.now };

    /// Goes on with one byte.
    fn mark(self, byte: u8) -> Self
        ensures { Goes (seen self) (seen result) (byte ∷ []) };

    /// Goes on with a number in decimal digits.
    fn count(self, n: u64) -> Self
        ensures { Goes (seen self) (seen result) (decimal n) };

    /// Goes on with a number in decimal digits, after `-` where it is negative.
    fn value(self, v: i64) -> Self
        ensures { Goes (seen self) (seen result) (signed_decimal v) };

    /// Goes on with a number of 128 bits in decimal digits, after `-` where it is negative.
    fn long_value(self, number: i128) -> Self
        ensures { Goes (seen self) (seen result) (signed_decimal number) };

    /// Goes on with one text and then another one.
    fn texts(self, first: &[u8], second: &[u8]) -> Self
        ensures { Goes (seen self) (seen result) (first.now ++ second.now) };

    /// Goes on with a text and then a number in decimal digits.
    fn numbered(self, text: &[u8], n: u64) -> Self
        ensures { Goes (seen self) (seen result) (text.now ++ decimal n) };

    /// Goes on with a text and then a number in decimal digits, after `-` where it is negative.
    fn signed(self, text: &[u8], v: i64) -> Self
        ensures { Goes (seen self) (seen result) (text.now ++ signed_decimal v) };

    /// Goes on with the pieces of a text, written so.
    fn pieces(self, escaping: Escaping, pieces: &[Piece<'_>]) -> Self
        ensures { Goes (seen self) (seen result) (flat_map (λ piece. escaped_in escaping (piece_bytes piece)) pieces.now) };
}
