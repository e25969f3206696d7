//! Characters, and references in their place.

ghost use Rattle.std.specs.Prelude.{◌≡◌, flat_map};
ghost use Rattle.vcp_outside.specs.Gathering.{GathersTo};
ghost use Rattle.vcp_outside.specs.Characters.{is_plain as is_plain_of, reference as reference_of};
ghost use Rattle.vcp_outside.specs.Characters.{is_unquoted as is_unquoted_of, quoted_reference as quoted_reference_of};
ghost use Rattle.vcp_outside.specs.Characters.{escape_in, escaped_in, piece_bytes};

use crate::{Line, Sink};
use itoa::Buffer;

/// A piece of a text.
#[derive(Clone, Copy)]
pub enum Piece<'a> {
    /// These bytes.
    Bytes(&'a [u8]),
    /// A number in decimal digits.
    Count(u64),
    /// A number in decimal digits, after `-` where it is negative.
    Value(i64),
}

/// How characters are written.
#[derive(Clone, Copy)]
pub enum Escaping {
    /// In a picture in SVG, with references in the place of those that have a meaning there.
    Markup,
    /// Between double quotes, for Graphviz.
    Quoted,
}

/// Whether a byte is written as it is in a picture: it is a character of ASCII, and has no meaning of its own.
fn is_plain(byte: u8) -> bool
    ensures { result ≡ is_plain_of byte }
{
    32 <= byte
        && byte <= 126
        && byte != b'<'
        && byte != b'>'
        && byte != b'&'
        && byte != b'"'
        && byte != b'\''
}

/// What is written in the place of a byte that isn't written as it is.
fn reference(byte: u8) -> &'static [u8]
    ensures { result.now ≡ reference_of byte }
{
    if byte == b'<' {
        return b"&lt;";
    }
    if byte == b'>' {
        return b"&gt;";
    }
    if byte == b'&' {
        return b"&amp;";
    }
    if byte == b'"' {
        return b"&quot;";
    }
    if byte == b'\'' {
        return b"&#39;";
    }
    b"&#65533;"
}

/// Whether a byte is written as it is between double quotes: it is a character of ASCII, and has no meaning of its own.
fn is_unquoted(byte: u8) -> bool
    ensures { result ≡ is_unquoted_of byte }
{
    32 <= byte && byte <= 126 && byte != b'"' && byte != b'&' && byte != b'\\'
}

/// What is written between double quotes in the place of a byte that isn't written as it is.
fn quoted_reference(byte: u8) -> &'static [u8]
    ensures { result.now ≡ quoted_reference_of byte }
{
    if byte == b'"' {
        return b"\\\"";
    }
    if byte == b'\\' {
        return b"\\\\";
    }
    if byte == b'&' {
        return b"&amp;";
    }
    if byte == b'\n' {
        return b"\\n";
    }
    b"&#65533;"
}

/// Goes on with a byte, or what is in its place.
fn then_byte<O: Sink>(line: &mut Line, out: &mut O, escaping: Escaping, byte: u8)
    ensures { GathersTo (O.seen out.old) (O.seen out.new) line.old line.new (escape_in escaping byte) }
{
    match escaping {
        Escaping::Markup if is_plain(byte) => line.text(out, &[byte]),
        Escaping::Markup => line.text(out, reference(byte)),
        Escaping::Quoted if is_unquoted(byte) => line.text(out, &[byte]),
        Escaping::Quoted => line.text(out, quoted_reference(byte)),
    }
}

/// Goes on with these bytes, or what is in their place.
fn then_escaped<O: Sink>(line: &mut Line, out: &mut O, escaping: Escaping, bytes: &[u8])
    ensures { GathersTo (O.seen out.old) (O.seen out.new) line.old line.new (escaped_in escaping bytes.now) }
{
    'bytes: for i in 0..bytes.len() {
        then_byte(line, out, escaping, bytes[i]);
    }
}

/// Goes on with a piece of a text.
fn then_piece<O: Sink>(line: &mut Line, out: &mut O, escaping: Escaping, piece: Piece<'_>)
    ensures { GathersTo (O.seen out.old) (O.seen out.new) line.old line.new (escaped_in escaping (piece_bytes piece.entry)) }
{
    match piece {
        Piece::Bytes(bytes) => then_escaped(line, out, escaping, bytes),
        Piece::Count(n) => then_escaped(line, out, escaping, Buffer::new().format(n).as_bytes()),
        Piece::Value(v) => then_escaped(line, out, escaping, Buffer::new().format(v).as_bytes()),
    }
}

/// Goes on with the pieces of a text, written so.
pub(crate) fn then_pieces<O: Sink>(
    line: &mut Line,
    out: &mut O,
    escaping: Escaping,
    pieces: &[Piece<'_>],
)
    ensures { GathersTo (O.seen out.old) (O.seen out.new) line.old line.new
        (flat_map (λ piece. escaped_in escaping (piece_bytes piece)) pieces.now) }
{
    'pieces: for i in 0..pieces.len() {
        then_piece(line, out, escaping, pieces[i]);
    }
}
