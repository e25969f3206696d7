//! An element of a picture.

use vcp_outside::{Failed, MemSink, Name, Piece, Tag, begin_picture, end_picture, then_element};

/// Writes a picture of one element, with characters that have a meaning.
pub fn write_element(out: &mut MemSink) -> Result<(), Failed> {
    end_picture(then_element(
        begin_picture(out, 20, 10),
        Tag::Text,
        &[
            (Name::Class, Piece::Bytes(b"a\"'")),
            (Name::X, Piece::Count(7)),
        ],
        &[Piece::Bytes(b"<b> &\n\xff"), Piece::Value(-12)],
    ))
}
