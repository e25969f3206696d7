//! Lines and texts.

ghost use Rattle.std.specs.Prelude.{map};
ghost use Rattle.vcp_outside.specs.Pens.{Goes};
ghost use Rattle.vcp_outside.specs.Characters.{piece_bytes};
ghost use Rattle.vcp_outside.specs.Elements.{element_text};
ghost use Rattle.pictures.specs.WavesElements.{line_element, text_element, words_element, slope_element};

use crate::waves::layout::{Layout, start};
use crate::waves::stretches::Stretch;
use vcp_outside::{Name, Pen, Piece, Tag, then_element};

/// Draws a line of a class between two places.
pub(crate) fn then_line<P: Pen>(pen: P, class: &[u8], x1: u64, y1: u64, x2: u64, y2: u64) -> P
    ensures { Goes (P.seen pen) (P.seen result) (element_text (line_element class.now x1 y1 x2 y2)) }
{
    then_element(
        pen,
        Tag::Line,
        &[
            (Name::Class, Piece::Bytes(class)),
            (Name::X1, Piece::Count(x1)),
            (Name::Y1, Piece::Count(y1)),
            (Name::X2, Piece::Count(x2)),
            (Name::Y2, Piece::Count(y2)),
        ],
        &[],
    )
}

/// Writes a text of a class at a place.
pub(crate) fn then_text<P: Pen>(pen: P, class: &[u8], x: u64, y: u64, content: &[Piece<'_>]) -> P
    ensures { Goes (P.seen pen) (P.seen result)
        (element_text (text_element class.now x y (map piece_bytes content.now))) }
{
    then_element(
        pen,
        Tag::Text,
        &[
            (Name::Class, Piece::Bytes(class)),
            (Name::X, Piece::Count(x)),
            (Name::Y, Piece::Count(y)),
        ],
        content,
    )
}

/// Writes words at a place.
pub(crate) fn then_words<P: Pen>(pen: P, x: u64, y: u64, words: Piece<'_>) -> P
    ensures { Goes (P.seen pen) (P.seen result)
        (element_text (words_element x y (piece_bytes words.entry))) }
{
    then_element(
        pen,
        Tag::Text,
        &[(Name::X, Piece::Count(x)), (Name::Y, Piece::Count(y))],
        &[words],
    )
}

/// Draws the line of a stretch, from the begin of its first cycle to the end of its last one, in a class and from a height to another.
pub(crate) fn then_slope<P: Pen>(
    pen: P,
    layout: Layout,
    stretch: Stretch,
    class: &[u8],
    from: u64,
    to: u64,
    content: &[Piece<'_>],
) -> P
    ensures { Goes (P.seen pen) (P.seen result)
        (element_text (slope_element layout stretch class.now from to (map piece_bytes content.now))) }
{
    then_element(
        pen,
        Tag::Line,
        &[
            (Name::Column, Piece::Count(stretch.column as u64)),
            (Name::Cycle, Piece::Count(stretch.start as u64)),
            (Name::Class, Piece::Bytes(class)),
            (Name::X1, Piece::Count(start(layout, stretch.start))),
            (Name::Y1, Piece::Count(from)),
            (Name::X2, Piece::Count(start(layout, stretch.end))),
            (Name::Y2, Piece::Count(to)),
        ],
        content,
    )
}
