//! The names of elements and of attributes.

ghost use Rattle.std.specs.Prelude.{◌≡◌};
ghost use Rattle.vcp_outside.specs.Elements.{tag_name as tag_name_of, attribute_name as attribute_name_of};

/// A kind of element.
#[derive(Clone, Copy)]
pub enum Tag {
    /// The whole picture.
    Svg,
    /// The rules of style.
    Style,
    /// A rectangle.
    Rect,
    /// A straight line.
    Line,
    /// Words.
    Text,
}

/// A kind of attribute.
#[derive(Clone, Copy)]
pub enum Name {
    /// The name space of the picture.
    Xmlns,
    /// The part of the plane that is shown.
    ViewBox,
    /// The class, by which the rules of style name elements.
    Class,
    /// The distance of the left side.
    X,
    /// The distance of the upper side, or of the line on which words are.
    Y,
    /// The width.
    Width,
    /// The height.
    Height,
    /// The distance of a line's first end from the left.
    X1,
    /// The distance of a line's first end from above.
    Y1,
    /// The distance of a line's second end from the left.
    X2,
    /// The distance of a line's second end from above.
    Y2,
    /// The number of the operation that a box represents.
    Operation,
    /// The number of the operation that is read.
    Operand,
    /// The number of the operation that reads.
    Reader,
    /// Which operand of the reader it is, counted from 0.
    Place,
    /// The number of the column that a value is in, counted from 0.
    Column,
    /// The cycle that a value is of.
    Cycle,
}

/// The name of an element.
pub(crate) fn tag_name(tag: Tag) -> &'static [u8]
    ensures { result.now ≡ tag_name_of tag }
{
    match tag {
        Tag::Svg => b"svg",
        Tag::Style => b"style",
        Tag::Rect => b"rect",
        Tag::Line => b"line",
        Tag::Text => b"text",
    }
}

/// The name of an attribute.
pub(crate) fn attribute_name(name: Name) -> &'static [u8]
    ensures { result.now ≡ attribute_name_of name }
{
    match name {
        Name::Xmlns => b"xmlns",
        Name::ViewBox => b"viewBox",
        Name::Class => b"class",
        Name::X => b"x",
        Name::Y => b"y",
        Name::Width => b"width",
        Name::Height => b"height",
        Name::X1 => b"x1",
        Name::Y1 => b"y1",
        Name::X2 => b"x2",
        Name::Y2 => b"y2",
        Name::Operation => b"data-operation",
        Name::Operand => b"data-operand",
        Name::Reader => b"data-reader",
        Name::Place => b"data-place",
        Name::Column => b"data-column",
        Name::Cycle => b"data-cycle",
    }
}
