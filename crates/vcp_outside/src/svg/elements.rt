//! Elements, written one after another inside one that is the picture.

ghost use Rattle.std.specs.Prelude.{map, flat_map};
ghost use Rattle.vcp_outside.specs.Pens.{penned, HasWritten, Goes, Ends};
ghost use Rattle.vcp_outside.specs.Characters.{piece_bytes};
ghost use Rattle.vcp_outside.specs.Elements.{attribute_text, attribute_of, given_text, element, element_text, beginning, ending};

use crate::svg::characters::{Escaping, Piece};
use crate::svg::names::{Name, Tag, attribute_name, tag_name};
use crate::{Failed, LinePen, Pen, Sink};

/// Goes on with an attribute, after a space.
fn then_attribute<P: Pen>(pen: P, name: Name, value: &[Piece<'_>]) -> P
    ensures { Goes (P.seen pen) (P.seen result)
        (attribute_text (record { name = name; value = map piece_bytes value.now })) }
{
    pen.texts(b" ", attribute_name(name))
        .text(b"=\"")
        .pieces(Escaping::Markup, value)
        .text(b"\"")
}

/// Goes on with attributes, each after a space.
fn then_attributes<P: Pen>(mut pen: P, attributes: &[(Name, Piece<'_>)]) -> P
    ensures { Goes (P.seen pen) (P.seen result)
        (flat_map given_text attributes.now) }
{
    'attributes: for i in 0..attributes.len() {
        let (name, value) = attributes[i];
        pen = then_attribute(pen, name, &[value]);
    }
    pen
}

/// Goes on with an element: its tag, its attributes, none of them twice, and its characters. Characters with
/// a meaning of their own are written as references, those outside printable ASCII as the replacement
/// character, numbers in decimal digits.
pub fn then_element<P: Pen>(
    pen: P,
    tag: Tag,
    attributes: &[(Name, Piece<'_>)],
    content: &[Piece<'_>],
) -> P
    ensures { Goes (P.seen pen) (P.seen result)
        (element_text (element tag (map attribute_of attributes.now) (map piece_bytes content.now))) }
{
    then_attributes(pen.texts(b"<", tag_name(tag)), attributes)
        .text(b">")
        .pieces(Escaping::Markup, content)
        .texts(b"</", tag_name(tag))
        .text(b">\n")
}

/// Begins a picture of this width and height.
pub fn begin_picture<'o, O: Sink>(out: &'o mut O, width: u64, height: u64) -> LinePen<'o, O>
    ensures { HasWritten (O.seen out.old) out.entry.ghost_name (beginning width height)
        (penned (O.seen result.out.now) result.line result.out.ghost_name) }
{
    let begun = then_attributes(
        LinePen::new(out).text(b"<svg"),
        &[
            (Name::Xmlns, Piece::Bytes(b"http://www.w3.org/2000/svg")),
            (Name::Width, Piece::Count(width)),
            (Name::Height, Piece::Count(height)),
        ],
    );
    then_attribute(
        begun,
        Name::ViewBox,
        &[
            Piece::Bytes(b"0 0 "),
            Piece::Count(width),
            Piece::Bytes(b" "),
            Piece::Count(height),
        ],
    )
    .text(b">\n")
}

/// Ends a picture, and writes what is left of it. It fails where a write failed, and then a part of the
/// picture is written. A picture is one element with elements inside.
pub fn end_picture<'o, O: Sink>(pen: LinePen<'o, O>) -> Result<(), Failed>
    ensures { Ends (penned (O.seen pen.entry.out.now) pen.entry.line pen.entry.out.ghost_name) (O.seen pen.exit.0.now) ending result }
{
    let LinePen { out, mut line } = pen;
    line.text(out, b"</svg>");
    line.end(out)
}
