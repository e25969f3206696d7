//! The legend of a picture, and its style.

ghost use Rattle.std.specs.Prelude.{flat_map};
ghost use Rattle.vcp_outside.specs.Pens.{Goes};
ghost use Rattle.vcp_outside.specs.Elements.{element_text};
ghost use Rattle.pictures.specs.Elements.{swatch, caption, sample_of, legend_of};

use vcp_outside::{Name, Pen, Piece, Tag, then_element};

/// A sample of a legend: a small rectangle of a class, and beside it what it says.
#[derive(Clone, Copy)]
pub struct Sample<'a> {
    /// The distance of the rectangle from the left.
    pub x: u32,
    /// The class.
    pub class: &'a [u8],
    /// What it says.
    pub told: &'a [u8],
    /// How often it comes, where that is counted.
    pub many: Option<u32>,
}

/// Draws a small rectangle of a class.
fn then_swatch<P: Pen>(pen: P, x: u32, class: &[u8]) -> P
    ensures { Goes (P.seen pen) (P.seen result) (element_text (swatch x class.now)) }
{
    then_element(
        pen,
        Tag::Rect,
        &[
            (Name::X, Piece::Count(x as u64)),
            (Name::Y, Piece::Count(8)),
            (Name::Width, Piece::Count(14)),
            (Name::Height, Piece::Count(14)),
            (Name::Class, Piece::Bytes(class)),
        ],
        &[],
    )
}

/// Writes what a class says, beside its rectangle, and how often it comes where that is counted.
fn then_caption<P: Pen>(pen: P, x: u32, told: &[u8], many: Option<u32>) -> P
    ensures { Goes (P.seen pen) (P.seen result) (element_text (caption x told.now many)) }
{
    let place = [
        (Name::X, Piece::Count(x as u64 + 20)),
        (Name::Y, Piece::Count(20)),
    ];
    match many {
        None => then_element(pen, Tag::Text, &place, &[Piece::Bytes(told)]),
        Some(n) => then_element(
            pen,
            Tag::Text,
            &place,
            &[
                Piece::Bytes(told),
                Piece::Bytes(b" "),
                Piece::Count(n as u64),
            ],
        ),
    }
}

/// Draws a sample.
fn then_sample<P: Pen>(pen: P, shown: &Sample<'_>) -> P
    ensures { Goes (P.seen pen) (P.seen result) (flat_map element_text (sample_of shown.now)) }
{
    let pen = then_swatch(pen, shown.x, shown.class);
    then_caption(pen, shown.x, shown.told, shown.many)
}

/// Draws the style and the legend: what the colours say.
pub(crate) fn then_legend<P: Pen>(pen: P, rules: &[u8], samples: &[Sample<'_>]) -> P
    ensures { Goes (P.seen pen) (P.seen result) (flat_map element_text (legend_of rules.now samples.now)) }
{
    let mut pen = then_element(pen, Tag::Style, &[], &[Piece::Bytes(rules)]);
    'samples: for i in 0..samples.len() {
        pen = then_sample(pen, &samples[i]);
    }
    pen
}
