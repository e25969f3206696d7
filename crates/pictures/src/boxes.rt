//! The boxes of operations.

ghost use Rattle.std.specs.Prelude.{◌≡◌, length, map, flat_map};
ghost use Rattle.vcp_outside.specs.Pens.{Goes};
ghost use Rattle.vcp_outside.specs.Characters.{piece_bytes};
ghost use Rattle.vcp_outside.specs.Elements.{element_text};
ghost use Rattle.pictures.specs.Drawn.{box_of, boxes_below};
ghost use Rattle.pictures.specs.Elements.{worst_class as worst_class_of, class_of, outline, words, head};
ghost use Rattle.pictures.specs.Elements.{source, note, bar, cell_bar, body_elements, box_elements};

use crate::colours::Colour;
use crate::constants::then_constant_at;
use crate::layout::{BoxPlace, GraphLayout, left, top};
use crate::looks::{Look, Looks, Worst};
use crate::names::{is_constant, own_piece};
use op_graph::{Graph, Op};
use run_report::variable_name;
use vcp_base::{Kind, Spot, kind_name};
use vcp_outside::{Name, Pen, Piece, Tag, then_element};

/// The class of the worst that came of faults, which is its name too.
fn worst_class(worst: Worst) -> &'static [u8]
    ensures { result.now ≡ worst_class_of worst }
{
    match worst {
        Worst::Wrong => b"wrong",
        Worst::RanOn => b"ran-on",
        Worst::Same => b"same",
        Worst::Stopped => b"stopped",
        Worst::Refused => b"refused",
    }
}

/// The class of a look.
pub(crate) fn class(look: Look) -> &'static [u8]
    ensures { result.now ≡ class_of look }
{
    match look {
        Look::Shown(Colour::Unreached) => b"unreached",
        Look::Shown(Colour::Plain) => b"plain",
        Look::Shown(Colour::Blind { .. }) => b"blind",
        Look::Untried => b"plain",
        Look::Tried { worst, .. } => worst_class(worst),
    }
}

/// Draws the rectangle of operation `n`.
fn then_outline<P: Pen>(pen: P, n: u32, look: Look, place: BoxPlace) -> P
    ensures { Goes (P.seen pen) (P.seen result)
        (element_text (outline n look place)) }
{
    then_element(
        pen,
        Tag::Rect,
        &[
            (Name::Operation, Piece::Count(n as u64)),
            (Name::Class, Piece::Bytes(class(look))),
            (Name::X, Piece::Count(left(place))),
            (Name::Y, Piece::Count(top(place))),
            (Name::Width, Piece::Count(96)),
            (Name::Height, Piece::Count(50)),
        ],
        &[],
    )
}

/// Draws words inside a box, so far below its upper side.
fn then_words<P: Pen>(pen: P, place: BoxPlace, below: u32, pieces: &[Piece<'_>]) -> P
    ensures { Goes (P.seen pen) (P.seen result)
        (element_text (words place below (map piece_bytes pieces.now))) }
{
    then_element(
        pen,
        Tag::Text,
        &[
            (Name::X, Piece::Count(left(place) + 5)),
            (Name::Y, Piece::Count(top(place) + below as u64)),
        ],
        pieces,
    )
}

/// Draws the number and the kind of operation `n`.
fn then_head<P: Pen>(pen: P, n: u32, kind: Kind, place: BoxPlace) -> P
    ensures { Goes (P.seen pen) (P.seen result)
        (element_text (head n kind place)) }
{
    then_words(
        pen,
        place,
        12,
        &[
            Piece::Count(n as u64),
            Piece::Bytes(b" "),
            Piece::Bytes(kind_name(kind)),
        ],
    )
}

/// Draws the place of an operation in the source.
fn then_source<P: Pen>(pen: P, spot: Spot, place: BoxPlace) -> P
    ensures { Goes (P.seen pen) (P.seen result)
        (element_text (source spot place)) }
{
    then_words(
        pen,
        place,
        34,
        &[
            Piece::Bytes(b"at "),
            Piece::Count(spot.line as u64),
            Piece::Bytes(b":"),
            Piece::Count(spot.col as u64),
        ],
    )
}

/// Draws what is noted in the last line of a box, where anything is: for which output the operation is blind and after how many cycle
/// borders, or how many faults came to the worst, of how many.
fn then_note<P: Pen>(pen: P, graph: &Graph, look: Look, place: BoxPlace) -> P
    ensures { Goes (P.seen pen) (P.seen result)
        (flat_map element_text (note graph.now look place)) }
{
    match look {
        Look::Shown(Colour::Unreached | Colour::Plain) | Look::Untried => pen,
        Look::Shown(Colour::Blind { output, after }) => then_words(
            pen,
            place,
            45,
            &[
                Piece::Bytes(variable_name(graph, Kind::Out, output as u64)),
                Piece::Bytes(b" "),
                Piece::Count(after as u64),
            ],
        ),
        Look::Tried { worst, some, all } => then_words(
            pen,
            place,
            45,
            &[
                Piece::Bytes(worst_class(worst)),
                Piece::Bytes(b" "),
                Piece::Count(some as u64),
                Piece::Bytes(b"/"),
                Piece::Count(all),
            ],
        ),
    }
}

/// Draws a bar at a side of a box.
fn then_bar<P: Pen>(pen: P, x: u64, y: u64) -> P
    ensures { Goes (P.seen pen) (P.seen result)
        (element_text (bar x y)) }
{
    then_element(
        pen,
        Tag::Rect,
        &[
            (Name::Class, Piece::Bytes(b"cell")),
            (Name::X, Piece::Count(x)),
            (Name::Y, Piece::Count(y)),
            (Name::Width, Piece::Count(4)),
            (Name::Height, Piece::Count(50)),
        ],
        &[],
    )
}

/// Draws the bar of a cell, of its LOAD at the left side, and of its STORE at the right.
fn then_cell_bar<P: Pen>(pen: P, kind: Kind, place: BoxPlace) -> P
    ensures { Goes (P.seen pen) (P.seen result)
        (flat_map element_text (cell_bar kind place)) }
{
    match kind {
        Kind::Load => then_bar(pen, left(place), top(place)),
        Kind::Store => then_bar(pen, left(place) + 92, top(place)),
        _ => pen,
    }
}

/// Draws the box of operation `n`, which is no constant, with its look and the constants that it reads.
fn then_body<P: Pen, L: Looks>(
    pen: P,
    graph: &Graph,
    looks: &L,
    n: u32,
    look: Look,
    place: BoxPlace,
    op: &Op,
) -> P
    requires tells { L.IsFor looks.now graph.now }
    ensures { Goes (P.seen pen) (P.seen result)
        (flat_map element_text (body_elements graph.now (L.looks looks.now graph.now) (box_of graph.now n look place op.now))) }
{
    let pen = then_outline(pen, n, look, place);
    let pen = then_head(pen, n, op.kind, place);
    let pen = then_words(pen, place, 23, &[own_piece(graph, op.kind, op.imm)]);
    let pen = then_source(pen, op.spot, place);
    let pen = then_note(pen, graph, look, place);
    let pen = then_cell_bar(pen, op.kind, place);
    let pen = then_constant_at(pen, graph, looks, place, op, 0, op.a);
    let pen = then_constant_at(pen, graph, looks, place, op, 1, op.b);
    then_constant_at(pen, graph, looks, place, op, 2, op.c)
}

/// Draws the boxes of a graph's operations.
pub(crate) fn then_boxes<P: Pen, L: Looks>(
    mut pen: P,
    graph: &Graph,
    looks: &L,
    layout: &GraphLayout,
) -> P
    requires tells { L.IsFor looks.now graph.now }
    ensures { Goes (P.seen pen) (P.seen result)
        (flat_map element_text (flat_map (box_elements graph.now (L.looks looks.now graph.now))
        (boxes_below graph.now (L.looks looks.now graph.now) layout.now.places (length graph.now.operations)))) }
{
    'operations: for n in 0..graph.len() {
        let op = graph.operation(n);
        if is_constant(op.kind) {
            continue;
        }
        let look = looks.look(graph, n);
        let place = layout.place(n);
        pen = then_body(pen, graph, looks, n, look, place, &op);
    }
    pen
}
