//! Constants in the boxes of operations that read them.

ghost use Rattle.std.specs.Prelude.{◌≡◌, ◌<◌, flat_map};
ghost use Rattle.vcp_outside.specs.Pens.{Goes};
ghost use Rattle.op_graph.specs.Reads.{named};
ghost use Rattle.vcp_outside.specs.Characters.{piece_bytes};
ghost use Rattle.vcp_outside.specs.Elements.{element_text};
ghost use Rattle.pictures.specs.Elements.{patch, patch_value, constant_at};

use crate::boxes::class;
use crate::layout::{BoxPlace, left, top};
use crate::looks::{Look, Looks};
use crate::names::{is_constant_at, own_piece};
use op_graph::{Graph, Op, reads_operation};
use vcp_outside::{Name, Pen, Piece, Tag, then_element};

/// Draws the small rectangle of constant `k` in a box at this place, for operand `which`.
fn then_patch<P: Pen>(pen: P, place: BoxPlace, which: u32, k: u32, look: Look) -> P
    ensures { Goes (P.seen pen) (P.seen result) (element_text (patch place which k look)) }
{
    then_element(
        pen,
        Tag::Rect,
        &[
            (Name::Operand, Piece::Count(k as u64)),
            (Name::Place, Piece::Count(which as u64)),
            (Name::Class, Piece::Bytes(class(look))),
            (Name::X, Piece::Count(left(place) + 52)),
            (Name::Y, Piece::Count(top(place) + 2 + which as u64 * 11)),
            (Name::Width, Piece::Count(42)),
            (Name::Height, Piece::Count(11)),
        ],
        &[],
    )
}

/// Draws the value in it.
fn then_value<P: Pen>(pen: P, place: BoxPlace, which: u32, value: Piece<'_>) -> P
    ensures { Goes (P.seen pen) (P.seen result)
        (element_text (patch_value place which (piece_bytes value.entry))) }
{
    then_element(
        pen,
        Tag::Text,
        &[
            (Name::X, Piece::Count(left(place) + 54)),
            (Name::Y, Piece::Count(top(place) + 11 + which as u64 * 11)),
        ],
        &[value],
    )
}

/// Draws operand `which` of an operation, which is operation `k`, where that is a constant.
pub(crate) fn then_constant_at<P: Pen, L: Looks>(
    pen: P,
    graph: &Graph,
    looks: &L,
    place: BoxPlace,
    op: &Op,
    which: u32,
    k: u32,
) -> P
    requires names { named op.now which ≡ k }
    requires tells { L.IsFor looks.now graph.now }
    ensures { Goes (P.seen pen) (P.seen result)
        (flat_map element_text (constant_at graph.now (L.looks looks.now graph.now) place op.now which)) }
{
    if !reads_operation(op.kind, which) {
        return pen;
    }
    if is_constant_at(graph, k) {
        let constant = graph.operation(k);
        let value = own_piece(graph, constant.kind, constant.imm);
        let pen = then_patch(pen, place, which, k, looks.look(graph, k));
        then_value(pen, place, which, value)
    } else {
        pen
    }
}
