//! The lines from operands to their readers.

ghost use Rattle.std.specs.Prelude.{◌≡◌, ◌<◌, length, flat_map};
ghost use Rattle.vcp_outside.specs.Pens.{Goes};
ghost use Rattle.op_graph.specs.Reads.{named};
ghost use Rattle.vcp_outside.specs.Elements.{element_text};
ghost use Rattle.pictures.specs.Drawn.{wire_of, wires_below};
ghost use Rattle.pictures.specs.Elements.{wire_element, wire_elements};

use crate::layout::{BoxPlace, GraphLayout, left, top};
use crate::names::is_constant_at;
use op_graph::{Graph, Op, reads_operation};
use vcp_outside::{Name, Pen, Piece, Tag, then_element};

/// Draws the line from operation `operand` to operation `reader`, which reads it as its operand
/// `which`.
fn then_line<P: Pen>(
    pen: P,
    operand: u32,
    reader: u32,
    which: u32,
    from: BoxPlace,
    to: BoxPlace,
) -> P
    ensures { Goes (P.seen pen) (P.seen result)
        (element_text (wire_element (record { operand = operand; reader = reader; which = which; from = from; to = to }))) }
{
    then_element(
        pen,
        Tag::Line,
        &[
            (Name::Operand, Piece::Count(operand as u64)),
            (Name::Reader, Piece::Count(reader as u64)),
            (Name::Place, Piece::Count(which as u64)),
            (Name::X1, Piece::Count(left(from) + 96)),
            (Name::Y1, Piece::Count(top(from) + 25)),
            (Name::X2, Piece::Count(left(to))),
            (Name::Y2, Piece::Count(top(to) + 10 + which as u64 * 15)),
        ],
        &[],
    )
}

/// Draws the line to operand `j` of operation `n`, which is operation `k`, where it is one and no constant.
fn then_wire<P: Pen>(
    pen: P,
    graph: &Graph,
    layout: &GraphLayout,
    n: u32,
    op: &Op,
    j: u32,
    k: u32,
) -> P
    requires { named op.now j ≡ k }
    ensures { Goes (P.seen pen) (P.seen result)
        (flat_map element_text (flat_map (wire_elements graph.now) (wire_of layout.now.places n op.now j))) }
{
    if !reads_operation(op.kind, j) {
        return pen;
    }
    if !is_constant_at(graph, k) {
        then_line(pen, k, n, j, layout.place(k), layout.place(n))
    } else {
        pen
    }
}

/// Draws the lines to the operands of a graph's operations.
pub(crate) fn then_wires<P: Pen>(mut pen: P, graph: &Graph, layout: &GraphLayout) -> P
    ensures { Goes (P.seen pen) (P.seen result)
        (flat_map element_text (flat_map (wire_elements graph.now) (wires_below graph.now layout.now.places (length graph.now.operations)))) }
{
    'operations: for n in 0..graph.len() {
        let op = graph.operation(n);
        pen = then_wire(pen, graph, layout, n, &op, 0, op.a);
        pen = then_wire(pen, graph, layout, n, &op, 1, op.b);
        pen = then_wire(pen, graph, layout, n, &op, 2, op.c);
    }
    pen
}
