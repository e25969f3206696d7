//! The lines of nodes.

ghost use Rattle.std.specs.Prelude.{◌≡◌, ◌≤◌, ◌+◌, [], length, flat_map};
ghost use Rattle.vcp_outside.specs.Pens.{Goes};
ghost use Rattle.pictures.specs.Colours.{colours};
ghost use Rattle.pictures.specs.Drawn.{boxes_below};
ghost use Rattle.pictures.specs.DotText.{node_name, constant_name, label, node_line, node_end, box_text};

use crate::dot::labels::then_label;
use crate::dot::words::{fill, shape};
use crate::{Colour, colour_of, is_constant};
use op_graph::{Graph, Op};
use vcp_base::Kind;
use vcp_outside::Pen;
use weight_audit::Weights;

/// Goes on with the name of the node of the constant that operation `reader` reads as its operand `which`.
pub(crate) fn then_constant_name<P: Pen>(pen: P, reader: u32, which: u32) -> P
    ensures { Goes (P.seen pen) (P.seen result) (constant_name reader which) }
{
    pen.numbered(b"c", reader as u64)
        .numbered(b"_", which as u64)
}

/// Ends the line of a node behind its label, with its shape and its colour.
pub(crate) fn then_end<P: Pen>(pen: P, kind: Kind, colour: Colour) -> P
    ensures { Goes (P.seen pen) (P.seen result) (node_end kind colour) }
{
    pen.texts(b"\" shape=\"", shape(kind))
        .texts(b"\" fillcolor=\"", fill(colour))
        .text(b"\" ];\n")
}

/// Goes on with the line of the node of operation `n`.
fn then_operation<P: Pen>(pen: P, graph: &Graph, n: u32, colour: Colour, op: &Op) -> P
    ensures { Goes (P.seen pen) (P.seen result)
        (node_line (node_name n) (label graph.now n colour op.now) op.now.kind colour) }
{
    let pen = pen.numbered(b"n", n as u64).text(b" [ label=\"");
    let pen = then_label(pen, graph, n, colour, op);
    then_end(pen, op.kind, colour)
}

/// Goes on with the lines of a graph's operations.
pub(crate) fn then_nodes<P: Pen>(mut pen: P, graph: &Graph, weights: &Weights, distances: u32) -> P
    requires operations { weights.now.operations ≡ length graph.now.operations }
    requires outputs { length weights.now.outputs ≡ length graph.now.outputs }
    requires distances { distances ≤ weights.now.horizon + 1 }
    ensures { Goes (P.seen pen) (P.seen result)
        (flat_map (box_text graph.now) (boxes_below graph.now (colours graph.now weights.now distances) [] (length graph.now.operations))) }
{
    'operations: for n in 0..graph.len() {
        let op = graph.operation(n);
        if is_constant(op.kind) {
            continue;
        }
        let colour = colour_of(weights, n, graph.outputs(), distances);
        pen = then_operation(pen, graph, n, colour, &op);
    }
    pen
}
