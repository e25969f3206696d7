//! The edges from operands to their readers.

ghost use Rattle.std.specs.Prelude.{◌≡◌, ◌<◌, ◌≤◌, ◌+◌, [], length, flat_map};
ghost use Rattle.vcp_outside.specs.Pens.{Goes};
ghost use Rattle.op_graph.specs.Reads.{named};
ghost use Rattle.pictures.specs.Drawn.{wire_of, wires_below};
ghost use Rattle.pictures.specs.DotText.{edge_end, constant_text, wire_text};

use crate::dot::labels::then_constant_label;
use crate::dot::nodes::{then_constant_name, then_end};
use crate::names::is_constant_at;
use crate::{Colour, colour_of};
use op_graph::{Graph, Op, reads_operation};
use vcp_outside::Pen;
use weight_audit::Weights;

/// Goes on with an edge behind the node from which it comes.
fn then_edge_end<P: Pen>(pen: P, reader: u32, which: u32) -> P
    ensures { Goes (P.seen pen) (P.seen result) (edge_end reader which) }
{
    pen.numbered(b" -> n", reader as u64)
        .numbered(b" [ headlabel=\"", which as u64)
        .text(b"\" ];\n")
}

/// Goes on with a constant at its reader, and the edge from it.
fn then_constant_at<P: Pen>(
    pen: P,
    graph: &Graph,
    n: u32,
    colour: Colour,
    op: &Op,
    reader: u32,
    which: u32,
) -> P
    ensures { Goes (P.seen pen) (P.seen result)
        (constant_text graph.now n colour op.now reader which) }
{
    let pen = then_constant_name(pen, reader, which).text(b" [ label=\"");
    let pen = then_constant_label(pen, graph, n, colour, op);
    let pen = then_end(pen, op.kind, colour);
    let pen = then_constant_name(pen, reader, which);
    then_edge_end(pen, reader, which)
}

/// Goes on with the line to operand `j` of operation `n`, which is operation `k`, where it is one.
fn then_wire<P: Pen>(
    pen: P,
    graph: &Graph,
    weights: &Weights,
    distances: u32,
    n: u32,
    op: &Op,
    j: u32,
    k: u32,
) -> P
    requires operations { weights.now.operations ≡ length graph.now.operations }
    requires outputs { length weights.now.outputs ≡ length graph.now.outputs }
    requires distances { distances ≤ weights.now.horizon + 1 }
    requires names { named op.now j ≡ k }
    ensures { Goes (P.seen pen) (P.seen result)
        (flat_map (wire_text graph.now weights.now distances) (wire_of [] n op.now j)) }
{
    if !reads_operation(op.kind, j) {
        return pen;
    }
    if is_constant_at(graph, k) {
        let constant = graph.operation(k);
        let colour = colour_of(weights, k, graph.outputs(), distances);
        then_constant_at(pen, graph, k, colour, &constant, n, j)
    } else {
        let pen = pen.numbered(b"n", k as u64);
        then_edge_end(pen, n, j)
    }
}

/// Goes on with the lines to the operands of a graph's operations.
pub(crate) fn then_edges<P: Pen>(mut pen: P, graph: &Graph, weights: &Weights, distances: u32) -> P
    requires operations { weights.now.operations ≡ length graph.now.operations }
    requires outputs { length weights.now.outputs ≡ length graph.now.outputs }
    requires distances { distances ≤ weights.now.horizon + 1 }
    ensures { Goes (P.seen pen) (P.seen result)
        (flat_map (wire_text graph.now weights.now distances) (wires_below graph.now [] (length graph.now.operations))) }
{
    'operations: for n in 0..graph.len() {
        let op = graph.operation(n);
        pen = then_wire(pen, graph, weights, distances, n, &op, 0, op.a);
        pen = then_wire(pen, graph, weights, distances, n, &op, 1, op.b);
        pen = then_wire(pen, graph, weights, distances, n, &op, 2, op.c);
    }
    pen
}
