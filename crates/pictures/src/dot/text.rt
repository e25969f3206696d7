//! The text of a graph.

ghost use Rattle.std.specs.Prelude.{◌≤◌, ◌+◌};
ghost use Rattle.vcp_outside.specs.Written.{WritesTo};
ghost use Rattle.vcp_base.specs.Limits.{most_horizon};
ghost use Rattle.weight_audit.specs.Audit.{IsAudit};
ghost use Rattle.pictures.specs.Colours.{colours};
ghost use Rattle.pictures.specs.DotText.{dot_text};

use crate::dot::cells::then_cells;
use crate::dot::edges::then_edges;
use crate::dot::nodes::then_nodes;
use op_graph::Graph;
use vcp_outside::{Failed, LinePen, Pen, Sink};
use weight_audit::Weights;

/// How all is drawn, and what the colours mean.
const BEGINNING: &[u8] = b"digraph {\n\
    graph [ rankdir=\"LR\" nodesep=\"0.15\" ranksep=\"0.3\" fontname=\"monospace\" fontsize=\"9\" ];\n\
    graph [ label=\"red: blind for the output that it names, so many cycles later; grey: reaches no output\" ];\n\
    node [ fontname=\"monospace\" fontsize=\"9\" style=\"filled\" margin=\"0.06\" width=\"0\" height=\"0\" ];\n\
    edge [ fontname=\"monospace\" fontsize=\"8\" arrowsize=\"0.5\" labeldistance=\"1.4\" ];\n";

/// Writes a graph, whose weights up to the horizon, of at most 1000 cycle borders, these are, as a text for Graphviz. It takes no memory. After
/// `Failed` a part of the text is written.
///
/// There is a node for each operation but a constant, in order, with its number, kind, name, place in the
/// source and colour; an edge from each operand to its reader, with which operand it is, before which a
/// constant has a node of its own; and a dashed edge from the STORE of each cell to its LOAD.
pub fn write_dot<O: Sink>(
    out: &mut O,
    graph: &Graph,
    weights: &Weights,
    horizon: u32,
) -> Result<(), Failed>
    requires horizon { horizon ≤ most_horizon }
    requires audit { IsAudit graph.now horizon weights.now }
    ensures { WritesTo (O.seen out.old) (O.seen out.new) (dot_text graph.now weights.now horizon) result }
{
    let pen = LinePen::new(out).text(BEGINNING);
    let pen = then_nodes(pen, graph, weights, horizon + 1);
    let pen = then_edges(pen, graph, weights, horizon + 1);
    then_cells(pen, graph).text(b"}").end()
}
