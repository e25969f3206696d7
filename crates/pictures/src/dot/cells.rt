//! The edges of cells.

ghost use Rattle.std.specs.Prelude.{◌<◌, length};
ghost use Rattle.vcp_outside.specs.Pens.{Goes};
ghost use Rattle.op_graph.specs.Lists.{cells};
ghost use Rattle.pictures.specs.DotText.{cells_below};

use op_graph::Graph;
use vcp_outside::Pen;

/// Goes on with the edges of a graph's cells.
pub(crate) fn then_cells<P: Pen>(mut pen: P, graph: &Graph) -> P
    ensures { Goes (P.seen pen) (P.seen result) (cells_below graph.now (length (cells graph.now))) }
{
    'cells: for k in 0..graph.cells() {
        let cell = graph.cell(k);
        pen = pen
            .numbered(b"n", cell.store as u64)
            .numbered(b" -> n", cell.load as u64)
            .text(b" [ style=\"dashed\" constraint=\"false\" ];\n");
    }
    pen
}
