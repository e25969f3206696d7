//! The lines of outputs and of variables that are kept.

ghost use Rattle.std.specs.Prelude.{[], cond, length};
ghost use Rattle.vcp_outside.specs.Pens.{Goes};
ghost use Rattle.op_graph.specs.Lists.{cells as cells_of};
ghost use Rattle.range_audit.specs.RangeText.{variable_text, outputs_text, cells_text, variables_text};

use crate::report::lines::then_there;
use op_graph::Graph;
use range_walk::Range;
use run_report::variable_name;
use vcp_base::{Kind, Ty, ty_name};
use vcp_outside::Pen;

/// Goes on with the line of a variable and the range of operation `n`, which gives its values.
fn then_variable<P: Pen>(pen: P, known: &[Range], name: &[u8], ty: Ty, n: u32) -> P
    ensures { Goes (P.seen pen) (P.seen result) (variable_text known.now name.now ty n) }
{
    let pen = pen.text(name).texts(b" ", ty_name(ty));
    then_there(pen, known, n).text(b"\n")
}

/// Goes on with the lines of the outputs.
fn then_outputs<P: Pen>(mut pen: P, graph: &Graph, known: &[Range]) -> P
    ensures { Goes (P.seen pen) (P.seen result) (outputs_text graph.now known.now (length graph.now.outputs)) }
{
    'lines: for i in 0..graph.outputs() {
        let output = graph.output(i);
        let name = variable_name(graph, Kind::Out, i as u64);
        pen = then_variable(pen, known, name, output.ty, output.op);
    }
    pen
}

/// Goes on with the lines of the cells.
fn then_cells<P: Pen>(mut pen: P, graph: &Graph, known: &[Range]) -> P
    ensures { Goes (P.seen pen) (P.seen result) (cells_text graph.now known.now (length (cells_of graph.now))) }
{
    'lines: for k in 0..graph.cells() {
        let cell = graph.cell(k);
        let name = variable_name(graph, Kind::Load, k as u64);
        pen = then_variable(pen, known, name, cell.ty, cell.load);
    }
    pen
}

/// Goes on with the lines of all outputs, and then of all variables that are kept, where all are wanted.
pub(crate) fn then_variables<P: Pen>(pen: P, graph: &Graph, known: &[Range], all: bool) -> P
    ensures { Goes (P.seen pen) (P.seen result) (cond all (variables_text graph.now known.now) []) }
{
    if !all {
        return pen;
    }
    let pen = then_outputs(pen, graph, known);
    then_cells(pen, graph, known)
}
