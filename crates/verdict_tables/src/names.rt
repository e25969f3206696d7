//! How an operation is named.

ghost use Rattle.std.specs.Prelude.{slice_get};
ghost use Rattle.vcp_outside.specs.Pens.{Goes};
ghost use Rattle.verdict_tables.specs.Places.{variable_text, operation_text};

use op_graph::Graph;
use run_report::{then_source, variable_name};
use vcp_base::{Kind, kind_name};
use vcp_outside::Pen;

/// Goes on with the variable of an operation, where it has one.
fn then_variable<P: Pen>(pen: P, graph: &Graph, kind: Kind, n: u64) -> P
    ensures { Goes (P.seen pen) (P.seen result) (variable_text graph.now kind n) }
{
    match kind {
        Kind::Input | Kind::Load | Kind::Store | Kind::Out => {
            pen.texts(b" ", variable_name(graph, kind, n))
        }
        _ => pen,
    }
}

/// Goes on with operation `n`, where it is there: its number, kind, variable and place.
pub fn then_operation<P: Pen>(pen: P, graph: &Graph, n: u32) -> P
    ensures { Goes (P.seen pen) (P.seen result)
        (operation_text graph.now n (slice_get graph.now.operations n)) }
{
    if n < graph.len() {
        let op = graph.operation(n);
        let pen = pen
            .numbered(b"operation ", n as u64)
            .texts(b" ", kind_name(op.kind));
        let pen = then_variable(pen, graph, op.kind, op.imm.unsigned_abs());
        then_source(pen, graph, n)
    } else {
        pen
    }
}
