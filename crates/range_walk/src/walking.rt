//! A walk over the operations of a cycle, in their order.

ghost use Rattle.std.specs.Prelude.{◌≡◌, ◌<◌, Some, true, length, slice_get, IfOk};
ghost use Rattle.vcp_base.specs.declared.kind.StopKind.{StopKind};
ghost use Rattle.op_graph.specs.declared.op.Op.{Op as Operation};
ghost use Rattle.range_walk.specs.Intervals.{LiesIn};
ghost use Rattle.range_walk.specs.Known.{may_stop, can_stop_so};
ghost use Rattle.range_walk.specs.Walking.{IsWalk, TellsAt};

use crate::inputs::told_by_input;
use crate::range::Range;
use crate::ranges::Ranges;
use crate::told::{Told, tell};
use crate::typed::told_by_type;
use op_graph::Graph;
use std::alloc::Global;
use vcp_base::Memory;

/// What is found of operation `i`, where the cells, the inputs of the row and the operations before it are in these ranges.
fn told_at(graph: &Graph, cells: &[Range], inputs: &[Range], known: &[Range], i: u32) -> Told
    requires there { i < length graph.now.operations }
    requires many { length known.now ≡ i }
    requires cells { length cells.now ≡ length graph.now.stores }
    ensures tells { TellsAt graph.now.operations cells.now inputs.now known.now i result }
    ensures able { (op : Operation) (why : StopKind) → slice_get graph.now.operations i ≡ Some op → may_stop why result.stops ≡ true
        → can_stop_so why op ≡ true }
    ensures types { (op : Operation) → slice_get graph.now.operations i ≡ Some op → LiesIn op.ty result.range }
{
    let first = tell(graph, cells, known, i);
    let within = told_by_input(graph, inputs, i, first);
    told_by_type(graph, i, within)
}

/// What is found of the operations of a cycle at whose beginning the cells are in these ranges, on a row whose inputs are in these. Of an input
/// behind the last range nothing is assumed.
pub fn walk(
    alloc: Global,
    graph: &Graph,
    cells: &[Range],
    inputs: &[Range],
) -> Result<Ranges, Memory>
    requires { length cells.now ≡ length graph.now.stores }
    ensures { IfOk result (λ a. IsWalk graph.now.operations cells.now inputs.now a) }
{
    let known = Vec::new(alloc);
    let stops = Vec::new(alloc);
    let mut ranges = Ranges::new(known, stops);
    'operations: for i in 0..graph.len() {
        let told = told_at(graph, cells, inputs, ranges.known(), i);
        ranges.push(told.range, told.stops)?;
    }
    Ok(ranges)
}
