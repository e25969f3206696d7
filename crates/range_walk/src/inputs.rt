//! What is found of an operation, where its input's range is assumed.

ghost use Rattle.std.specs.Prelude.{◌≡◌, ◌<◌, ℤ, List, Some, length, slice_get};
ghost use Rattle.vcp_base.specs.Values.{at};
ghost use Rattle.op_graph.specs.declared.op.Op.{Op as Operation};
ghost use Rattle.range_walk.specs.Intervals.{IsIn, RowIn};
ghost use Rattle.range_walk.specs.Walking.{Tells};

use crate::range::{Range, range_at};
use crate::told::{Told, own_place};
use op_graph::Graph;
use vcp_base::Kind;

/// The values of a range that are in the range of the input at `place` too, where one is assumed.
fn within_input(inputs: &[Range], place: usize, range: Range) -> Range
    ensures { (row : List ℤ) → RowIn inputs.now row → IsIn range (at row place) → IsIn result (at row place) }
{
    if place >= inputs.len() {
        return range;
    }
    let input = range_at(inputs, place);
    range.shared(input)
}

/// What is found of operation `i`, on a row whose inputs are in these ranges.
pub(crate) fn told_by_input(graph: &Graph, inputs: &[Range], i: u32, told: Told) -> Told
    requires { i < length graph.now.operations }
    ensures { (held row vs : List ℤ) (op : Operation) → slice_get graph.now.operations i ≡ Some op → RowIn inputs.now row
        → Tells held row vs op told → Tells held row vs op result }
{
    let op = graph.operation(i);
    match op.kind {
        Kind::Input => {
            let place = own_place(&op);
            let range = within_input(inputs, place, told.range);
            Told {
                range,
                stops: told.stops,
            }
        }
        _ => told,
    }
}
