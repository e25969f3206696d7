//! An operation of a graph, and what is known of what it reads.

ghost use Rattle.std.specs.Prelude.{◌≡◌, ◌<◌, ◌≤◌, Some, length, slice_get};
ghost use Rattle.range_walk.specs.Walking.{OperandsAre, ReadsEarlier};

use op_graph::{Graph, Op, entries_keep_their_rules, operands_are_there};

/// Operation `i`. What it reads are earlier operations, or is a cell.
pub(crate) fn operation_at(graph: &Graph, i: u32) -> Op
    requires { i < length graph.now.operations }
    ensures is { slice_get graph.now.operations i ≡ Some result }
    ensures reads { OperandsAre (length graph.now.stores) i result }
    ensures earlier { ReadsEarlier i result }
    ensures first { result.a ≤ i }
    ensures second { result.b ≤ i }
    ensures third { result.c ≤ i }
{
    operands_are_there();
    entries_keep_their_rules();
    let _count = graph.len();
    graph.operation(i)
}
