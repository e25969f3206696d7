//! How many operations may stop, and how many can by their kinds and types.

ghost use Rattle.std.specs.Prelude.{◌≡◌, Some, cond, length};
ghost use Rattle.range_audit.specs.Audit.{named_below};
ghost use Rattle.range_audit.specs.RangeText.{is_able as is_able_of, able_below};

use graph_passes::can_stop;
use op_graph::{Graph, Op};
use range_walk::Ranges;
use vcp_base::Kind;

/// One where it holds.
fn one_if(holds: bool) -> u32
    ensures { result ≡ cond holds 1 0 }
{
    if holds { 1 } else { 0 }
}

/// How many operations of a graph may stop.
pub fn count_named(graph: &Graph, ranges: &Ranges) -> u32
    requires { length ranges.now.stops ≡ length graph.now.operations }
    ensures { result ≡ named_below ranges.now.stops (length graph.now.operations) }
{
    let mut named = 0;
    'operations: for i in 0..graph.len() {
        named += one_if(ranges.stops_at(i as usize).are_any());
    }
    named
}

/// Whether an operation can stop by its kind and its types, whatever row there is.
fn is_able(op: &Op) -> bool
    ensures { result ≡ is_able_of (Some op.now) }
{
    match op.kind {
        Kind::Input => false,
        _ => can_stop(op.kind, op.from, op.ty),
    }
}

/// How many operations of a graph can.
pub(crate) fn count_able(graph: &Graph) -> u32
    ensures { result ≡ able_below graph.now (length graph.now.operations) }
{
    let mut able = 0;
    'operations: for i in 0..graph.len() {
        able += one_if(is_able(&graph.operation(i)));
    }
    able
}
