//! What is found of an operation, as far as its kind and types allow it.

ghost use Rattle.std.specs.Prelude.{◌≡◌, ◌<◌, ℤ, true, List, Some, length, slice_get};
ghost use Rattle.vcp_base.specs.declared.kind.StopKind.{StopKind};
ghost use Rattle.op_graph.specs.declared.op.Op.{Op as Operation};
ghost use Rattle.range_walk.specs.Intervals.{LiesIn};
ghost use Rattle.range_walk.specs.Known.{may_stop, can_stop_so, can_leave as can_leave_of, divides as divides_of};
ghost use Rattle.range_walk.specs.Walking.{Tells};

use crate::range::{Stops, both_hold};
use crate::told::Told;
use graph_passes::can_stop;
use op_graph::{Graph, Op, entries_keep_their_rules, operands_are_in_their_types};
use vcp_base::Kind;

/// Whether the kind divides.
fn divides(kind: Kind) -> bool
    ensures { result ≡ divides_of kind }
{
    match kind {
        Kind::Div | Kind::Mod => true,
        _ => false,
    }
}

/// Whether an operation's value can be outside its type, by its kind and types, where its operands are in theirs.
fn can_leave(op: &Op) -> bool
    ensures { result ≡ can_leave_of op.now.kind op.now.from op.now.ty }
{
    match op.kind {
        Kind::Input | Kind::Mod => false,
        _ => can_stop(op.kind, op.from, op.ty),
    }
}

/// What is found of operation `i`, without values outside its type, and without reasons to stop that its kind and types rule out.
pub(crate) fn told_by_type(graph: &Graph, i: u32, told: Told) -> Told
    requires { i < length graph.now.operations }
    ensures tells { (held row vs : List ℤ) (op : Operation) → slice_get graph.now.operations i ≡ Some op → Tells held row vs op told
        → Tells held row vs op result }
    ensures able { (op : Operation) (why : StopKind) → slice_get graph.now.operations i ≡ Some op → may_stop why result.stops ≡ true
        → can_stop_so why op ≡ true }
    ensures types { (op : Operation) → slice_get graph.now.operations i ≡ Some op → LiesIn op.ty result.range }
{
    // A value of a type is one of each wider type, and the types of an operation keep the rules of its kind.
    operands_are_in_their_types();
    entries_keep_their_rules();
    let _count = graph.len();
    let op = graph.operation(i);
    let range = told.range.in_type(op.ty);
    let leaves = can_leave(&op);
    let by_range = both_hold(told.stops.range, leaves);
    let is_division = divides(op.kind);
    let by_zero = both_hold(told.stops.div_zero, is_division);
    Told {
        range,
        stops: Stops {
            range: by_range,
            div_zero: by_zero,
        },
    }
}
