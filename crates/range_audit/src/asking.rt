//! Why one operation may stop, by what the operations before it gave in the same cycle, and which values a BOOL output has: by cases of conditions.

ghost use Rattle.std.specs.Prelude.{◌≡◌, ◌<◌, length, IfOk};
ghost use Rattle.range_walk.specs.Intervals.{Hold};
ghost use Rattle.range_audit.specs.Searching.{IsAllFound, IsAlwaysIn, StopsFrom, StopsIn};
ghost use Rattle.range_walk.specs.Walking.{IsWalk};

use crate::boxes::{Cycle, has_none};
use crate::cases::{CONDITIONS, cases_of, narrowed, range_by_cases};
use crate::effort::Effort;
use crate::naming::joined_stops;
use op_graph::Graph;
use range_walk::{Range, Ranges, Stops, earlier_range, first_ranges, tell};
use vcp_base::{Kind, Memory, Ty};

/// How many operations may still be gone through where single ones are asked.
#[derive(Drop)]
pub(crate) struct Asking {
    /// Where it is asked why they may stop.
    pub(crate) stops: Effort,
    /// Where it is asked which values BOOL outputs have.
    pub(crate) answers: Effort,
}

/// Why operation `i` may stop, where the operations before it have values in these ranges, by the cases of conditions, so many at once.
fn stops_by_cases(
    cycle: &Cycle<'_>,
    ranges: &[Range],
    i: u32,
    depth: u32,
    effort: &mut Effort,
) -> Stops
    requires there { i < length cycle.now.graph.now.operations }
    requires many { length ranges.now ≡ i }
    ensures { StopsIn cycle.now.graph.now.operations cycle.now.cells.now ranges.now i result }
{
    if has_none(ranges) {
        return Stops::none();
    }
    let told = tell(cycle.graph, cycle.cells, ranges, i);
    let any = told.stops.are_any();
    let Some(two) = cases_of(cycle, ranges, i, depth, !any, effort) else {
        return told.stops;
    };
    let first = stops_by_cases(cycle, &two.low, i, depth - 1, effort);
    let second = stops_by_cases(cycle, &two.high, i, depth - 1, effort);
    joined_stops(false, first, second)
}

/// Whether operation `i` is looked at closer: it may stop, is wanted and isn't done with.
fn is_asked(stops: &[Stops], wanted: &[Stops], done: &[Stops], i: usize) -> bool {
    is_any_at(stops, i) && is_any_at(wanted, i) && !is_any_at(done, i)
}

/// Whether the operation at place `i` may stop.
fn is_any_at(stops: &[Stops], i: usize) -> bool {
    match stops.get(i) {
        Some(stop) => stop.are_any(),
        None => false,
    }
}

/// Why operation `i` may stop in a cycle from cells in these ranges, on a row whose inputs are in these, of which `told` tells: closer where
/// it may, is wanted and isn't done with.
fn stops_of(
    cycle: &Cycle<'_>,
    inputs: &[Range],
    told: &Ranges,
    i: u32,
    wanted: &[Stops],
    done: &[Stops],
    effort: &mut Effort,
) -> Stops
    requires there { i < length cycle.now.graph.now.operations }
    requires walk { IsWalk cycle.now.graph.now.operations cycle.now.cells.now inputs.now told.now }
    ensures { StopsFrom cycle.now.graph.now.operations inputs.now (Hold cycle.now.cells.now) i result }
{
    let plain = told.stops_at(i as usize);
    if !is_asked(told.stops(), wanted, done, i as usize) || !effort.spend(cycle.graph) {
        return plain;
    }
    let first = first_ranges(told.known(), i);
    let Some(ranges) = narrowed(cycle, first, effort) else {
        return plain;
    };
    stops_by_cases(cycle, &ranges, i, CONDITIONS, effort)
}

/// How many conditions are taken apart at once, where it is asked which values an output has.
const CASES: u32 = 8;

/// Whether operation `i` is the OUT of a BOOL that may be 0 and 1.
fn is_open_output(graph: &Graph, range: Range, i: u32) -> bool
    requires { i < length graph.now.operations }
{
    let op = graph.operation(i);
    op.kind == Kind::Out && matches!(op.ty, Ty::Bool) && range.low < range.high
}

/// The range of operation `i` in a cycle from cells in these ranges, where the operations are in those: by the cases of conditions where it is
/// the OUT of a BOOL that may be 0 and 1.
fn output_range(cycle: &Cycle<'_>, known: &[Range], i: u32, effort: &mut Effort) -> Range
    requires there { i < length cycle.now.graph.now.operations }
    requires many { length known.now ≡ length cycle.now.graph.now.operations }
    ensures { IsAlwaysIn cycle.now.graph.now.operations cycle.now.cells.now known.now i result }
{
    let _most = cycle.graph.len();
    let before = earlier_range(known, i);
    if effort.left == 0 || !is_open_output(cycle.graph, before, i) {
        return before;
    }
    let first = first_ranges(known, i + 1);
    let Some(ranges) = narrowed(cycle, first, effort) else {
        return before;
    };
    range_by_cases(cycle, &ranges, i, Range::only(0), CASES, effort)
}

/// What is found of each operation in a cycle from cells in these ranges, on a row whose inputs are in these, of which `told` tells: why it
/// may stop, closer for those that may, that are wanted and not done with, and which values BOOL outputs have.
pub(crate) fn closer_found(
    cycle: &Cycle<'_>,
    inputs: &[Range],
    told: &Ranges,
    wanted: &[Stops],
    done: &[Stops],
    asking: &mut Asking,
) -> Result<Ranges, Memory>
    requires walk { IsWalk cycle.now.graph.now.operations cycle.now.cells.now inputs.now told.now }
    ensures { IfOk result (IsAllFound cycle.now.graph.now.operations inputs.now (Hold cycle.now.cells.now)) }
{
    let count = cycle.graph.len();
    let mut found = Ranges::new(Vec::new(cycle.alloc), Vec::new(cycle.alloc));
    'operations: for i in 0..count {
        let range = output_range(cycle, told.known(), i, &mut asking.answers);
        let why = stops_of(cycle, inputs, told, i, wanted, done, &mut asking.stops);
        found.push(range, why)?;
    }
    Ok(found)
}
