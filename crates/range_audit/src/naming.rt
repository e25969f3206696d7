//! What is found of the operations over several boxes of cells, and by two searches.

ghost use Rattle.std.specs.Prelude.{◌≡◌, ◌≤ℤ◌, ℤ, length, IfOk};
ghost use Rattle.range_walk.specs.Intervals.{IsIn};
ghost use Rattle.range_audit.specs.Searching.{InBox, IsAllFound, IsFoundBy, IsMore, IsCloser, IsJoined};

use crate::asking::{Asking, closer_found};
use crate::boxes::{Boxes, Cycle, has_values};
use op_graph::Graph;
use range_walk::{Range, Ranges, Stops, both_hold, either_holds, walk};
use std::alloc::Global;
use vcp_base::Memory;

/// Why an operation may stop, that may for both these reasons, or for one of the two.
pub(crate) fn joined_stops(both: bool, a: Stops, b: Stops) -> Stops
    ensures { IsJoined both a b result }
{
    if both {
        let range = both_hold(a.range, b.range);
        let div_zero = both_hold(a.div_zero, b.div_zero);
        return Stops { range, div_zero };
    }
    let range = either_holds(a.range, b.range);
    let div_zero = either_holds(a.div_zero, b.div_zero);
    Stops { range, div_zero }
}

/// The second of two ranges where it lies between the ends of the first, and else the first.
fn closer_of(first: Range, second: Range) -> Range
    ensures holds { (v : ℤ) → IsIn first v → IsIn second v → IsIn result v }
    ensures low { first.low ≤ℤ result.low }
    ensures high { result.high ≤ℤ first.high }
{
    if second.low < first.low {
        return first;
    }
    if first.high < second.high {
        return first;
    }
    second
}

/// The range of a value that is in both ranges, or in one of the two.
fn range_by(both: bool, first: Range, second: Range) -> Range
    ensures { IsCloser both first second result }
{
    if both {
        return closer_of(first, second);
    }
    first.joined(second)
}

/// What is found of each operation that both say, or one of the two.
pub(crate) fn found_by(alloc: Global, both: bool, a: &Ranges, b: &Ranges) -> Result<Ranges, Memory>
    requires stops { length a.now.stops ≡ length a.now.known }
    requires others { length b.now.known ≡ length a.now.known }
    requires other_stops { length b.now.stops ≡ length a.now.known }
    ensures { IfOk result (λ r. IsFoundBy both a.now b.now r) }
{
    let count = a.known().len();
    let mut found = Ranges::new(Vec::new(alloc), Vec::new(alloc));
    'operations: for i in 0..count {
        let first = a.range_at(i);
        let second = b.range_at(i);
        let range = range_by(both, first, second);
        let before = a.stops_at(i);
        let other = b.stops_at(i);
        let why = joined_stops(both, before, other);
        found.push(range, why)?;
    }
    Ok(found)
}

/// No value and no reason to stop of each operation.
fn nothing_found(alloc: Global, graph: &Graph) -> Result<Ranges, Memory>
    ensures known { IfOk result (λ r. length r.known ≡ length graph.now.operations) }
    ensures stops { IfOk result (λ r. length r.stops ≡ length graph.now.operations) }
{
    let count = graph.len() as usize;
    let known = vec![in alloc; Range::none(); count]?;
    let stops = vec![in alloc; Stops::none(); count]?;
    Ok(Ranges::new(known, stops))
}

/// What is found already, and what is found of a cycle from cells in this box, on a row whose inputs are in these ranges. The
/// operations that are wanted are looked at closer.
fn with_box(
    alloc: Global,
    graph: &Graph,
    inputs: &[Range],
    cells: &[Range],
    found: Ranges,
    wanted: &[Stops],
    asking: &mut Asking,
) -> Result<Ranges, Memory>
    requires known { length found.known ≡ length graph.now.operations }
    requires stops { length found.stops ≡ length graph.now.operations }
    ensures { IfOk result (λ more. IsMore graph.now inputs.now cells.now found more) }
{
    if !has_values(graph, cells) {
        return Ok(found);
    }
    let cycle = Cycle {
        alloc,
        graph,
        cells,
    };
    let told = walk(alloc, graph, cycle.cells, inputs)?;
    let here = closer_found(&cycle, inputs, &told, wanted, found.stops(), asking)?;
    found_by(alloc, false, &found, &here)
}

/// What is found of a cycle from cells in one of these boxes, on a row whose inputs are in these ranges. The operations that are wanted are looked
/// at closer.
pub(crate) fn found_from(
    alloc: Global,
    graph: &Graph,
    inputs: &[Range],
    boxes: &Boxes,
    wanted: &[Stops],
    asking: &mut Asking,
) -> Result<Ranges, Memory>
    ensures { IfOk result (IsAllFound graph.now.operations inputs.now (InBox boxes.now.list.items (length graph.now.stores))) }
{
    let mut found = nothing_found(alloc, graph)?;
    'boxes: for k in 0..boxes.len() {
        let more = with_box(alloc, graph, inputs, boxes.at(k), found, wanted, asking)?;
        found = more;
    }
    Ok(found)
}
