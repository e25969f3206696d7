//! Where whole cycles end, by cases of the values of one operation.

ghost use Rattle.std.specs.Prelude.{◌≡◌, ◌<◌, ◌≤◌, ℤ, true, List, length, IfOk, IfSome};
ghost use Rattle.op_graph.specs.GraphRun.{stored};
ghost use Rattle.range_walk.specs.Intervals.{Fit};
ghost use Rattle.range_audit.specs.Searching.{AreHalves, IsValueIn, NarrowsTo, InBox, EndsIn};
ghost use Rattle.range_walk.specs.Walking.{Narrows};

use crate::boxes::{Boxes, Cycle, cell_count, has_none, is_in_one, stored_cells};
use crate::cells::store_at;
use crate::effort::Effort;
use crate::questions::{box_of, open_condition, wanted_at};
use range_walk::{Range, both_hold, count_of, earlier_range, narrow, put};
use std::alloc::Global;
use vcp_base::Memory;

/// The same ranges.
fn copied(alloc: Global, ranges: &[Range]) -> Result<Vec<Range>, Memory>
    ensures { IfOk result (λ copy. copy.items ≡ ranges.now) }
{
    let mut copy = Vec::new(alloc);
    copy.extend_from_slice(ranges)?;
    Ok(copy)
}

/// These ranges of the operations of a cycle, of all or of the first ones, made narrower by one another; None where memory is lacking.
pub(crate) fn narrowed(
    cycle: &Cycle<'_>,
    ranges: &[Range],
    effort: &mut Effort,
) -> Option<Vec<Range>>
    requires { length ranges.now ≤ length cycle.now.graph.now.operations }
    ensures many { IfSome result (λ narrow. length narrow.items ≡ length ranges.now) }
    ensures fits { IfSome result (λ narrow. Narrows cycle.now.graph.now.operations cycle.now.cells.now ranges.now narrow.items) }
{
    let Ok(mut copy) = copied(cycle.alloc, ranges) else {
        effort.lack();
        return None;
    };
    narrow(cycle.graph, cycle.cells, &mut copy);
    Some(copy)
}

/// Makes the ranges of the operations of a cycle, of all or of the first ones, narrower where the value of operation `n` is in `r`.
fn narrow_to(cycle: &Cycle<'_>, ranges: &mut [Range], n: u32, r: Range)
    requires there { n < length ranges.old }
    requires many { length ranges.old ≤ length cycle.now.graph.now.operations }
    ensures many { length ranges.new ≡ length ranges.old }
    ensures fits { NarrowsTo cycle.now.graph.now.operations cycle.now.cells.now n r ranges.old ranges.new }
{
    put(ranges, n, r);
    narrow(cycle.graph, cycle.cells, ranges);
}

/// The ranges of the operations of a cycle, of all or of the first ones, in the two cases of the value of one.
pub(crate) struct Halves {
    /// Where it is no more than a number.
    pub(crate) low: Vec<Range>,
    /// Where it is more.
    pub(crate) high: Vec<Range>,
}

impl Drop for Halves {
    fn drop(self) {
        let Halves { low: _, high: _ } = self;
    }
}

/// The ranges of the operations of a cycle in the two cases of the value of operation `q`: no more than `m`, and more; None where memory is
/// lacking.
fn halved(
    cycle: &Cycle<'_>,
    ranges: &[Range],
    q: u32,
    m: i64,
    effort: &mut Effort,
) -> Option<Halves>
    requires there { q < length ranges.now }
    requires many { length ranges.now ≤ length cycle.now.graph.now.operations }
    ensures { IfSome result (λ h. AreHalves cycle.now.graph.now.operations cycle.now.cells.now ranges.now h.low.items h.high.items) }
{
    let r = earlier_range(ranges, q);
    if let Ok(mut low) = copied(cycle.alloc, ranges)
        && let Ok(mut high) = copied(cycle.alloc, ranges)
    {
        narrow_to(cycle, &mut low, q, r.up_to(m));
        narrow_to(cycle, &mut high, q, r.above(m));
        return Some(Halves { low, high });
    }
    effort.lack();
    None
}

/// How many conditions are taken apart at once.
pub(crate) const CONDITIONS: u32 = 4;

/// The two cases of an open condition on which the value of operation `j` depends; None where it is done, where none is open, where no more
/// are gone through, or where memory is lacking.
pub(crate) fn cases_of(
    cycle: &Cycle<'_>,
    ranges: &[Range],
    j: u32,
    depth: u32,
    done: bool,
    effort: &mut Effort,
) -> Option<Halves>
    requires { length ranges.now ≤ length cycle.now.graph.now.operations }
    ensures depth { IfSome result (λ h. 0 < depth) }
    ensures halves { IfSome result (λ h. AreHalves cycle.now.graph.now.operations cycle.now.cells.now ranges.now h.low.items h.high.items) }
{
    if done || depth == 0 {
        return None;
    }
    let q = open_condition(cycle.graph, ranges, j);
    if q >= count_of(cycle.graph, ranges) || !effort.spend(cycle.graph) {
        return None;
    }
    halved(cycle, ranges, q, 0, effort)
}

/// The range of operation `j` in cycles with values in these ranges, by the cases of conditions, so many at once, until it is inside
/// the wanted one.
pub(crate) fn range_by_cases(
    cycle: &Cycle<'_>,
    ranges: &[Range],
    j: u32,
    wanted: Range,
    depth: u32,
    effort: &mut Effort,
) -> Range
    requires there { j < length ranges.now }
    requires many { length ranges.now ≤ length cycle.now.graph.now.operations }
    ensures { IsValueIn cycle.now.graph.now.operations cycle.now.cells.now ranges.now j result }
{
    if has_none(ranges) {
        return Range::none();
    }
    let known = earlier_range(ranges, j);
    let is = known.is_inside(wanted);
    let Some(two) = cases_of(cycle, ranges, j, depth, is, effort) else {
        return known;
    };
    let first = range_by_cases(cycle, &two.low, j, wanted, depth - 1, effort);
    let second = range_by_cases(cycle, &two.high, j, wanted, depth - 1, effort);
    first.joined(second)
}

/// Makes the range of each number that is stored narrower by cases of conditions, until it is inside its range of a box.
fn narrow_stores(cycle: &Cycle<'_>, ranges: &mut [Range], cells: &[Range], effort: &mut Effort)
    requires many { length ranges.old ≡ length cycle.now.graph.now.operations }
    ensures many { length ranges.new ≡ length ranges.old }
    ensures fits { Narrows cycle.now.graph.now.operations cycle.now.cells.now ranges.old ranges.new }
{
    let count = cell_count(cycle.graph);
    'cells: for k in 0..count {
        let store = store_at(cycle.graph, k);
        let wanted = wanted_at(cycle.graph, cells, k);
        let r = range_by_cases(cycle, ranges, store, wanted, CONDITIONS, effort);
        put(ranges, store, r);
    }
}

/// Whether each whole cycle with values in these ranges ends in one of the boxes. Where that isn't seen, the ranges in which it ends are
/// appended to `missed`.
pub(crate) fn ends(
    cycle: &Cycle<'_>,
    ranges: &[Range],
    boxes: &Boxes,
    effort: &mut Effort,
    missed: &mut Boxes,
) -> bool
    requires many { length ranges.now ≡ length cycle.now.graph.now.operations }
    ensures { result ≡ true → (vs : List ℤ) → length vs ≡ length cycle.now.graph.now.operations → Fit ranges.now vs
        → InBox boxes.now.list.items (length cycle.now.graph.now.stores) (stored cycle.now.graph.now vs) }
{
    if has_none(ranges) {
        return true;
    }
    let Ok(cells) = stored_cells(cycle.alloc, cycle.graph, ranges) else {
        effort.lack();
        return false;
    };
    if is_in_one(&cells, boxes) {
        return true;
    }
    missed.push(cells, effort);
    false
}

/// The same, where the ranges of the numbers that are stored are first made narrower by cases of conditions. Operation `n` stores the cell
/// whose values the boxes tell apart.
fn ends_closely(
    cycle: &Cycle<'_>,
    ranges: &mut [Range],
    boxes: &Boxes,
    n: u32,
    effort: &mut Effort,
    missed: &mut Boxes,
) -> bool
    requires many { length ranges.old ≡ length cycle.now.graph.now.operations }
    ensures { result ≡ true → EndsIn cycle.now.graph.now cycle.now.cells.now ranges.old boxes.now.list.items }
{
    let wanted = box_of(cycle.graph, ranges, boxes, n);
    narrow_stores(cycle, ranges, wanted, effort);
    ends(cycle, ranges, boxes, effort, missed)
}

/// The same by the cases of the value of operation `n`, so many of them.
pub(crate) fn ends_by_cases(
    cycle: &Cycle<'_>,
    ranges: &mut [Range],
    boxes: &Boxes,
    n: u32,
    depth: u32,
    effort: &mut Effort,
    missed: &mut Boxes,
) -> bool
    requires there { n < length cycle.now.graph.now.operations }
    requires many { length ranges.old ≡ length cycle.now.graph.now.operations }
    ensures { result ≡ true → EndsIn cycle.now.graph.now cycle.now.cells.now ranges.old boxes.now.list.items }
{
    if depth == 0 {
        return ends_closely(cycle, ranges, boxes, n, effort, missed);
    }
    if has_none(ranges) {
        return true;
    }
    if !effort.spend(cycle.graph) {
        return false;
    }
    let least = earlier_range(ranges, n);
    let Some(mut two) = halved(cycle, ranges, n, least.low, effort) else {
        return false;
    };
    let first = ends_closely(cycle, &mut two.low, boxes, n, effort, missed);
    let second = ends_by_cases(cycle, &mut two.high, boxes, n, depth - 1, effort, missed);
    both_hold(first, second)
}
