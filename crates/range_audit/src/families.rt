//! Boxes in one of which the cells always are: a box for each value of one cell.

ghost use Rattle.std.specs.Prelude.{◌≡◌, ◌<◌, ℕ, true, length, slice_get, Some, IfSome};
ghost use Rattle.range_audit.specs.Searching.{Box as Boxed, IsSound, InBox, EndsFrom, EndsIn, Always};

use crate::asking::Asking;
use crate::boxes::{Boxes, Cycle, cell_count, has_values, is_in_one};
use crate::cases::{ends, ends_by_cases, narrowed};
use crate::cells::{Step, loaded_cells, step_of, store_at, widened};
use crate::effort::Effort;
use crate::naming::{found_by, found_from};
use crate::questions::range_or;
use crate::thresholds::thresholds;
use op_graph::{Graph, operands_are_in_their_types};
use range_walk::{Range, Ranges, Stops, both_hold, walk};
use std::alloc::Global;
use vcp_base::{Memory, Ty};

/// How many values the cell may have.
const VALUES: u32 = 16;

/// How many rounds are tried.
const ROUNDS: u32 = 32;

/// How many are tried where cycles are gone through as they are.
const PLAIN_ROUNDS: u32 = 64;

/// How many operations are gone through at most in all cases of all cells, each of them six times; and as many where it is asked why single
/// operations may stop.
const STEPS: u64 = 1_048_576;

/// How many operations are gone through at most, each of them six times, where it is asked which values BOOL outputs have.
const ANSWERS: u64 = 4_194_304;

/// Graphs with more operations aren't searched so, and a line of the text says it.
pub(crate) const MOST_SEARCHED: u32 = 8_192;

/// How much may still be searched, and the numbers at which the range of a cell may come to rest.
pub(crate) struct Budget {
    /// In cases of all cells.
    cells: Effort,
    /// Where single operations are asked.
    asking: Asking,
    /// The numbers that comparisons read, and their neighbours.
    numbers: Vec<i64>,
}

impl Drop for Budget {
    fn drop(self) {
        let Budget {
            cells: _,
            asking: _,
            numbers: _,
        } = self;
    }
}

impl Budget {
    /// What may be searched of a graph, and whether it is searched for closer ranges too.
    pub(crate) fn new(alloc: Global, graph: &Graph, closely: bool) -> Budget {
        let searched = graph.len() <= MOST_SEARCHED;
        let mut cells = Effort::of(STEPS);
        let numbers = thresholds(alloc, graph, &mut cells);
        Budget {
            cells,
            asking: Asking {
                stops: Effort::of(if searched { STEPS } else { 0 }),
                answers: Effort::of(if searched && closely { ANSWERS } else { 0 }),
            },
            numbers,
        }
    }

    /// Whether memory was lacking.
    pub(crate) fn is_full(&self) -> bool {
        self.cells.full || self.asking.stops.full || self.asking.answers.full
    }
}

/// The values of the cell at a place that boxes tell apart: so many from the least on.
#[derive(Clone, Copy)]
struct Values {
    place: usize,
    least: i64,
    count: u32,
}

/// One box, that of all values.
const ONE: Values = Values {
    place: 0,
    least: 0,
    count: 1,
};

/// Whether each whole cycle with values in these ranges ends in one of the boxes, by the cases of the value of operation `n`, which stores the
/// cell whose values the boxes tell apart. Where that isn't seen, the ranges in which it ends are appended to `missed`.
fn ends_by_values(
    cycle: &Cycle<'_>,
    known: &[Range],
    boxes: &Boxes,
    n: u32,
    effort: &mut Effort,
    missed: &mut Boxes,
) -> bool
    requires there { n < length cycle.now.graph.now.operations }
    requires many { length known.now ≡ length cycle.now.graph.now.operations }
    ensures { result ≡ true → EndsIn cycle.now.graph.now cycle.now.cells.now known.now boxes.now.list.items }
{
    let depth = if boxes.len() == 1 { 0 } else { VALUES };
    let Some(mut ranges) = narrowed(cycle, known, effort) else {
        return false;
    };
    ends_by_cases(cycle, &mut ranges, boxes, n, depth, effort, missed)
}

/// Whether each whole cycle from cells in this box ends in one of the boxes, by the cases of the value of operation `pivot`; of cycles as they
/// are gone through where there is none. The ranges in which they end are appended to `missed` where that isn't seen.
fn is_box_kept(
    alloc: Global,
    graph: &Graph,
    inputs: &[Range],
    boxes: &Boxes,
    cells: &[Range],
    pivot: Option<u32>,
    effort: &mut Effort,
    missed: &mut Boxes,
) -> bool
    requires there { IfSome pivot (λ n. n < length graph.now.operations) }
    ensures { result ≡ true → EndsFrom graph.now inputs.now boxes.now.list.items cells.now }
{
    if !has_values(graph, cells) {
        return true;
    }
    let cycle = Cycle {
        alloc,
        graph,
        cells,
    };
    let Ok(told) = walk(alloc, graph, cycle.cells, inputs) else {
        effort.lack();
        return false;
    };
    match pivot {
        None => ends(&cycle, told.known(), boxes, effort, missed),
        Some(n) => ends_by_values(&cycle, told.known(), boxes, n, effort, missed),
    }
}

/// Whether that is so of each of the boxes in `from`.
fn are_boxes_kept(
    alloc: Global,
    graph: &Graph,
    inputs: &[Range],
    boxes: &Boxes,
    from: &Boxes,
    pivot: Option<u32>,
    effort: &mut Effort,
    missed: &mut Boxes,
) -> bool
    requires there { IfSome pivot (λ n. n < length graph.now.operations) }
    ensures { result ≡ true → (k : ℕ) (b : Boxed) → slice_get from.now.list.items k ≡ Some b
        → EndsFrom graph.now inputs.now boxes.now.list.items b.items }
{
    let mut all = true;
    'boxes: for k in 0..from.len() {
        let kept = is_box_kept(
            alloc,
            graph,
            inputs,
            boxes,
            from.at(k),
            pivot,
            effort,
            missed,
        );
        let both = both_hold(all, kept);
        all = both;
    }
    all
}

/// Whether the cells are always in one of the boxes, as far as that is seen; the ranges in which cycles from these boxes end, where that isn't
/// seen to be in one of them, are told by `missed`.
fn is_family(
    alloc: Global,
    graph: &Graph,
    inputs: &[Range],
    boxes: &Boxes,
    pivot: Option<u32>,
    effort: &mut Effort,
    missed: &mut Boxes,
) -> bool
    requires there { IfSome pivot (λ n. n < length graph.now.operations) }
    ensures { result ≡ true → Always graph.now inputs.now (InBox boxes.now.list.items (length graph.now.stores)) }
{
    operands_are_in_their_types();
    let _operations = graph.len();
    *missed = Boxes::new(alloc);
    let Ok(first) = loaded_cells(alloc, graph, false) else {
        effort.lack();
        return false;
    };
    let begins = is_in_one(&first, boxes);
    let kept = are_boxes_kept(alloc, graph, inputs, boxes, boxes, pivot, effort, missed);
    both_hold(begins, kept)
}

/// So many boxes without a value; fewer where memory is lacking.
fn empty_boxes(alloc: Global, graph: &Graph, count: u32, effort: &mut Effort) -> Boxes {
    let mut boxes = Boxes::new(alloc);
    'boxes: for _ in 0..count {
        match vec![in alloc; Range::none(); cell_count(graph)] {
            Ok(cells) => boxes.push(cells, effort),
            Err(_) => effort.lack(),
        }
    }
    boxes
}

/// The type of cell `j`.
fn cell_type(graph: &Graph, j: usize) -> Ty {
    match graph.loads().get(j) {
        Some(load) => load.ty,
        None => Ty::Lint,
    }
}

/// Widens a box by ranges of the cells that are missed.
fn grow_box(graph: &Graph, cells: &mut [Range], more: &[Range], step: Step, numbers: &[i64]) {
    'cells: for j in 0..cells.len() {
        if j < more.len() {
            let wider = widened(cells[j], more[j], cell_type(graph, j), step, numbers);
            cells[j] = if cells[j].is_empty() { more[j] } else { wider };
        }
    }
}

/// Widens the boxes by the ranges that are missed: for each of these the one of its value. One box is that of all values.
fn grow(
    graph: &Graph,
    boxes: &mut Boxes,
    missed: &Boxes,
    values: Values,
    step: Step,
    numbers: &[i64],
) {
    'missed: for i in 0..missed.len() {
        let more = missed.at(i);
        let k = match more.get(values.place) {
            Some(range) if values.count != 1 => {
                range.low.saturating_sub(values.least).unsigned_abs() as usize
            }
            _ => 0,
        };
        if k < boxes.len() {
            grow_box(graph, &mut boxes.list[k], more, step, numbers);
        }
    }
}

/// The box of the initial values of the cells; none where memory is lacking.
fn first_box(alloc: Global, graph: &Graph, effort: &mut Effort) -> Boxes {
    let mut boxes = Boxes::new(alloc);
    match loaded_cells(alloc, graph, false) {
        Ok(cells) => boxes.push(cells, effort),
        Err(Memory) => effort.lack(),
    }
    boxes
}

/// Boxes in one of which the cells always are, one for each of these values, by the cases of operation `pivot`, which stores them; None where
/// none are found in so many rounds, with the operations that are left, or with the memory that there is.
fn family(
    alloc: Global,
    graph: &Graph,
    inputs: &[Range],
    values: Values,
    pivot: Option<u32>,
    rounds: u32,
    budget: &mut Budget,
) -> Option<Boxes>
    requires there { IfSome pivot (λ n. n < length graph.now.operations) }
    ensures { IfSome result (λ boxes. Always graph.now inputs.now (InBox boxes.list.items (length graph.now.stores))) }
{
    let mut boxes = empty_boxes(alloc, graph, values.count, &mut budget.cells);
    let mut missed = first_box(alloc, graph, &mut budget.cells);
    'rounds: for round in 0..rounds {
        if budget.cells.left == 0 {
            break;
        }
        let step = step_of(round.saturating_sub(1));
        grow(graph, &mut boxes, &missed, values, step, &budget.numbers);
        let is = is_family(
            alloc,
            graph,
            inputs,
            &boxes,
            pivot,
            &mut budget.cells,
            &mut missed,
        );
        if is {
            return Some(boxes);
        }
    }
    None
}

/// The box of the values with which cells begin and of those that are stored where they are in this one, where the cells are always in it too;
/// else this one. It is narrower where a round took an end of the type that no value comes to.
fn nearest(
    alloc: Global,
    graph: &Graph,
    inputs: &[Range],
    boxes: Boxes,
    effort: &mut Effort,
) -> Boxes
    requires { Always graph.now inputs.now (InBox boxes.list.items (length graph.now.stores)) }
    ensures { Always graph.now inputs.now (InBox result.list.items (length graph.now.stores)) }
{
    let mut next = first_box(alloc, graph, effort);
    let mut stored = Boxes::new(alloc);
    are_boxes_kept(
        alloc,
        graph,
        inputs,
        &next,
        &boxes,
        None,
        effort,
        &mut stored,
    );
    grow(graph, &mut next, &stored, ONE, Step::Near, &[]);
    if is_family(alloc, graph, inputs, &next, None, effort, &mut stored) {
        return next;
    }
    boxes
}

/// One box in which the cells are always, on rows whose inputs are in these ranges. Where none is found in the rounds that are tried, it is
/// the one that is given, that of their types.
pub(crate) fn settled(
    alloc: Global,
    graph: &Graph,
    inputs: &[Range],
    typed: Boxes,
    budget: &mut Budget,
) -> Boxes
    requires { Always graph.now inputs.now (InBox typed.list.items (length graph.now.stores)) }
    ensures { Always graph.now inputs.now (InBox result.list.items (length graph.now.stores)) }
{
    match family(alloc, graph, inputs, ONE, None, PLAIN_ROUNDS, budget) {
        Some(boxes) => nearest(alloc, graph, inputs, boxes, &mut budget.cells),
        None => nearest(alloc, graph, inputs, typed, &mut budget.cells),
    }
}

/// What is told of the operations of a graph, without the operations that don't stop in cycles from cells in one of these boxes, and with the
/// ranges in such cycles where these are closer.
fn with_family(
    alloc: Global,
    graph: &Graph,
    inputs: &[Range],
    ranges: Ranges,
    boxes: &Boxes,
    budget: &mut Budget,
) -> Ranges
    requires always { Always graph.now inputs.now (InBox boxes.now.list.items (length graph.now.stores)) }
    requires sound { IsSound graph.now inputs.now ranges }
    ensures { IsSound graph.now inputs.now result }
{
    if let Ok(boxed) = found_from(
        alloc,
        graph,
        inputs,
        boxes,
        ranges.stops(),
        &mut budget.asking,
    )
        && let Ok(closer) = found_by(alloc, true, &ranges, &boxed)
    {
        return closer;
    }
    budget.cells.lack();
    ranges
}

/// Whether an operation is named.
fn names_any(stops: &[Stops]) -> bool {
    'operations: for i in 0..stops.len() {
        if stops[i].are_any() {
            return true;
        }
    }
    false
}

/// Appends values, unless memory is lacking.
fn push_try(tries: &mut Vec<Values>, values: Values, effort: &mut Effort) {
    if tries.push(values).is_err() {
        effort.lack();
    }
}

/// Appends the values of each cell that is a BOOL, or of each other one, where they are few by these ranges.
fn push_tries(
    tries: &mut Vec<Values>,
    graph: &Graph,
    known: &[Range],
    bools: bool,
    effort: &mut Effort,
) {
    'cells: for place in 0..cell_count(graph) {
        let range = match graph.loads().get(place) {
            Some(load) => range_or(known, load.load as usize),
            None => Range::of_type(Ty::Lint),
        };
        let past = range.high.saturating_sub(range.low);
        let is_bool = matches!(cell_type(graph, place), Ty::Bool);
        if is_bool == bools && past > 0 && past < VALUES as i64 {
            let values = Values {
                place,
                least: range.low,
                count: past as u32 + 1,
            };
            push_try(tries, values, effort);
        }
    }
}

/// By which values boxes are told apart in turn: one box, and the values of each cell: first of numbers, as a state is one.
fn tries_of(alloc: Global, graph: &Graph, known: &[Range], effort: &mut Effort) -> Vec<Values> {
    let mut tries = Vec::new(alloc);
    push_try(&mut tries, ONE, effort);
    push_tries(&mut tries, graph, known, false, effort);
    push_tries(&mut tries, graph, known, true, effort);
    tries
}

/// What is told of the operations of a graph, and what is told by boxes, one for each of these values, where such are found.
fn closer_by(
    alloc: Global,
    graph: &Graph,
    inputs: &[Range],
    ranges: Ranges,
    values: Values,
    budget: &mut Budget,
) -> Ranges
    requires sound { IsSound graph.now inputs.now ranges }
    ensures { IsSound graph.now inputs.now result }
{
    if values.place >= cell_count(graph) {
        return ranges;
    }
    if !names_any(ranges.stops()) && budget.asking.answers.left == 0 {
        return ranges;
    }
    let pivot = store_at(graph, values.place);
    match family(alloc, graph, inputs, values, Some(pivot), ROUNDS, budget) {
        Some(boxes) => with_family(alloc, graph, inputs, ranges, &boxes, budget),
        None => ranges,
    }
}

/// What is told of the operations of a graph, whose cells are always in these boxes, by a closer look at those that are named: in these boxes,
/// in one box, and by the values of its cells. Where closer ranges are searched for, that is done also where none is named.
pub(crate) fn closer(
    alloc: Global,
    graph: &Graph,
    inputs: &[Range],
    ranges: Ranges,
    boxes: &Boxes,
    budget: &mut Budget,
) -> Ranges
    requires sound { IsSound graph.now inputs.now ranges }
    requires always { Always graph.now inputs.now (InBox boxes.now.list.items (length graph.now.stores)) }
    ensures { IsSound graph.now inputs.now result }
{
    let mut told = with_family(alloc, graph, inputs, ranges, boxes, budget);
    if graph.len() > MOST_SEARCHED {
        return told;
    }
    // Which cells are looked at is told by the ranges that they have here, so that closer ones take no room from a cell that tells more.
    let tries = tries_of(alloc, graph, told.known(), &mut budget.cells);
    'tries: for k in 0..tries.len() {
        told = closer_by(alloc, graph, inputs, told, tries[k], budget);
    }
    told
}
