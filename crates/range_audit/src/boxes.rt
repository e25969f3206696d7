//! Boxes of cells: lists of ranges, one range for each cell.

ghost use Rattle.std.specs.Prelude.{◌≡◌, ◌<◌, ◌≤◌, ◌+◌, ℤ, true, false, List, [], ◌∷◌, ◌++◌, length, IfOk};
ghost use Rattle.op_graph.specs.GraphRun.{stored};
ghost use Rattle.range_walk.specs.Intervals.{Fit, Hold};
ghost use Rattle.range_audit.specs.Searching.{IsBoxAt, IsInBox, InBox};

use crate::cells::stored_range;
use crate::effort::Effort;
use op_graph::{Graph, entries_keep_their_rules};
use range_walk::{Range, range_at};
use std::alloc::Global;
use vcp_base::Memory;

/// A cycle of a graph, at whose beginning the cells are in these ranges.
#[derive(Clone, Copy)]
pub(crate) struct Cycle<'a> {
    /// From where memory is taken.
    pub(crate) alloc: Global,
    /// The graph.
    pub(crate) graph: &'a Graph,
    /// The ranges of the cells.
    pub(crate) cells: &'a [Range],
    ghost many: { length cells.now ≡ length graph.now.stores },
}

/// Boxes of cells.
pub(crate) struct Boxes {
    /// The ranges of the cells of each.
    pub(crate) list: Vec<Vec<Range>>,
}

impl Drop for Boxes {
    fn drop(self) {
        let Boxes { list: _ } = self;
    }
}

impl Boxes {
    /// No box.
    pub(crate) fn new(alloc: Global) -> Boxes
        ensures { result.list.items ≡ [] }
    {
        Boxes {
            list: Vec::new(alloc),
        }
    }

    /// One box.
    pub(crate) fn one(alloc: Global, cells: Vec<Range>) -> Result<Boxes, Memory>
        ensures { IfOk result (λ boxes. boxes.list.items ≡ cells ∷ []) }
    {
        let mut list = Vec::new(alloc);
        list.push(cells)?;
        Ok(Boxes { list })
    }

    /// How many there are.
    pub(crate) fn len(&self) -> usize
        ensures { result ≡ length self.now.list.items }
    {
        self.list.len()
    }

    /// The ranges of the cells of box `k`.
    pub(crate) fn at(&self, k: usize) -> &[Range]
        requires { k < length self.now.list.items }
        ensures { IsBoxAt self.now.list.items k result.now }
    {
        let list = self.list.as_slice();
        &list[k]
    }

    /// Appends a box, unless memory is lacking.
    pub(crate) fn push(&mut self, cells: Vec<Range>, effort: &mut Effort) {
        if self.list.push(cells).is_err() {
            effort.lack();
        }
    }
}

/// How many cells a graph has.
pub(crate) fn cell_count(graph: &Graph) -> usize
    ensures { result ≡ length graph.now.stores }
{
    let stores = graph.stores();
    stores.len()
}

/// Whether each range is inside that of its cell in a box.
fn is_inside(cells: &[Range], other: &[Range]) -> bool
    ensures { result ≡ true → (held : List ℤ) → Hold cells.now held → IsInBox (length cells.now) other.now held }
{
    if other.len() != cells.len() {
        return false;
    }
    'cells: for j in 0..other.len() {
        let cell = range_at(cells, j);
        let wide = range_at(other, j);
        let is = cell.is_inside(wide);
        if !is {
            return false;
        }
    }
    true
}

/// Whether the ranges are inside one of the boxes.
pub(crate) fn is_in_one(cells: &[Range], boxes: &Boxes) -> bool
    ensures { result ≡ true → (held : List ℤ) → Hold cells.now held → InBox boxes.now.list.items (length cells.now) held }
{
    'boxes: for k in 0..boxes.len() {
        let is = is_inside(cells, boxes.at(k));
        if is {
            return true;
        }
    }
    false
}

/// Whether one of the ranges has no value.
pub(crate) fn has_none(ranges: &[Range]) -> bool
    ensures fit { result ≡ true → (vs : List ℤ) → length ranges.now ≤ length vs → Fit ranges.now vs → ⊥ }
    ensures hold { result ≡ true → (held : List ℤ) → Hold ranges.now held → ⊥ }
{
    'places: for j in 0..ranges.len() {
        let range = range_at(ranges, j);
        let none = range.is_empty();
        if none {
            return true;
        }
    }
    false
}

/// Whether the cells can have values in a box.
pub(crate) fn has_values(graph: &Graph, cells: &[Range]) -> bool
    ensures many { result ≡ true → length cells.now ≡ length graph.now.stores }
    ensures none { result ≡ false → (held : List ℤ) → IsInBox (length graph.now.stores) cells.now held → ⊥ }
{
    if cells.len() != cell_count(graph) {
        return false;
    }
    !has_none(cells)
}

/// The ranges of what is stored in the cells.
pub(crate) fn stored_cells(
    alloc: Global,
    graph: &Graph,
    ranges: &[Range],
) -> Result<Vec<Range>, Memory>
    requires many { length ranges.now ≡ length graph.now.operations }
    ensures many { IfOk result (λ cells. length cells.items ≡ length graph.now.stores) }
    ensures holds { IfOk result (λ cells. (vs : List ℤ) → length vs ≡ length graph.now.operations → Fit ranges.now vs
        → Hold cells.items (stored graph.now vs)) }
{
    // The STORE of each cell is an operation.
    entries_keep_their_rules();
    let _operations = graph.len();
    let count = cell_count(graph);
    let mut cells = Vec::new(alloc);
    'cells: for k in 0..count {
        let range = stored_range(graph, ranges, k);
        cells.push(range)?;
    }
    Ok(cells)
}
