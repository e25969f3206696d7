//! The cells of a graph, and their ranges at first and from round to round.

ghost use Rattle.std.specs.Prelude.{◌≡◌, ◌<◌, ℕ, ℤ, List, length, slice_get, Some, IfOk};
ghost use Rattle.range_walk.specs.Intervals.{IsIn, Hold};
ghost use Rattle.range_audit.specs.Searching.{Loads, AreLoaded};

use crate::thresholds::{next_above, next_below};
use op_graph::{Graph, Loaded, entries_keep_their_rules};
use range_walk::{Range, range_at};
use std::alloc::Global;
use vcp_base::{Memory, Ty, greatest, least};

/// The first round in which an end that moves goes on to the next number beside one that a comparison reads.
const FIRST_WIDENED: u32 = 3;

/// The first round in which it goes further, past more of these numbers in each round.
const FIRST_SKIPPED: u32 = 12;

/// The first round in which it goes to the end of the type.
const FIRST_TYPED: u32 = 30;

/// What the LOAD of cell `k` makes.
pub(crate) fn load_of(graph: &Graph, k: usize) -> Loaded
    requires { k < length graph.now.loads }
    ensures { slice_get graph.now.loads k ≡ Some result }
{
    let loads = graph.loads();
    loads[k]
}

/// The number of the STORE of cell `k`.
pub(crate) fn store_of(graph: &Graph, k: usize) -> u32
    requires { k < length graph.now.stores }
    ensures { slice_get graph.now.stores k ≡ Some result }
{
    let stores = graph.stores();
    stores[k]
}

/// The number of the STORE of the cell at `place`.
pub(crate) fn store_at(graph: &Graph, place: usize) -> u32
    requires place { place < length graph.now.stores }
    ensures { result < length graph.now.operations }
{
    // The STORE of each cell is an operation.
    entries_keep_their_rules();
    let _count = graph.len();
    store_of(graph, place)
}

/// The range of what is stored in cell `k`.
pub(crate) fn stored_range(graph: &Graph, known: &[Range], k: usize) -> Range
    requires there { k < length graph.now.stores }
    requires known { length known.now ≡ length graph.now.operations }
    ensures { (n : ℕ) → slice_get graph.now.stores k ≡ Some n → slice_get known.now n ≡ Some result }
{
    // The STORE of each cell is an operation.
    entries_keep_their_rules();
    let _count = graph.len();
    let store = store_of(graph, k);
    range_at(known, store as usize)
}

/// How far an end that moves goes.
#[derive(Clone, Copy)]
pub(crate) enum Step {
    /// No further than it must.
    Near,
    /// Past so many of the numbers beside those that comparisons read, to the next.
    Past(usize),
    /// To the end of the type.
    Typed,
}

/// How far it goes in a round.
pub(crate) fn step_of(round: u32) -> Step {
    if round < FIRST_WIDENED {
        return Step::Near;
    }
    if round >= FIRST_TYPED {
        return Step::Typed;
    }
    let mut skip: usize = 0;
    'rounds: for _ in FIRST_SKIPPED..round {
        skip = skip.saturating_mul(2).saturating_add(1);
    }
    Step::Past(skip)
}

/// The range of a cell for the next round: the values that it had, and those that are stored. An end that moves goes further in later
/// rounds, so that the rounds end.
pub(crate) fn widened(cell: Range, stored: Range, ty: Ty, step: Step, numbers: &[i64]) -> Range {
    let low = if stored.low >= cell.low {
        cell.low
    } else {
        match step {
            Step::Near => stored.low,
            Step::Past(skip) => next_below(numbers, stored.low, skip, ty),
            Step::Typed => least(ty),
        }
    };
    let high = if stored.high <= cell.high {
        cell.high
    } else {
        match step {
            Step::Near => stored.high,
            Step::Past(skip) => next_above(numbers, stored.high, skip, ty),
            Step::Typed => greatest(ty),
        }
    };
    Range {
        low,
        high,
        nonzero: cell.nonzero && stored.nonzero,
    }
}

/// The range of a cell at first: of its initial value, or else of the values of its type.
fn loaded_range(load: Loaded, typed: bool) -> Range
    ensures { (v : ℤ) → Loads typed load v → IsIn result v }
{
    if typed {
        return Range::of_type(load.ty);
    }
    Range::only(load.init)
}

/// The initial values of the cells, or else the values of their types, as ranges.
pub(crate) fn loaded_cells(alloc: Global, graph: &Graph, typed: bool) -> Result<Vec<Range>, Memory>
    ensures many { IfOk result (λ cells. length cells.items ≡ length graph.now.stores) }
    ensures holds { IfOk result (λ cells. (held : List ℤ) → AreLoaded typed graph.now.loads held → Hold cells.items held) }
{
    let _count = graph.len();
    let count = graph.cells() as usize;
    let mut cells = Vec::new(alloc);
    'cells: for k in 0..count {
        let load = load_of(graph, k);
        let range = loaded_range(load, typed);
        cells.push(range)?;
    }
    Ok(cells)
}
