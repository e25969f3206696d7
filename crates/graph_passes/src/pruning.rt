//! What nothing needs is left out.

ghost use Rattle.std.specs.Prelude.{◌≤◌, length, map, IfOk};
ghost use Rattle.vcp_base.specs.Limits.{most_cells};
ghost use Rattle.op_graph.specs.Rules.{IsGraph};
ghost use Rattle.graph_passes.specs.Folding.{NoneFolds};
ghost use Rattle.graph_passes.specs.Pruning.{IsPruned, NonePrunes};
ghost use Rattle.graph_passes.specs.SameRun.{MeansAs};
ghost use Rattle.graph_passes.specs.Sharing.{NoneShares};
ghost use Rattle.graph_passes.specs.Tables.{IsNumbered, marked as marked_of};

use crate::laws::what_is_needed_means_the_same;
use crate::needed::needed;
use crate::part::{Places, marked, numbered, part};
use op_graph::{Graph, Loaded, entries_are_found_by_one_walk, entries_keep_their_rules};
use std::alloc::Global;
use vcp_base::Memory;

/// Keeps each INPUT and OUT, each operation that can stop, what these read, and both operations of each
/// cell of which one is kept, with what they read. What is kept is numbered anew in the old order; all
/// names and turn nodes stay, and cells that are not kept go.
///
/// No operation is left that would not be kept. Where memory is wanting the graph is given up. The pruned
/// graph means what its argument meant; none is left that `fold` replaces, and no two that `share` joins,
/// where its argument had none.
pub fn prune(alloc: Global, graph: Graph) -> Result<Graph, Memory>
    ensures pruned { IfOk result (λ g. IsPruned graph g) }
    ensures means { IfOk result (λ g. MeansAs graph g) }
    ensures none_left { IfOk result (λ g. NonePrunes g) }
    ensures folds_none { NoneFolds graph → IfOk result (λ g. NoneFolds g) }
    ensures shares_none { NoneShares graph → IfOk result (λ g. NoneShares g) }
{
    what_is_needed_means_the_same();
    // What an operation reads, and each cell's LOAD and STORE, are in the tables.
    entries_are_found_by_one_walk();
    entries_keep_their_rules();
    let _operations = graph.len();
    let operations = needed(alloc, &graph)?;
    let cells = kept_cells(alloc, graph.loads(), &operations.kept)?;
    part(alloc, graph, &operations, &cells)
}

/// The places of the cells whose LOADs are kept.
fn kept_cells(alloc: Global, loads: &[Loaded], kept: &[bool]) -> Result<Places, Memory>
    requires { length loads.now ≤ most_cells }
    ensures { IfOk result (λ cells. IsNumbered (map (λ l. marked_of kept.now l.load) loads.now) cells) }
{
    let mut cells = Vec::new(alloc);
    'cells: for loaded in loads {
        cells.push(marked(kept, loaded.load as usize))?;
    }
    numbered(alloc, cells)
}
