//! The three passes in their order.

ghost use Rattle.std.specs.Prelude.{IfOk};
ghost use Rattle.graph_passes.specs.Reduced.{IsReduced, IsReductionOf};
ghost use Rattle.graph_passes.specs.SameRun.{MeansAs};

use crate::folding::fold;
use crate::pruning::prune;
use crate::sharing::share;
use op_graph::Graph;
use std::alloc::Global;
use vcp_base::Memory;

/// Folds a graph, then shares it, and then prunes it. The result has the code, the names, the inputs, the turn nodes and the
/// columns of the graph, no more operations, and over all rows the same rows of outputs and the same end.
///
/// No pass would leave less of it. Where memory is wanting the graph is given up.
pub fn reduce(alloc: Global, graph: Graph) -> Result<Graph, Memory>
    ensures passes { IfOk result (λ g. IsReductionOf graph g) }
    ensures means { IfOk result (λ g. MeansAs graph g) }
    ensures reduced { IfOk result (λ g. IsReduced g) }
{
    let folded = fold(alloc, graph)?;
    let shared = share(alloc, folded)?;
    prune(alloc, shared)
}
