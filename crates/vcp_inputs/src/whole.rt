//! All rows of a run at once, and the columns of a graph's rows.

ghost use Rattle.std.specs.Prelude.{◌≡◌, ◌≤◌, All, IfErr, IfOk, length};
ghost use Rattle.vcp_base.specs.Limits.{most_cycles, most_names};
ghost use Rattle.vcp_inputs.specs.Refusals.{IsCaused};
ghost use Rattle.input_rows.specs.Opening.{HasFewCycles};
ghost use Rattle.vcp_inputs.specs.RowsOutcome.{source_outcome};
ghost use Rattle.vcp_inputs.specs.RowsRead.{AllRead, NoneRead, graph_columns as columns_of};

use crate::refusal::NoInput;
use input_rows::{RowList, RowsSource, collect_rows, open_rows};
use op_graph::Graph;
use std::alloc::Global;
use vcp_base::{Columns, Memory};

/// The columns of a graph's inputs, of which there are no more than names.
pub fn graph_columns(alloc: Global, graph: &Graph) -> Result<Columns, Memory>
    ensures columns { IfOk result (λ columns. columns ≡ columns_of graph.now) }
    ensures few { IfOk result (λ columns. length columns ≤ most_names) }
{
    let _rules = graph.len();
    graph.columns(alloc)
}

/// All rows of a source for these columns, none of which is refused. Else they are refused, at their header
/// or at a row, or memory was wanted.
pub fn whole_rows(alloc: Global, inputs: &RowsSource, columns: &Columns) -> Result<RowList, NoInput>
    requires few { HasFewCycles inputs.now }
    requires narrow { length columns.now ≤ most_names }
    ensures rows { IfOk result (AllRead (source_outcome inputs.now columns.now)) }
    ensures fault { IfErr result (NoneRead (source_outcome inputs.now columns.now)) }
    ensures caused { IfErr result IsCaused }
    ensures width { IfOk result (λ list. All (λ row. length row ≡ length columns.now) list) }
    ensures few { IfOk result (λ list. length list ≤ most_cycles) }
{
    let rows = match open_rows(alloc, inputs, columns) {
        Ok(rows) => rows,
        Err(fault) => return Err(NoInput::from(fault)),
    };
    match collect_rows(alloc, rows) {
        Ok(list) => Ok(list),
        Err(fault) => Err(NoInput::from(fault)),
    }
}
