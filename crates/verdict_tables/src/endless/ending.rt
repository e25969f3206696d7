//! How the run with a group of faults ends.

ghost use Rattle.std.specs.Prelude.{◌≡◌, ◌≤◌, ◌<◌, [], All, IfOk, length};
ghost use Rattle.vcp_base.specs.Limits.{most_cycles};
ghost use Rattle.signature_table.specs.Signatures.{IsTableOf};
ghost use Rattle.fault_script.specs.Changes.{acts_of};
ghost use Rattle.verdict_tables.specs.AnswersOver.{held_at_end};
ghost use Rattle.verdict_tables.specs.Endings.{words_differ as words_differ_of, ending_of};

use crate::endless::run::run_group;
use coded_unit::Word;
use fault_script::Group;
use input_rows::RowList;
use op_graph::Graph;
use signature_table::Table;
use std::alloc::Global;
use vcp_base::Memory;

/// What becomes of a group of faults of which no output tells.
#[derive(Clone, Copy)]
pub enum SameEnding {
    /// No cycle of the run reaches an operation of the group in its cycle.
    NeverReached,
    /// The group is reached, and at the end each cell has the word that it has in the run without the group.
    DiedOut,
    /// The group is reached, and at the end a cell has another word than in the run without the group.
    Stands,
}

/// Whether two lists of words differ at a place that both have.
fn words_differ(words: &[Word], others: &[Word]) -> bool
    ensures { result ≡ words_differ_of words.now others.now }
{
    'words: for i in 0..words.len().min(others.len()) {
        if words[i].get() != others[i].get() {
            return true;
        }
    }
    false
}

/// How the run over rows with a group of faults ends beside the run without, of which `without` are the words of the cells at its end, as `words_left`
/// gives them. `Memory` where there is no room for the work of a run.
///
/// It is never reached where no cycle reaches the operation of one of its faults; else it is still there where
/// a cell has another word at the end, in its value or its residue alone; and else its difference has died
/// out.
pub fn group_ending(
    alloc: Global,
    graph: &Graph,
    table: &Table,
    rows: &RowList,
    without: &[Word],
    group: &Group,
) -> Result<SameEnding, Memory>
    requires table { IsTableOf table.now graph.now }
    requires width { All (λ row. length row ≡ length graph.now.inputs) rows.now }
    requires few { length rows.now ≤ most_cycles }
    requires without { without.now ≡ held_at_end table.now graph.now (acts_of []) rows.now }
    ensures { IfOk result (λ e. e ≡ ending_of table.now graph.now group.now rows.now) }
{
    match run_group(alloc, graph, table, rows, group) {
        Ok(work) => Ok(match (work.reached, words_differ(&work.held, without)) {
            (false, _) => SameEnding::NeverReached,
            (true, false) => SameEnding::DiedOut,
            (true, true) => SameEnding::Stands,
        }),
        Err(Memory) => Err(Memory),
    }
}
