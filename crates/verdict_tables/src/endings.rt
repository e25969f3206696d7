//! How the groups of a script end of which no output tells.

ghost use Rattle.std.specs.Prelude.{◌≡◌, ◌≤◌, ◌+◌, [], All, IfOk, length};
ghost use Rattle.vcp_base.specs.Limits.{most_cycles};
ghost use Rattle.signature_table.specs.Signatures.{IsTableOf};
ghost use Rattle.fault_script.specs.Changes.{acts_of};
ghost use Rattle.verdict_tables.specs.AnswersOver.{held_at_end};
ghost use Rattle.fault_injector.specs.FaultLines.{totals_of};
ghost use Rattle.verdict_tables.specs.Parts.{IsWhole};
ghost use Rattle.verdict_tables.specs.SameEndings.{ending_if as ending_if_of, endings_for, endings_over, ended_count, AreOf};

use crate::parts::Parts;
use crate::verdicts::Verdicts;
use crate::{SameEnding, group_ending, words_left};
use coded_unit::Word;
use fault_injector::Verdict;
use fault_script::{Group, Script};
use input_rows::RowList;
use op_graph::Graph;
use signature_table::Table;
use std::alloc::Global;
use vcp_base::{CopyList, List, Memory};

/// For each group of a script, in order, how its run ends where its verdict is `same`, and none where it is another. Seen as a list.
pub type Endings = CopyList<Option<SameEnding>>;

/// The same for each part of a campaign, in order. Seen as a list.
pub type EndingsOfParts = List<Endings>;

/// How the run with a group ends whose verdict is `same`; none of any other.
fn ending_if(
    alloc: Global,
    graph: &Graph,
    table: &Table,
    rows: &RowList,
    without: &[Word],
    group: &Group,
    verdict: Verdict,
) -> Result<Option<SameEnding>, Memory>
    requires table { IsTableOf table.now graph.now }
    requires width { All (λ row. length row ≡ length graph.now.inputs) rows.now }
    requires few { length rows.now ≤ most_cycles }
    requires without { without.now ≡ held_at_end table.now graph.now (acts_of []) rows.now }
    ensures { IfOk result (λ e. e ≡ ending_if_of table.now graph.now rows.now group.now verdict) }
{
    match verdict {
        Verdict::Same => match group_ending(alloc, graph, table, rows, without, group) {
            Ok(ending) => Ok(Some(ending)),
            Err(Memory) => Err(Memory),
        },
        Verdict::Wrong {
            cycle: _,
            output: _,
            got: _,
            want: _,
        }
        | Verdict::RanOn { cycle: _ }
        | Verdict::Refused {
            cycle: _,
            output: _,
            found: _,
            expected: _,
        }
        | Verdict::Stopped {
            cycle: _,
            op: _,
            kind: _,
        } => Ok(None),
    }
}

/// How each group of a script ends whose verdict over these rows is `same`: it is never reached, its
/// difference has died out, or it is still in a cell at the end. The graph is run over the rows once
/// without faults, and then once for each such group. `Memory` where there is no room for a run or for the
/// list. How many there are of the three is together how many verdicts are `same`.
pub fn endings_of(
    alloc: Global,
    graph: &Graph,
    table: &Table,
    rows: &RowList,
    script: &Script,
    verdicts: &Verdicts,
) -> Result<Endings, Memory>
    requires table { IsTableOf table.now graph.now }
    requires width { All (λ row. length row ≡ length graph.now.inputs) rows.now }
    requires few { length rows.now ≤ most_cycles }
    requires many { length verdicts.now ≡ length script.now }
    ensures endings { IfOk result (λ es. es ≡ endings_for table.now graph.now rows.now script.now verdicts.now) }
    ensures each { IfOk result (λ es. length es ≡ length script.now) }
    ensures sum { IfOk result (λ es. ended_count 0 es + ended_count 1 es + ended_count 2 es ≡ (totals_of verdicts.now).same) }
{
    let without = match words_left(alloc, graph, table, rows) {
        Ok(without) => without,
        Err(Memory) => return Err(Memory),
    };
    let mut endings = Endings::new(alloc);
    'groups: for i in 0..script.len() {
        let verdict = verdicts.at(i);
        let group = script.at(i);
        match ending_if(alloc, graph, table, rows, &without, group, verdict) {
            Ok(ending) => match endings.push(ending) {
                Ok(()) => {}
                Err(Memory) => return Err(Memory),
            },
            Err(Memory) => return Err(Memory),
        }
    }
    Ok(endings)
}

/// The same for each part of a campaign over these rows, in order.
pub fn endings_of_parts(
    alloc: Global,
    graph: &Graph,
    table: &Table,
    rows: &RowList,
    parts: &Parts,
) -> Result<EndingsOfParts, Memory>
    requires table { IsTableOf table.now graph.now }
    requires width { All (λ row. length row ≡ length graph.now.inputs) rows.now }
    requires few { length rows.now ≤ most_cycles }
    requires whole { All IsWhole parts.now }
    ensures endings { IfOk result (λ es. es ≡ endings_over table.now graph.now rows.now parts.now) }
    ensures each { IfOk result (λ es. AreOf es parts.now) }
{
    let mut endings = EndingsOfParts::new(alloc);
    'parts: for k in 0..parts.len() {
        let part = parts.at(k);
        match endings_of(alloc, graph, table, rows, &part.script, &part.verdicts) {
            Ok(own) => match endings.push(own) {
                Ok(()) => {}
                Err(Memory) => return Err(Memory),
            },
            Err(Memory) => return Err(Memory),
        }
    }
    Ok(endings)
}
