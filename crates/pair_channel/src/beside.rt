//! The run of a pair whose second channel is on the processor itself.

ghost use Rattle.std.specs.Prelude.{ℕ, ◌≡◌, ◌≢◌, ◌≤◌, Ok, Err, length};
ghost use Rattle.vcp_base.specs.Limits.{most_cycles};
ghost use Rattle.vcp_base.specs.declared.kind.StopKind.{StopKind};
ghost use Rattle.signature_table.specs.Signatures.{IsTableOf};
ghost use Rattle.run_report.specs.Lines.{stop_text};
ghost use Rattle.coded_machine.specs.Moments.{moment};
ghost use Rattle.coded_machine.specs.Stops.{TellsStop};
ghost use Rattle.coded_machine.specs.declared.rows.fault.RunFault.TheVariants as fault;
ghost use Rattle.pair_channel.specs.declared.pair_end.PairEnd.TheVariants as ends;
ghost use Rattle.pair_channel.specs.BesideDone.{BesideRunsTo};

use crate::run::run_pair;
use crate::{PairEnd, one_honest_channel_holds_the_pair};
use coded_machine::RunFault;
use coded_unit::{CpuUnit, Unit};
use input_rows::RowReader;
use op_graph::Graph;
use signature_table::Table;
use std::alloc::Global;
use vcp_outside::Sink;

/// Runs a graph on a pair of channels over the rows that are left, as `run_pair` does, the first channel on the unit and the second on the
/// processor itself, with the other table. What is promised of it is read off the first channel's answers: the second channel's ends and rows
/// are those of the graph's run on plain integers.
///
/// So the rows are the first of that run, whatever the unit answered; the channels disagree only where its
/// count rose; and where no answer was wrong, the outcome is the graph's run, and what was written of a run
/// that was cut off is a part of what is printed of that. A stop is answered only where a kept log ends in
/// that stop, and its line is the last that was written.
pub fn run_beside<S: RowReader, U: Unit, O: Sink>(
    alloc: Global,
    graph: &Graph,
    table: &Table,
    other: &Table,
    rows: &mut S,
    unit: &mut U,
    out: &mut O,
) -> Result<PairEnd, RunFault>
    requires table { IsTableOf table.now graph.now }
    requires other { IsTableOf other.now graph.now }
    requires seeds { table.now.seed ≢ other.now.seed }
    requires few { length (S.left rows.old).rows ≤ most_cycles }
    requires width { length (S.left rows.old).types ≡ length graph.now.inputs }
    ensures ran { BesideRunsTo graph.now table.now (S.left rows.old) (moment (U.seen unit.old) (O.seen out.old)) (moment (U.seen unit.new) (O.seen out.new)) result }
    ensures stayed { result ≢ Err fault.Write → (O.seen out.new).faults ≡ (O.seen out.old).faults }
    ensures stopped { (op : ℕ) (why : StopKind) → result ≡ Ok (ends.Stopped op why)
        → TellsStop stop_text (moment (U.seen unit.old) (O.seen out.old)) (moment (U.seen unit.new) (O.seen out.new)) op why }
{
    // What the law below and these calls ensure is known of the run.
    one_honest_channel_holds_the_pair();
    let _rules = graph.len();
    let _step = table.step();
    let _other = other.step();
    let mut second = CpuUnit::new();
    run_pair(alloc, graph, table, other, rows, unit, &mut second, out)
}
