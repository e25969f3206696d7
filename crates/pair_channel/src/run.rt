//! The run of a pair of channels over rows of inputs, and what is printed of it.

ghost use Rattle.std.specs.Prelude.{ℕ, ◌≡◌, ◌≢◌, ◌<◌, ◌≤◌, None, false, Ok, Err, length};
ghost use Rattle.vcp_base.specs.Limits.{most_cycles};
ghost use Rattle.vcp_base.specs.declared.kind.StopKind.{StopKind};
ghost use Rattle.vcp_outside.specs.Written.{WritesTo};
ghost use Rattle.signature_table.specs.Signatures.{IsTable, IsTableOf};
ghost use Rattle.coded_machine.specs.CycleEnds.{outputs_of};
ghost use Rattle.run_report.specs.Lines.{row_text, stop_text};
ghost use Rattle.coded_machine.specs.Moments.{moment};
ghost use Rattle.coded_machine.specs.RowRuns.{texts_from};
ghost use Rattle.coded_machine.specs.Stops.{GrowsToStop, TellsStop};
ghost use Rattle.coded_machine.specs.declared.rows.fault.RunFault.TheVariants as fault;
ghost use Rattle.pair_channel.specs.declared.pair_end.PairEnd.{PairEnd as PairEndOf};
ghost use Rattle.pair_channel.specs.declared.pair_end.PairEnd.TheVariants as ends;
ghost use Rattle.pair_channel.specs.PairRuns.{pair_row_if};
ghost use Rattle.pair_channel.specs.PairStates.{fresh_pair};
ghost use Rattle.pair_channel.specs.PairTurns.{PairTurn};
ghost use Rattle.pair_channel.specs.PairDone.{PairIsThere, PairRunsTo};
ghost use Rattle.pair_channel.specs.PairLines.{pair_last};
ghost use Rattle.pair_channel.specs.PairMoments.{pair_moment};
ghost use Rattle.pair_channel.specs.PairRows.{PairRows, cycle_end};

use crate::lines::{differ_line, parted_line};
use crate::{Pair, PairEnd, counts_bound_a_pair, pairs_follow_their_answers};
use coded_machine::RunFault;
use coded_unit::Unit;
use input_rows::RowReader;
use op_graph::{Graph, entries_keep_their_rules};
use run_report::{end_line, graph_stop_line, header_line, output_name, row_line};
use signature_table::Table;
use std::alloc::Global;
use vcp_base::{Memory, Row};
use vcp_outside::{Failed, Sink};

/// Carries one cycle of a pair, and writes its row of outputs where it is released. It answers how the cycle ended, or that the row of a
/// released cycle couldn't be written.
fn run_cycle<U: Unit, V: Unit, O: Sink>(
    pair: &mut Pair<'_>,
    inputs: &Row,
    outputs: &mut Row,
    first: &mut U,
    second: &mut V,
    out: &mut O,
) -> Result<PairEnd, Failed>
    requires going { pair.old.ended ≡ None }
    requires between { pair.old.first.under_way ≡ false }
    requires few { pair.old.cycles < most_cycles }
    requires width { length outputs.old ≡ length pair.old.first.graph.outputs }
    ensures turn { PairTurn pair.old pair.new inputs.now (cycle_end result) outputs.old outputs.new (U.seen first.old) (U.seen first.new)
        (V.seen second.old) (V.seen second.new) }
    ensures between { pair.new.first.under_way ≡ false }
    ensures written { WritesTo (O.seen out.old) (O.seen out.new)
        (texts_from row_text pair.old.cycles (pair_row_if (cycle_end result) (outputs_of pair.old.first.graph pair.new.first.answers))) result }
    ensures width { length outputs.new ≡ length outputs.old }
{
    let cycle = pair.cycles();
    match pair.cycle(first, second, inputs, outputs) {
        PairEnd::Released => match row_line(out, cycle, outputs) {
            Ok(()) => Ok(PairEnd::Released),
            Err(Failed) => Err(Failed),
        },
        end => Ok(end),
    }
}

/// Runs a pair that made no cycle yet over the rows that are left, one cycle a row, up to the first cycle that isn't released or the first
/// row that is refused. The row of outputs of each released cycle is written before the next row is taken. It answers how the last cycle
/// ended; where the rows ended, `Released`.
fn run_rows<S: RowReader, U: Unit, V: Unit, O: Sink>(
    alloc: Global,
    graph: &Graph,
    pair: &mut Pair<'_>,
    rows: &mut S,
    first: &mut U,
    second: &mut V,
    out: &mut O,
) -> Result<PairEnd, RunFault>
    requires fresh { pair.old ≡ fresh_pair graph.now pair.old.first.table pair.old.second.table }
    requires few { length (S.left rows.old).rows ≤ most_cycles }
    requires width { length (S.left rows.old).types ≡ length graph.now.inputs }
    ensures rows { PairRows graph.now pair.old.first.table pair.old.second.table (S.left rows.old)
        (pair_moment (U.seen first.old) (V.seen second.old) (O.seen out.old))
        (pair_moment (U.seen first.new) (V.seen second.new) (O.seen out.new)) pair.new.cycles result }
    ensures there { (e : PairEndOf) → result ≡ Ok e → PairIsThere graph.now e }
    ensures stopped { (op : ℕ) (why : StopKind) → result ≡ Ok (ends.Stopped op why)
        → GrowsToStop (U.seen first.old).log (U.seen first.new).log pair.new.cycles op why }
{
    // What the laws below and these calls ensure is known of each cycle.
    pairs_follow_their_answers();
    entries_keep_their_rules();
    let _operations = graph.len();
    let mut inputs = Row::zeros(alloc, graph.inputs())?;
    let mut outputs = Row::zeros(alloc, graph.outputs())?;
    'cycles: while rows.next(alloc, &mut inputs)? {
        match run_cycle(pair, &inputs, &mut outputs, first, second, out)? {
            PairEnd::Released => {}
            end => return Ok(end),
        }
    }
    Ok(PairEnd::Released)
}

/// Prints the last line of a pair's run of so many cycles, which came to the end of its rows or ended so.
fn print_end<O: Sink>(out: &mut O, graph: &Graph, cycles: u32, end: &PairEnd) -> Result<(), Failed>
    requires { PairIsThere graph.now end.now }
    ensures { WritesTo (O.seen out.old) (O.seen out.new) (pair_last graph.now cycles end.now None) result }
{
    match *end {
        PairEnd::Released => end_line(out, cycles),
        PairEnd::Stopped { op, kind } => graph_stop_line(out, cycles, kind, graph, op),
        PairEnd::Parted { first, second } => parted_line(out, cycles, graph, &first, &second),
        PairEnd::Differ {
            output,
            first,
            second,
        } => differ_line(out, cycles, output_name(graph, output), first, second),
    }
}

/// Runs a pair that made no cycle yet over the rows that are left, and prints its run, as `run_pair` does. The pair is lent: a function that
/// owned it would give up its parts at each of its ends.
fn print_run<S: RowReader, U: Unit, V: Unit, O: Sink>(
    alloc: Global,
    graph: &Graph,
    pair: &mut Pair<'_>,
    rows: &mut S,
    first: &mut U,
    second: &mut V,
    out: &mut O,
) -> Result<PairEnd, RunFault>
    requires fresh { pair.old ≡ fresh_pair graph.now pair.old.first.table pair.old.second.table }
    requires table { IsTable pair.old.first.table }
    requires other { IsTable pair.old.second.table }
    requires few { length (S.left rows.old).rows ≤ most_cycles }
    requires width { length (S.left rows.old).types ≡ length graph.now.inputs }
    ensures ran { PairRunsTo graph.now pair.old.first.table pair.old.second.table (S.left rows.old)
        (pair_moment (U.seen first.old) (V.seen second.old) (O.seen out.old))
        (pair_moment (U.seen first.new) (V.seen second.new) (O.seen out.new)) result }
    ensures stayed { result ≢ Err fault.Write → (O.seen out.new).faults ≡ (O.seen out.old).faults }
    ensures stopped { (op : ℕ) (why : StopKind) → result ≡ Ok (ends.Stopped op why)
        → TellsStop stop_text (moment (U.seen first.old) (O.seen out.old)) (moment (U.seen first.new) (O.seen out.new)) op why }
{
    // What the laws below and this call ensure is known of the run.
    pairs_follow_their_answers();
    counts_bound_a_pair();
    let _rules = graph.len();
    let names = match graph.output_columns(alloc) {
        Ok(names) => names,
        Err(Memory) => return Err(RunFault::Memory),
    };
    match header_line(out, &names) {
        Ok(()) => {}
        Err(Failed) => return Err(RunFault::Write),
    }
    match run_rows(alloc, graph, pair, rows, first, second, out) {
        Ok(end) => match print_end(out, graph, pair.cycles(), &end) {
            Ok(()) => Ok(end),
            Err(Failed) => Err(RunFault::Write),
        },
        Err(fault) => Err(fault),
    }
}

/// Runs a graph on a pair of channels, whose tables these are and whose seeds differ, over the rows that are left, the first channel on one
/// unit and the second on another: the header, a line for each cycle that both release, as its row comes, and the last line. It answers how
/// the run ended; where the rows ended, `Released`.
///
/// A row that is refused ends the run, and what was printed before it stays. Where there is no memory, some front of all that may be
/// printed was; it is taken before the first cycle, and for the rows of inputs.
///
/// A kept log of either unit grew by exactly its channel's calls with its answers. What is written is read
/// off the answers: a stop of both, or how the channels disagree. Where one of the two counts of wrong
/// answers stayed the same below its last value, the rows are the first of the graph's run on plain integers, all
/// of them where the rows ended or the run stopped, and a stop is its stop; the channels disagree only where
/// one of the counts rose. Where writing failed, which comes only where the sink's count rose, a proper part
/// of all that may be printed was written, with the lines of all cycles before the last one; else that count
/// is as it was. A stop is answered only where a kept log of the first unit ends in that stop, and its line is
/// the last that was written.
pub fn run_pair<S: RowReader, U: Unit, V: Unit, O: Sink>(
    alloc: Global,
    graph: &Graph,
    table: &Table,
    other: &Table,
    rows: &mut S,
    first: &mut U,
    second: &mut V,
    out: &mut O,
) -> Result<PairEnd, RunFault>
    requires table { IsTableOf table.now graph.now }
    requires other { IsTableOf other.now graph.now }
    requires seeds { table.now.seed ≢ other.now.seed }
    requires few { length (S.left rows.old).rows ≤ most_cycles }
    requires width { length (S.left rows.old).types ≡ length graph.now.inputs }
    ensures ran { PairRunsTo graph.now table.now other.now (S.left rows.old)
        (pair_moment (U.seen first.old) (V.seen second.old) (O.seen out.old))
        (pair_moment (U.seen first.new) (V.seen second.new) (O.seen out.new)) result }
    ensures stayed { result ≢ Err fault.Write → (O.seen out.new).faults ≡ (O.seen out.old).faults }
    ensures stopped { (op : ℕ) (why : StopKind) → result ≡ Ok (ends.Stopped op why)
        → TellsStop stop_text (moment (U.seen first.old) (O.seen out.old)) (moment (U.seen first.new) (O.seen out.new)) op why }
{
    // What the law below and these calls ensure is known of the run.
    pairs_follow_their_answers();
    let _step = table.step();
    let _other = other.step();
    match Pair::new(alloc, graph, table, other) {
        Ok(mut pair) => print_run(alloc, graph, &mut pair, rows, first, second, out),
        Err(Memory) => Err(RunFault::Memory),
    }
}
