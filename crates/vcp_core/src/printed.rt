//! A graph's run on rows, on a unit. A `Printed` says what is printed of it first and last, a `ReleasedRows` what for each row.

ghost use Rattle.std.specs.Prelude.{◌≡◌, ◌≤◌, ◌⊎◌, ℕ, List, [], None, IfSome, All, length, map};
ghost use Rattle.vcp_base.specs.Limits.{most_cycles};
ghost use Rattle.vcp_base.specs.Types.{AreIn};
ghost use Rattle.vcp_outside.specs.Written.{WritesTo};
ghost use Rattle.vcp_typed.specs.Fitting.{input_types};
ghost use Rattle.input_rows.specs.RowsOf.{IsOfRecord};
ghost use Rattle.op_graph.specs.Lists.{Lists, output_column};
ghost use Rattle.op_graph.specs.Rules.{IsGraph};
ghost use Rattle.signature_table.specs.Signatures.{IsTable, IsTableOf};
ghost use Rattle.coded_machine.specs.Calls.{Whole};
ghost use Rattle.coded_machine.specs.State.{State, fresh};
ghost use Rattle.coded_machine.specs.declared.cycle_end.CycleEnd.{CycleEnd as CycleEndOf};
ghost use Rattle.vcp_inputs.specs.Forms.{Code as CodeOf, as_code, IsCode};
ghost use Rattle.vcp_inputs.specs.Answer.{Subject};
ghost use Rattle.vcp_inputs.specs.Printing.{Printing, ShownWords};
ghost use Rattle.vcp_inputs.specs.Reports.{end_read};
ghost use Rattle.coded_machine.specs.Moments.{moment};
ghost use Rattle.vcp_core.specs.EndLines.{last_text};
ghost use Rattle.vcp_core.specs.MachineRun.{CarriesOut, HasCauses, IsThere, PrintsLast, RunsTo, StandsAs};
ghost use Rattle.vcp_core.specs.Shown.{Shows, job_of};

use crate::ending::{Ending, line_ended};
use coded_machine::{
    CycleEnd, Machine, ReleasedRows, RunFault, rows_before_a_wrong_answer_follow_the_graph,
    run_rows,
};
use coded_unit::Unit;
use input_rows::Rows;
use op_graph::Graph;
use run_report::{end_line, graph_stop_line, refused_line};
use signature_table::Table;
use std::alloc::Global;
use vcp_base::{Columns, Memory};
use vcp_inputs::{Code, graph_of};
use vcp_outside::{Failed, Sink};
use vcp_typed::Typed;

/// What is printed of a run first and last. `R` is what is done with its released rows: it prints the
/// line of each, if it has one, and keeps what the last line tells of them.
pub trait Printed<R> {
    /// Its numbers are in their ranges.
    ghost IsSound: { Self → Type 0 };

    /// What is printed first, where the outputs have these names.
    ghost first: { Self → List (List ℕ) → List ℕ };

    /// What is printed last of a machine's run that ended so, by what is kept of its rows and the names of
    /// the outputs.
    ghost last: { Self → R → State → List (List ℕ) → CycleEndOf → List ℕ };

    /// Prints what comes before the first row. After `Failed` a part of it is written.
    fn print_first<O: Sink>(&self, out: &mut O, outputs: &Columns) -> Result<(), Failed>
        ensures { WritesTo (O.seen out.old) (O.seen out.new) (first self.now (map (λ c. c.name) outputs.now)) result };

    /// Prints what comes after the last row of a run that ended so; of one that stopped, the line of that stop comes last. After `Failed`
    /// a part of it is written.
    fn print_last<O: Sink>(
        &self,
        out: &mut O,
        machine: &Machine<'_>,
        outputs: &Columns,
        rows: &R,
        end: &CycleEnd,
    ) -> Result<Ending, Failed>
        requires sound { IsSound self.now }
        requires there { IsThere machine.now.graph end.now }
        requires outputs { length outputs.now ≡ length machine.now.graph.outputs }
        requires table { length machine.now.table.corrections ≡ length machine.now.graph.operations }
        requires whole { (machine.now.answers ≡ []) ⊎ Whole machine.now.graph.operations machine.now.answers }
        ensures { PrintsLast (last self.now rows.now machine.now (map (λ c. c.name) outputs.now) end.now) machine.now.cycles
            machine.now.graph end.now
            (O.seen out.old) (O.seen out.new) result };
}

/// Prints the last line of a graph's run of so many cycles: its end, its stop, or the output that is
/// refused.
pub fn print_end<O: Sink>(
    out: &mut O,
    graph: &Graph,
    outputs: &Columns,
    cycles: u32,
    end: &CycleEnd,
) -> Result<Ending, Failed>
    requires there { IsThere graph.now end.now }
    requires outputs { length outputs.now ≡ length graph.now.outputs }
    ensures { PrintsLast (last_text (map (λ c. c.name) outputs.now) cycles (end_read graph.now end.now) None) cycles graph.now end.now
        (O.seen out.old) (O.seen out.new) result }
{
    match end {
        CycleEnd::Released => line_ended(end_line(out, cycles), Ending::Done),
        CycleEnd::Stopped { op, kind } => line_ended(
            graph_stop_line(out, cycles, *kind, graph, *op),
            Ending::Stopped,
        ),
        CycleEnd::Refused {
            output,
            found,
            expected,
        } => {
            let name = &outputs.at(*output as usize).name;
            line_ended(
                refused_line(out, cycles, name, *found, *expected),
                Ending::Refused,
            )
        }
    }
}

/// Runs the operations of a graph, whose table this is, on the rows that are left, on the unit, and
/// prints of it what `printed` and `released` say. A row that is refused ends the run, and what was printed before it
/// stays. Where there is no memory, some front of all that may be printed was.
pub fn run_printed<U: Unit, O: Sink, R: ReleasedRows, P: Printed<R>>(
    alloc: Global,
    graph: &Graph,
    table: &Table,
    rows: &mut Rows<'_>,
    unit: &mut U,
    out: &mut O,
    printed: &P,
    released: &mut R,
) -> Result<Ending, RunFault>
    requires sound { P.IsSound printed.now }
    requires table { IsTableOf table.now graph.now }
    requires width { length rows.old.types ≡ length graph.now.inputs }
    requires few { length rows.old.rows ≤ most_cycles }
    requires behind { IfSome rows.old.refusal IsOfRecord }
    ensures ran { (s : Subject) (code : CodeOf) (name : List ℕ) (p : Printing) (words : ShownWords) → CarriesOut graph.now table.now rows.old s code →
        Shows (P.first printed.now) R.text (P.last printed.now) R.Keeps released.old (job_of s code rows.old name p words) graph.now →
        RunsTo (job_of s code rows.old name p words)
        (moment (U.seen unit.old) (O.seen out.old)) (moment (U.seen unit.new) (O.seen out.new)) result }
    ensures causes { HasCauses (moment (U.seen unit.old) (O.seen out.old)) (moment (U.seen unit.new) (O.seen out.new)) result }
{
    let _rules = graph.len();
    let _ranges = table.step();
    let outputs = match graph.output_columns(alloc) {
        Ok(outputs) => outputs,
        Err(Memory) => return Err(RunFault::Memory),
    };
    match Machine::new(alloc, graph, table) {
        Ok(mut machine) => run_machine(
            alloc,
            &mut machine,
            &outputs,
            rows,
            unit,
            out,
            printed,
            released,
        ),
        Err(Memory) => Err(RunFault::Memory),
    }
}

/// The same by a machine before its first cycle, with the columns of its graph's outputs.
fn run_machine<U: Unit, O: Sink, R: ReleasedRows, P: Printed<R>>(
    alloc: Global,
    machine: &mut Machine<'_>,
    outputs: &Columns,
    rows: &mut Rows<'_>,
    unit: &mut U,
    out: &mut O,
    printed: &P,
    released: &mut R,
) -> Result<Ending, RunFault>
    requires sound { P.IsSound printed.now }
    requires fresh { machine.old ≡ fresh machine.old.graph machine.old.table }
    requires rules { IsGraph machine.old.graph }
    requires ranges { IsTable machine.old.table }
    requires table { IsTableOf machine.old.table machine.old.graph }
    requires outputs { outputs.now ≡ map (output_column machine.old.graph.names) machine.old.graph.outputs }
    requires width { length rows.old.types ≡ length machine.old.graph.inputs }
    requires few { length rows.old.rows ≤ most_cycles }
    requires behind { IfSome rows.old.refusal IsOfRecord }
    ensures ran { (s : Subject) (code : CodeOf) (name : List ℕ) (p : Printing) (words : ShownWords)
        → CarriesOut machine.old.graph machine.old.table rows.old s code →
        Shows (P.first printed.now) R.text (P.last printed.now) R.Keeps released.old (job_of s code rows.old name p words) machine.old.graph →
        RunsTo (job_of s code rows.old name p words)
        (moment (U.seen unit.old) (O.seen out.old)) (moment (U.seen unit.new) (O.seen out.new)) result }
    ensures causes { HasCauses (moment (U.seen unit.old) (O.seen out.old)) (moment (U.seen unit.new) (O.seen out.new)) result }
{
    // So the rows before a wrong answer are those that are meant.
    rows_before_a_wrong_answer_follow_the_graph();
    match printed.print_first(out, outputs) {
        Ok(()) => {}
        Err(Failed) => return Err(RunFault::Write),
    }
    match run_rows(alloc, machine, rows, unit, out, released) {
        Ok(end) => match printed.print_last(out, machine, outputs, released, &end) {
            Ok(ending) => Ok(ending),
            Err(Failed) => Err(RunFault::Write),
        },
        Err(fault) => Err(fault),
    }
}

/// Runs a program's operations on the rows that are left, on the unit, as words of the code, and prints
/// of it what `printed` and `released` say.
pub fn run_program<U: Unit, O: Sink, R: ReleasedRows, P: Printed<R>>(
    alloc: Global,
    program: &Typed,
    code: Code,
    rows: &mut Rows<'_>,
    unit: &mut U,
    out: &mut O,
    printed: &P,
    released: &mut R,
) -> Result<Ending, RunFault>
    requires sound { P.IsSound printed.now }
    requires types { rows.old.types ≡ input_types program.now.slots }
    requires typed { All (AreIn rows.old.types) rows.old.rows }
    requires few { length rows.old.rows ≤ most_cycles }
    requires behind { IfSome rows.old.refusal IsOfRecord }
    requires code { IsCode (as_code code) }
    ensures ran { (s : Subject) (name : List ℕ) (p : Printing) (words : ShownWords) → StandsAs program.now rows.old s →
        ((g : Lists) → Shows (P.first printed.now) R.text (P.last printed.now) R.Keeps released.old (job_of s (as_code code) rows.old name p words) g) →
        RunsTo (job_of s (as_code code) rows.old name p words)
        (moment (U.seen unit.old) (O.seen out.old)) (moment (U.seen unit.new) (O.seen out.new)) result }
    ensures causes { HasCauses (moment (U.seen unit.old) (O.seen out.old)) (moment (U.seen unit.new) (O.seen out.new)) result }
{
    let graph = match graph_of(alloc, program) {
        Ok(graph) => graph,
        Err(Memory) => return Err(RunFault::Memory),
    };
    match Table::new(alloc, &graph, code.seed, code.step) {
        Ok(table) => run_printed(alloc, &graph, &table, rows, unit, out, printed, released),
        Err(Memory) => Err(RunFault::Memory),
    }
}
