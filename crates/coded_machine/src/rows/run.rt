//! The loop over the cycles of a run.

ghost use Rattle.std.specs.Prelude.{◌≡◌, ◌≢◌, ◌<◌, ◌≤◌, ◌+◌, ◌++◌, ℕ, ℤ, List, None, false, true, Ok, Err, OnOk, length};
ghost use Rattle.vcp_base.specs.Limits.{most_cycles};
ghost use Rattle.vcp_base.specs.declared.kind.StopKind.{StopKind};
ghost use Rattle.vcp_outside.specs.Counts.{Rose};
ghost use Rattle.vcp_outside.specs.Written.{WritesTo};
ghost use Rattle.coded_machine.specs.CycleEnds.{Cause, outputs_of};
ghost use Rattle.coded_machine.specs.Runs.{Turn, row_if};
ghost use Rattle.coded_machine.specs.State.{fresh};
ghost use Rattle.coded_machine.specs.declared.cycle_end.CycleEnd.TheVariants as end;
ghost use Rattle.coded_machine.specs.Cycles.{cycle_end};
ghost use Rattle.coded_machine.specs.Leaves.{Leaves};
ghost use Rattle.coded_machine.specs.Moments.{moment};
ghost use Rattle.coded_machine.specs.RowRuns.{RunsRows, texts_from};
ghost use Rattle.coded_machine.specs.Stops.{GrowsToStop};
ghost use Rattle.coded_machine.specs.declared.rows.fault.RunFault.TheVariants as fault;

use crate::rows::fault::RunFault;
use crate::rows::released::ReleasedRows;
use crate::{CycleEnd, Machine, honest_runs_follow_the_graph, runs_follow_their_answers};
use coded_unit::Unit;
use input_rows::RowReader;
use op_graph::entries_keep_their_rules;
use std::alloc::Global;
use vcp_base::Row;
use vcp_outside::{Failed, Sink};

/// Whether a count is one more than it was. It is after a release, says the proof; where the processor erred, it may not be.
#[inline(always)]
fn is_next(before: u32, after: u32) -> bool
    requires few { before < most_cycles }
    requires next { after ≡ before + 1 }
    ensures { result ≡ true }
{
    after == before + 1
}

/// Carries one cycle of a machine, and hands on its outputs where they are released. It answers how the
/// cycle ended, or that the outputs of a released cycle couldn't be written.
fn run_cycle<U: Unit, O: Sink, R: ReleasedRows>(
    machine: &mut Machine<'_>,
    inputs: &Row,
    outputs: &mut Row,
    unit: &mut U,
    out: &mut O,
    released: &mut R,
) -> Result<CycleEnd, Failed>
    requires going { machine.old.ended ≡ None }
    requires between { machine.old.under_way ≡ false }
    requires few { machine.old.cycles < most_cycles }
    requires width { length outputs.old ≡ length machine.old.graph.outputs }
    ensures turn { Turn machine.old machine.new inputs.now (cycle_end result) (U.seen unit.old).log (U.seen unit.new).log (U.seen unit.old).wrong (U.seen unit.new).wrong }
    ensures cause { Cause machine.old.graph machine.old.table machine.old.cycles machine.new.answers (cycle_end result) }
    ensures between { machine.new.under_way ≡ false }
    ensures written { WritesTo (O.seen out.old) (O.seen out.new)
        (texts_from R.text machine.old.cycles (row_if (cycle_end result) (outputs_of machine.old.graph machine.new.answers))) result }
    ensures kept { (rows : List (List ℤ)) → R.Keeps released.old rows
        → OnOk result (R.Keeps released.new (rows ++ row_if (cycle_end result) (outputs_of machine.old.graph machine.new.answers))) }
    ensures width { length outputs.new ≡ length outputs.old }
{
    let cycle = machine.cycles();
    match machine.cycle(unit, inputs, outputs) {
        CycleEnd::Released => {
            if !is_next(cycle, machine.cycles()) {
                return Err(Failed);
            }
            released.take(out, cycle, outputs)?;
            Ok(CycleEnd::Released)
        }
        end => Ok(end),
    }
}

/// Runs a machine that made no cycle yet over the rows that are left, one cycle a row, up to the first
/// cycle that isn't released or the first row that is refused. The outputs of each released cycle are
/// handed on before the next row is taken. It answers how the last cycle ended; where the rows ended,
/// `Released`.
///
/// Where a row is refused, or memory is wanted for it, the cycles of the rows before it remain. After
/// `Write` a part of the last cycle's text is written.
///
/// For every unit a kept log grew by exactly the calls of these cycles with the unit's answers, and the end
/// that is answered and the rows that were handed on are those that the answers give. `Write` comes only
/// where the sink's count rose, which else is as it was, with all of the text of the cycles before the last
/// one. Where no answer was wrong, the rows and the end are those of the graph's run on plain integers over the same rows, and of a
/// run that was given up a front of them. The machine has the same graph and table then, counts the cycles
/// that were released, is between two cycles, and its answers are those of the last one. A stop is answered
/// only where a kept log ends in that stop, in the cycle after those that the machine counts; a refused
/// output only where the unit's count of wrong answers rose.
pub fn run_rows<S: RowReader, U: Unit, O: Sink, R: ReleasedRows>(
    alloc: Global,
    machine: &mut Machine<'_>,
    rows: &mut S,
    unit: &mut U,
    out: &mut O,
    released: &mut R,
) -> Result<CycleEnd, RunFault>
    requires fresh { machine.old ≡ fresh machine.old.graph machine.old.table }
    requires few { length (S.left rows.old).rows ≤ most_cycles }
    requires width { length (S.left rows.old).types ≡ length machine.old.graph.inputs }
    ensures runs { RunsRows machine.old.graph machine.old.table (S.left rows.old) R.text
        (moment (U.seen unit.old) (O.seen out.old))
        (moment (U.seen unit.new) (O.seen out.new)) result }
    ensures leaves { Leaves machine.old.graph machine.old.table (S.left rows.old) R.text
        (moment (U.seen unit.old) (O.seen out.old))
        (moment (U.seen unit.new) (O.seen out.new))
        (R.Keeps released.old) (R.Keeps released.new) machine.new result }
    ensures later { (O.seen out.old).faults ≤ (O.seen out.new).faults }
    ensures stayed { result ≢ Err fault.Write → (O.seen out.new).faults ≡ (O.seen out.old).faults }
    ensures stopped { (k : ℕ) (why : StopKind) → result ≡ Ok (end.Stopped k why)
        → GrowsToStop (U.seen unit.old).log (U.seen unit.new).log machine.new.cycles k why }
    ensures placed { (k : ℕ) (why : StopKind) → result ≡ Ok (end.Stopped k why) → k < length machine.old.graph.operations }
    ensures refused { (i found expected : ℕ) → result ≡ Ok (end.Refused i found expected) → Rose (U.seen unit.old).wrong (U.seen unit.new).wrong }
    ensures numbered { (i found expected : ℕ) → result ≡ Ok (end.Refused i found expected) → i < length machine.old.graph.outputs }
{
    // What the laws below and these calls ensure is known of each cycle.
    runs_follow_their_answers();
    honest_runs_follow_the_graph();
    entries_keep_their_rules();
    let graph = machine.graph();
    let _operations = graph.len();
    let _step = machine.table().step();
    let mut inputs = Row::zeros(alloc, graph.inputs())?;
    let mut outputs = Row::zeros(alloc, graph.outputs())?;
    'cycles: while rows.next(alloc, &mut inputs)? {
        match run_cycle(machine, &inputs, &mut outputs, unit, out, released)? {
            CycleEnd::Released => {}
            end => return Ok(end),
        }
    }
    Ok(CycleEnd::Released)
}
