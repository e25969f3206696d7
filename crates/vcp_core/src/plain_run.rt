//! The printing of a program's own run, cycle by cycle, as the rows come.

ghost use Rattle.std.specs.Prelude.{◌≡◌, ◌≢◌, ◌+◌, ◌≤◌, None, Ok, Err, IfOk, true, false, length, All};
ghost use Rattle.vcp_base.specs.Limits.{most_cycles};
ghost use Rattle.vcp_base.specs.Types.{AreIn};
ghost use Rattle.vcp_outside.specs.Counts.{Rose};
ghost use Rattle.vcp_outside.specs.Written.{WritesTo};
ghost use Rattle.vcp_typed.specs.Checked.{IsChecked};
ghost use Rattle.vcp_typed.specs.Fitting.{AreFit, input_types, output_columns, output_types};
ghost use Rattle.vcp_typed.specs.Meaning.{Stop as StopOf};
ghost use Rattle.vcp_typed.specs.SourceRun.{cycle as cycle_of};
ghost use Rattle.flat_expr.specs.Told.{names_of};
ghost use Rattle.vcp_core.specs.PlainRun.{Prints, PrintsFrom, cycle_line};
ghost use Rattle.coded_machine.specs.declared.rows.fault.RunFault.TheVariants as fault;

use crate::ending::Ending;
use coded_machine::RunFault;
use input_rows::{RowReader, Rows};
use run_report::{end_line, header_line, row_line, stop_line};
use st_plain::Plain;
use std::alloc::Global;
use vcp_base::{Columns, Memory, Row, Words};
use vcp_outside::{Failed, Sink};
use vcp_typed::{Slot, Typed, turns_name_slots, values_fit};

/// The names of all slots, in order of declaration.
fn slot_names(alloc: Global, slots: &[Slot]) -> Result<Words, Memory>
    ensures { IfOk result (λ names. names ≡ names_of slots.now) }
{
    let mut names = Words::new(alloc);
    'each: for slot in slots {
        names.push(slot.name.bytes())?;
    }
    Ok(names)
}

/// Does a cycle on a row of inputs, and prints its line: the row of outputs, or the stop. It answers
/// whether the run goes on.
fn print_cycle<O: Sink>(
    plain: &mut Plain<'_>,
    cycle: u32,
    names: &Words,
    inputs: &Row,
    outputs: &mut Row,
    out: &mut O,
) -> Result<bool, Failed>
    requires going { plain.old.stop ≡ None }
    requires checked { IsChecked plain.old.program }
    requires fit { AreFit plain.old.program.slots plain.old.values }
    requires names { names.now ≡ names_of plain.old.program.slots }
    requires row { AreIn (input_types plain.old.program.slots) inputs.now }
    requires cells { length outputs.old ≡ length (output_types plain.old.program.slots) }
    ensures program { plain.new.program ≡ plain.old.program }
    ensures line { WritesTo (O.seen out.old) (O.seen out.new)
        (cycle_line plain.old.program.slots cycle (cycle_of plain.old.program plain.old.values inputs.now)) result }
    ensures going { IfOk result (λ more. more ≡ true → plain.new.stop ≡ None) }
    ensures values { IfOk result (λ more. more ≡ true → cycle_of plain.old.program plain.old.values inputs.now ≡ Ok plain.new.values) }
    ensures fit { IfOk result (λ more. more ≡ true → AreFit plain.old.program.slots plain.new.values) }
    ensures cells { IfOk result (λ more. more ≡ true → length outputs.new ≡ length outputs.old) }
    ensures stopped { IfOk result (λ more. more ≡ false → (s : StopOf) × (cycle_of plain.old.program plain.old.values inputs.now ≡ Err s)) }
{
    values_fit();
    turns_name_slots();
    match plain.cycle(inputs, outputs) {
        Ok(()) => match row_line(out, cycle, outputs) {
            Ok(()) => Ok(true),
            Err(Failed) => Err(Failed),
        },
        Err(stop) => match stop_line(out, cycle, stop.kind, stop.spot, plain.turns(), names) {
            Ok(()) => Ok(false),
            Err(Failed) => Err(Failed),
        },
    }
}

/// Prints the lines of the cycles, one for each row, up to a stop; and after the last row the number of
/// the cycles.
fn print_cycles<O: Sink>(
    alloc: Global,
    plain: &mut Plain<'_>,
    names: &Words,
    rows: &mut Rows<'_>,
    inputs: &mut Row,
    outputs: &mut Row,
    out: &mut O,
) -> Result<Ending, RunFault>
    requires going { plain.old.stop ≡ None }
    requires checked { IsChecked plain.old.program }
    requires fit { AreFit plain.old.program.slots plain.old.values }
    requires names { names.now ≡ names_of plain.old.program.slots }
    requires types { rows.old.types ≡ input_types plain.old.program.slots }
    requires typed { All (AreIn rows.old.types) rows.old.rows }
    requires few { length rows.old.rows ≤ most_cycles }
    requires inputs { length inputs.old ≡ length (input_types plain.old.program.slots) }
    requires outputs { length outputs.old ≡ length (output_types plain.old.program.slots) }
    ensures prints { PrintsFrom plain.old.program 0 plain.old.values rows.old (O.seen out.old).written (O.seen out.new).written result }
    ensures write { result ≡ Err fault.Write → Rose (O.seen out.old).faults (O.seen out.new).faults }
    ensures stayed { result ≢ Err fault.Write → (O.seen out.new).faults ≡ (O.seen out.old).faults }
{
    let mut count: u32 = 0;
    'cycles: while rows.next(alloc, inputs)? {
        match print_cycle(plain, count, names, inputs, outputs, out) {
            Ok(true) => count += 1,
            Ok(false) => return Ok(Ending::Stopped),
            Err(Failed) => return Err(RunFault::Write),
        }
    }
    match end_line(out, count) {
        Ok(()) => Ok(Ending::Done),
        Err(Failed) => Err(RunFault::Write),
    }
}

/// Prints a program's own run on the rows that are left: the header, a line for each cycle as its row
/// comes, and the stop or the end. A row that is refused ends the run, and what was printed before it
/// stays. Where there is no memory, some front of all that may be printed was.
pub fn print_run<O: Sink>(
    alloc: Global,
    program: &Typed,
    rows: &mut Rows<'_>,
    out: &mut O,
) -> Result<Ending, RunFault>
    requires types { rows.old.types ≡ input_types program.now.slots }
    requires typed { All (AreIn rows.old.types) rows.old.rows }
    requires few { length rows.old.rows ≤ most_cycles }
    ensures prints { Prints program.now rows.old (O.seen out.old).written (O.seen out.new).written result }
    ensures write { result ≡ Err fault.Write → Rose (O.seen out.old).faults (O.seen out.new).faults }
    ensures stayed { result ≢ Err fault.Write → (O.seen out.new).faults ≡ (O.seen out.old).faults }
{
    let columns = match program.output_columns(alloc) {
        Ok(columns) => columns,
        Err(Memory) => return Err(RunFault::Memory),
    };
    match slot_names(alloc, &program.slots().items) {
        Ok(names) => print_named(alloc, program, &columns, &names, rows, out),
        Err(Memory) => Err(RunFault::Memory),
    }
}

/// The same under the columns of the program's outputs and the names of its slots.
fn print_named<O: Sink>(
    alloc: Global,
    program: &Typed,
    columns: &Columns,
    names: &Words,
    rows: &mut Rows<'_>,
    out: &mut O,
) -> Result<Ending, RunFault>
    requires checked { IsChecked program.now }
    requires columns { columns.now ≡ output_columns program.now.slots }
    requires names { names.now ≡ names_of program.now.slots }
    requires types { rows.old.types ≡ input_types program.now.slots }
    requires typed { All (AreIn rows.old.types) rows.old.rows }
    requires few { length rows.old.rows ≤ most_cycles }
    ensures prints { Prints program.now rows.old (O.seen out.old).written (O.seen out.new).written result }
    ensures write { result ≡ Err fault.Write → Rose (O.seen out.old).faults (O.seen out.new).faults }
    ensures stayed { result ≢ Err fault.Write → (O.seen out.new).faults ≡ (O.seen out.old).faults }
{
    values_fit();
    let mut inputs = match Row::zeros(alloc, rows.width()) {
        Ok(row) => row,
        Err(Memory) => return Err(RunFault::Memory),
    };
    let mut outputs = match Row::zeros(alloc, columns.len() as u32) {
        Ok(row) => row,
        Err(Memory) => return Err(RunFault::Memory),
    };
    match Plain::new(alloc, program) {
        Ok(mut plain) => match header_line(out, columns) {
            Ok(()) => print_cycles(
                alloc,
                &mut plain,
                names,
                rows,
                &mut inputs,
                &mut outputs,
                out,
            ),
            Err(Failed) => Err(RunFault::Write),
        },
        Err(Memory) => Err(RunFault::Memory),
    }
}
