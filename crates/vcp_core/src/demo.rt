//! The command `demo`, up to the line of its fault.

ghost use Rattle.std.specs.Prelude.{◌≡◌, ℕ, None, Ok, [], List, map};
ghost use Rattle.vcp_inputs.specs.Forms.{demo};
ghost use Rattle.vcp_base.specs.Limits.{most_source_bytes};
ghost use Rattle.program_maker.specs.MadeRows.{made_rows};
ghost use Rattle.vcp_inputs.specs.Files.{Loads};
ghost use Rattle.vcp_inputs.specs.Programs.{TypedOf, NotTyped};
ghost use Rattle.vcp_inputs.specs.Abouts.{about, made_name};
ghost use Rattle.vcp_inputs.specs.Performing.{Performs};
ghost use Rattle.vcp_outside.specs.Seen.{FilesSeen};
ghost use Rattle.coded_machine.specs.Moments.{moment};
ghost use Rattle.vcp_core.specs.Demo.{DemoTask, KeepsSums, first_value as first_value_of, made_held, summed_text};
ghost use Rattle.vcp_core.specs.Reach.{told_line, told_status};

use crate::ending::{Ending, line_ended, run_ended};
use crate::fault::Fault;
use crate::loading::input_columns;
use crate::opening::open;
use crate::printed::{Printed, print_end, run_program};
use coded_machine::{CycleEnd, Machine, ReleasedRows};
use coded_unit::Unit;
use input_rows::RowsSource;
use program_maker::make;
use run_report::summary_line;
use std::alloc::Global;
use vcp_base::{Columns, Memory, Row, Text};
use vcp_inputs::{DEFAULT_CODE, HowOften, typed_of};
use vcp_outside::{Failed, Sink};
use vcp_typed::Typed;

/// The name by which lines tell the made source and its rows.
const MADE: &[u8] = b"demo";

/// Of the rows that were released, the last value of the first output and the sum of all its values.
/// Nothing is written for a row.
#[derive(Drop)]
struct Sums {
    last: i64,
    sum: i128,
}

impl ReleasedRows for Sums {
    ghost text = { λ _ _. [] };

    ghost Keeps = { λ sums rows. KeepsSums sums.last sums.sum rows };

    fn take<O: Sink>(&mut self, _out: &mut O, _cycle: u32, outputs: &Row) -> Result<(), Failed> {
        let value = first_value(outputs);
        self.last = value;
        // It fits: a run has at most a million cycles, and a value 64 bits.
        self.sum = self.sum.saturating_add(value as i128);
        Ok(())
    }
}

/// The value of the first output in a row; 0 where there is none.
fn first_value(outputs: &Row) -> i64
    ensures { result ≡ first_value_of outputs.now }
{
    if outputs.len() > 0 { outputs.at(0) } else { 0 }
}

/// The line that sums up the run of the made program of a number, or that of an early end.
#[derive(Drop)]
struct SummedUp {
    /// The number.
    number: u32,
}

impl Printed<Sums> for SummedUp {
    ghost IsSound = { λ _. Unit {0} };

    ghost first = { λ _ _. [] };

    ghost last = { λ summed sums m names e. summed_text m names summed.number sums.last sums.sum e };

    fn print_first<O: Sink>(&self, _out: &mut O, _outputs: &Columns) -> Result<(), Failed> {
        Ok(())
    }

    fn print_last<O: Sink>(
        &self,
        out: &mut O,
        machine: &Machine<'_>,
        outputs: &Columns,
        sums: &Sums,
        end: &CycleEnd,
    ) -> Result<Ending, Failed> {
        let cycles = machine.cycles();
        match end {
            CycleEnd::Released => line_ended(
                summary_line(out, self.number, cycles, sums.last, sums.sum),
                Ending::Done,
            ),
            CycleEnd::Stopped { .. } | CycleEnd::Refused { .. } => {
                print_end(out, machine.graph(), outputs, cycles, end)
            }
        }
    }
}

/// Does what the words `demo N` say, and writes to `out` alone: the source and the rows of the number
/// are made and taken through their refusals, and then the program's operations are run on the rows, on
/// the unit, and the run is summed up. No file is read.
pub fn demo_command<'a, U: Unit, O: Sink>(
    alloc: Global,
    number: u32,
    unit: &mut U,
    out: &mut O,
) -> Result<Ending, Fault<'a>>
    ensures { (files : FilesSeen) → Performs (about (demo number)) (λ h. DemoTask number) files files
        (moment (U.seen unit.old) (O.seen out.old)) (moment (U.seen unit.new) (O.seen out.new)) (told_line result) (told_status result) }
{
    let made = match make(alloc, number) {
        Ok(made) => made,
        Err(Memory) => return Err(Fault::Memory),
    };
    match typed_of(alloc, &made.source, HowOften::Twice) {
        Ok(program) => run_made(alloc, number, &program, made.rows, unit, out),
        Err(input) => Err(Fault::Input { name: MADE, input }),
    }
}

/// Runs the made program of a number, which was checked, on the made rows.
fn run_made<'a, U: Unit, O: Sink>(
    alloc: Global,
    number: u32,
    program: &Typed,
    rows: Text,
    unit: &mut U,
    out: &mut O,
) -> Result<Ending, Fault<'a>>
    requires typed { (broken : ℕ) → Loads TypedOf NotTyped (made_held number) made_name most_source_bytes broken broken (Ok program.now) }
    requires rows { rows ≡ made_rows number }
    ensures { (files : FilesSeen) → Performs (about (demo number)) (λ h. DemoTask number) files files
        (moment (U.seen unit.old) (O.seen out.old)) (moment (U.seen unit.new) (O.seen out.new)) (told_line result) (told_status result) }
{
    let columns = match input_columns(alloc, program) {
        Ok(columns) => columns,
        Err(Memory) => return Err(Fault::Memory),
    };
    let source = RowsSource::File(rows);
    match open(alloc, &source, &columns) {
        Ok(mut rows) => run_ended(
            MADE,
            run_program(
                alloc,
                program,
                DEFAULT_CODE,
                &mut rows,
                unit,
                out,
                &SummedUp { number },
                &mut Sums { last: 0, sum: 0 },
            ),
        ),
        Err(input) => Err(Fault::Input { name: MADE, input }),
    }
}
