//! The commands `plain`, `run` and `il`: a program's run on its rows.

ghost use Rattle.std.specs.Prelude.{ℕ, List};
ghost use Rattle.vcp_outside.specs.Seen.{FilesSeen};
ghost use Rattle.vcp_inputs.specs.Forms.{program_run, rows_of};
ghost use Rattle.vcp_inputs.specs.Abouts.{about};
ghost use Rattle.vcp_inputs.specs.Performing.{Performs};
ghost use Rattle.coded_machine.specs.Moments.{moment};
ghost use Rattle.vcp_core.specs.ProgramsRead.{language_of, AreProgramRows, IsCoded, ProgramRowsRead};
ghost use Rattle.vcp_core.specs.Tasks.{TaskOf};
ghost use Rattle.vcp_core.specs.Reach.{told_line, told_status};

use crate::ending::{Ending, run_ended};
use crate::every_row::{EveryRow, RowLines};
use crate::fault::Fault;
use crate::opening::open;
use crate::plain_run::print_run;
use crate::printed::run_program;
use crate::program_rows::ProgramRows;
use coded_unit::Unit;
use std::alloc::Global;
use vcp_inputs::{ProgramRun, RowsWord, lists_are_told, rows_name};
use vcp_outside::Sink;

/// Writes a program's own run on its rows, once both were read; or runs its operations on them, on the unit, and prints each row.
pub fn run_rows<'a, U: Unit, O: Sink>(
    alloc: Global,
    loaded: &ProgramRows,
    rows: RowsWord<'a>,
    run: ProgramRun,
    unit: &mut U,
    out: &mut O,
) -> Result<Ending, Fault<'a>>
    requires fit { AreProgramRows loaded.now }
    requires code { IsCoded run }
    ensures { (p : List ℕ) (files later : FilesSeen) → ProgramRowsRead (language_of run) p (rows_of rows.entry) files later loaded.now →
        Performs (about (program_run p (rows_of rows.entry) run)) (TaskOf (program_run p (rows_of rows.entry) run)) files later
        (moment (U.seen unit.old) (O.seen out.old)) (moment (U.seen unit.new) (O.seen out.new)) (told_line result) (told_status result) }
{
    // So what is run of an instruction list is the list on the accumulator.
    lists_are_told();
    let name = rows_name(rows);
    match open(alloc, &loaded.rows, &loaded.columns) {
        Ok(mut rows) => match run {
            ProgramRun::Plain => run_ended(name, print_run(alloc, &loaded.program, &mut rows, out)),
            ProgramRun::Run(code) | ProgramRun::Il(code) => run_ended(
                name,
                run_program(
                    alloc,
                    &loaded.program,
                    code,
                    &mut rows,
                    unit,
                    out,
                    &EveryRow,
                    &mut RowLines,
                ),
            ),
        },
        Err(input) => Err(Fault::Input { name, input }),
    }
}
