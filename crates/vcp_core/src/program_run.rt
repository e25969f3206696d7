//! The commands that run a program on ROWS, `plain`, `run` and `il`, up to the line of their fault.

ghost use Rattle.coded_machine.specs.Moments.{moment};
ghost use Rattle.vcp_inputs.specs.Forms.{program_run, rows_of, IsSound};
ghost use Rattle.vcp_inputs.specs.Abouts.{about};
ghost use Rattle.vcp_inputs.specs.Performing.{Performs};
ghost use Rattle.vcp_core.specs.Tasks.{TaskOf};
ghost use Rattle.vcp_core.specs.Reach.{told_line, told_status};

use crate::ending::Ending;
use crate::fault::Fault;
use crate::program_rows::{load_program, load_program_rows};
use crate::run::run_rows;
use coded_unit::Unit;
use std::alloc::Global;
use vcp_base::Text;
use vcp_inputs::{ProgramRun, RowsWord};
use vcp_outside::{Files, Sink};

/// Does what a command says that runs the program P on ROWS, and writes to `out` alone: P is read whole and checked, then ROWS, and then its
/// own run is written, or its operations are run on the unit.
pub fn program_run_command<'a, F: Files, U: Unit, O: Sink>(
    alloc: Global,
    source: &'a Text,
    rows: RowsWord<'a>,
    run: ProgramRun,
    files: &mut F,
    unit: &mut U,
    out: &mut O,
) -> Result<Ending, Fault<'a>>
    requires sound { IsSound (program_run source.now (rows_of rows) run) }
    ensures { Performs (about (program_run source.now (rows_of rows.entry) run)) (TaskOf (program_run source.now (rows_of rows.entry) run))
        (F.seen files.old) (F.seen files.new) (moment (U.seen unit.old) (O.seen out.old)) (moment (U.seen unit.new) (O.seen out.new))
        (told_line result) (told_status result) }
{
    let program = match load_program(alloc, files, source, run) {
        Ok(program) => program,
        Err(fault) => return Err(fault),
    };
    let loaded = match load_program_rows(alloc, files, program, rows) {
        Ok(loaded) => loaded,
        Err(fault) => return Err(fault),
    };
    run_rows(alloc, &loaded, rows, run, unit, out)
}
