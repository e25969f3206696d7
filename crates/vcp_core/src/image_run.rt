//! The commands that run an image on ROWS, `exec`, `trace`, `inject`, `pair` and `pairs`, up to the line of their fault.

ghost use Rattle.std.specs.Prelude.{◌≡◌};
ghost use Rattle.coded_machine.specs.Moments.{moment};
ghost use Rattle.vcp_inputs.specs.Forms.{image_run, rows_of, IsSound};
ghost use Rattle.vcp_inputs.specs.Abouts.{about};
ghost use Rattle.vcp_inputs.specs.Performing.{Performs};
ghost use Rattle.vcp_core.specs.ImagesRead.{second_of as second_of_run};
ghost use Rattle.vcp_core.specs.Tasks.{TaskOf};
ghost use Rattle.vcp_core.specs.Reach.{told_line, told_status};

use crate::ending::Ending;
use crate::fault::Fault;
use crate::image_rows::load_image_rows;
use crate::inject::judge_image;
use crate::single_run::run_image;
use coded_unit::Unit;
use std::alloc::Global;
use vcp_base::Text;
use vcp_inputs::{ImageRun, RowsWord, SingleRun};
use vcp_outside::{Files, Sink};

/// The seed of the second channel, where a run has one.
fn second_of(run: ImageRun<'_>) -> Option<u32>
    ensures { result ≡ second_of_run run.entry }
{
    match run {
        ImageRun::Single(SingleRun::Exec) => None,
        ImageRun::Single(SingleRun::Trace { .. }) => None,
        ImageRun::Single(SingleRun::Pair { seed }) => Some(seed),
        ImageRun::Faults { second, .. } => second,
    }
}

/// Does what a command says that runs the image M on ROWS, and writes to `out` alone: M is read whole and checked, and is refused where the
/// seed of a second channel is its own; then ROWS, and then the operations of its graph are run on the rows.
pub fn image_run_command<'a, F: Files, U: Unit, O: Sink>(
    alloc: Global,
    image: &'a Text,
    rows: RowsWord<'a>,
    run: ImageRun<'a>,
    files: &mut F,
    unit: &mut U,
    out: &mut O,
) -> Result<Ending, Fault<'a>>
    requires sound { IsSound (image_run image.now (rows_of rows) run) }
    ensures { Performs (about (image_run image.now (rows_of rows.entry) run.entry)) (TaskOf (image_run image.now (rows_of rows.entry) run.entry))
        (F.seen files.old) (F.seen files.new) (moment (U.seen unit.old) (O.seen out.old)) (moment (U.seen unit.new) (O.seen out.new))
        (told_line result) (told_status result) }
{
    let loaded = match load_image_rows(alloc, files, image, rows, second_of(run)) {
        Ok(loaded) => loaded,
        Err(fault) => return Err(fault),
    };
    match run {
        ImageRun::Single(single) => run_image(alloc, &loaded, rows, single, unit, out),
        ImageRun::Faults { second, script } => judge_image(
            alloc, &loaded, rows, second, script, files, unit, out,
        ),
    }
}
