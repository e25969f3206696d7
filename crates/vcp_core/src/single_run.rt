//! The commands `exec`, `trace` and `pair`: one run of an image's operations.

ghost use Rattle.std.specs.Prelude.{◌≢◌, IfSome};
ghost use Rattle.vcp_outside.specs.Seen.{FilesSeen};
ghost use Rattle.vcp_inputs.specs.Forms.{rows_of, single_run};
ghost use Rattle.coded_machine.specs.Moments.{moment};
ghost use Rattle.vcp_core.specs.ImagesRead.{second_of_single, AreImageRows, IsInRange, PerformsOn};
ghost use Rattle.vcp_core.specs.Reach.{told_line, told_status};

use crate::channels::run_channels;
use crate::ending::{Ending, run_ended};
use crate::every_row::{EveryRow, RowLines};
use crate::fault::Fault;
use crate::image_rows::ImageRows;
use crate::opening::open;
use crate::printed::run_printed;
use crate::tracing::{EachWord, NoRows};
use coded_machine::right_answers_stand_for_values;
use coded_unit::Unit;
use std::alloc::Global;
use vcp_inputs::{RowsWord, SingleRun, rows_name};
use vcp_outside::Sink;

/// Runs the operations of an image on its rows, once both were read, on the unit: and prints each row, or the words of one cycle. Or
/// runs them on two channels, of which the second has another seed.
pub fn run_image<'a, U: Unit, O: Sink>(
    alloc: Global,
    loaded: &ImageRows,
    rows: RowsWord<'a>,
    run: SingleRun,
    unit: &mut U,
    out: &mut O,
) -> Result<Ending, Fault<'a>>
    requires fit { AreImageRows loaded.now }
    requires range { IsInRange run }
    requires apart { IfSome (second_of_single run) (λ seed. seed ≢ loaded.now.image.table.seed) }
    ensures { (files : FilesSeen) → PerformsOn (λ m. single_run m (rows_of rows.entry) run) (rows_of rows.entry) loaded.now files files
        (moment (U.seen unit.old) (O.seen out.old)) (moment (U.seen unit.new) (O.seen out.new)) (told_line result) (told_status result) }
{
    // So the words of an honest unit are those that are meant.
    right_answers_stand_for_values();
    let _rules = loaded.image.graph.len();
    let _ranges = loaded.image.table.step();
    let name = rows_name(rows);
    match open(alloc, &loaded.rows, &loaded.columns) {
        Ok(mut rows) => match run {
            SingleRun::Exec => run_ended(
                name,
                run_printed(
                    alloc,
                    &loaded.image.graph,
                    &loaded.image.table,
                    &mut rows,
                    unit,
                    out,
                    &EveryRow,
                    &mut RowLines,
                ),
            ),
            SingleRun::Trace { cycle } => run_ended(
                name,
                run_printed(
                    alloc,
                    &loaded.image.graph,
                    &loaded.image.table,
                    &mut rows.through(cycle),
                    unit,
                    out,
                    &EachWord { cycle },
                    &mut NoRows,
                ),
            ),
            SingleRun::Pair { seed } => run_ended(
                name,
                run_channels(alloc, &loaded.image, seed, &mut rows, unit, out),
            ),
        },
        Err(input) => Err(Fault::Input { name, input }),
    }
}
