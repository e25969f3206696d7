//! The command `waves`, up to the line of its fault.

ghost use Rattle.vcp_study_core.specs.CarriedOut.{Studies, WritesSo, told_line, told_status};
ghost use Rattle.vcp_study_core.specs.Forms.{waves};
ghost use Rattle.vcp_study_core.specs.Tasks.{TaskOf};
ghost use Rattle.vcp_study_core.specs.Texts.{Waves};

use crate::fault::{Fault, StudyRefusal, told};
use crate::loading::bytes_under;
use pictures::{Period, RunTextFault, read_run, write_waves};
use std::alloc::Global;
use vcp_base::{MOST_ROWS_BYTES, Text};
use vcp_outside::{Files, Sink};

/// Writes the timing diagram of the run that the text of the file under a name tells. It looks for nothing: `false`.
fn draw_run<'a, O: Sink>(
    alloc: Global,
    name: &'a Text,
    text: &[u8],
    period: Option<Period>,
    out: &mut O,
) -> Result<bool, Fault<'a>>
    ensures { WritesSo (Waves period name.now text.now) (O.seen out.old) (O.seen out.new) (told_line result) (told_status result) }
{
    match read_run(alloc, text) {
        Ok(recorded) => told(write_waves(out, &recorded, period), false),
        Err(RunTextFault::Memory) => Err(Fault::Memory),
        Err(why) => Err(Fault::Refused {
            name: name.bytes(),
            why: StudyRefusal::Run(why),
        }),
    }
}

/// Does what the words `waves FILE`, or `waves FILE --cycle-time TIME`, say, and writes to `out` alone: FILE is read whole, of at most
/// 67,108,864 bytes, and the timing diagram of its run is written, with the times of its cycles where TIME is said.
pub(crate) fn waves_command<'a, F: Files, O: Sink>(
    alloc: Global,
    file: &'a Text,
    period: Option<Period>,
    files: &mut F,
    out: &mut O,
) -> Result<bool, Fault<'a>>
    ensures { Studies (TaskOf (waves file.now period)) (F.seen files.old) (F.seen files.new) (O.seen out.old) (O.seen out.new) (told_line result) (told_status result) }
{
    match bytes_under(alloc, files, file, MOST_ROWS_BYTES) {
        Ok(text) => draw_run(alloc, file, text.bytes(), period, out),
        Err(why) => Err(why),
    }
}
