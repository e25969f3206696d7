//! The command `format`, up to the line of its fault.

ghost use Rattle.std.specs.Prelude.{List, Option, ℕ};
ghost use Rattle.vcp_inputs.specs.Forms.{format};
ghost use Rattle.vcp_inputs.specs.Abouts.{about};
ghost use Rattle.vcp_inputs.specs.Performing.{Performs};
ghost use Rattle.coded_unit.specs.Seen.{UnitSeen};
ghost use Rattle.coded_machine.specs.Moments.{moment};
ghost use Rattle.vcp_core.specs.Tasks.{TaskOf};
ghost use Rattle.vcp_core.specs.Reach.{told_line, told_status};

use crate::ending::{Ending, text_ended};
use crate::fault::Fault;
use st_writer::write_program;
use std::alloc::Global;
use vcp_base::{Memory, Text};
use vcp_inputs::load_program;
use vcp_outside::{Files, Sink, write_all};

/// Does what the words `format P` say, and writes to `out` alone: P is read whole and
/// checked, but for its types, and then its canonical text is written.
pub fn format_command<'a, F: Files, O: Sink>(
    alloc: Global,
    source: &'a Text,
    files: &mut F,
    out: &mut O,
) -> Result<Ending, Fault<'a>>
    ensures { (unit : UnitSeen) → Performs (about (format source.now)) (TaskOf (format source.now))
        (F.seen files.old) (F.seen files.new) (moment unit (O.seen out.old)) (moment unit (O.seen out.new))
        (told_line result) (told_status result) }
{
    match load_program(alloc, files, source) {
        Ok(program) => match write_program(alloc, &program) {
            Ok(text) => text_ended(write_all(out, text.bytes())),
            Err(Memory) => Err(Fault::Memory),
        },
        Err(input) => Err(Fault::Input {
            name: source.bytes(),
            input,
        }),
    }
}
