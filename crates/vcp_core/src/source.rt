//! The commands `check` and `compile`, up to the line of their fault.

ghost use Rattle.coded_unit.specs.Seen.{UnitSeen};
ghost use Rattle.coded_machine.specs.Moments.{moment};
ghost use Rattle.vcp_outside.specs.Written.{WritesTo};
ghost use Rattle.vcp_inputs.specs.Forms.{source_text, IsSound};
ghost use Rattle.vcp_inputs.specs.Abouts.{about};
ghost use Rattle.vcp_inputs.specs.Performing.{Performs};
ghost use Rattle.vcp_core.specs.Tasks.{ok_text, TaskOf};
ghost use Rattle.vcp_core.specs.Reach.{told_line, told_status};

use crate::ending::{Ending, text_ended};
use crate::fault::Fault;
use std::alloc::Global;
use vcp_base::{Memory, Text};
use vcp_inputs::{HowOften, SourceText, image_for, load_typed};
use vcp_outside::{Failed, Files, LinePen, Pen, Sink, write_all};

/// A program that is one of the language, with its Size.
fn ok_line<O: Sink>(out: &mut O, size: u32) -> Result<(), Failed>
    ensures { WritesTo (O.seen out.old) (O.seen out.new) (ok_text size) result }
{
    LinePen::new(out).text(b"ok ").count(size as u64).end()
}

/// Does what the words `check P` or `compile P CODE` say, and writes to `out` alone: P is read whole and checked, and then the Size of its program
/// is written, or the image of its operations, with the numbers of the code.
pub fn source_command<'a, F: Files, O: Sink>(
    alloc: Global,
    source: &'a Text,
    text: SourceText,
    files: &mut F,
    out: &mut O,
) -> Result<Ending, Fault<'a>>
    requires sound { IsSound (source_text source.now text) }
    ensures { (unit : UnitSeen) → Performs (about (source_text source.now text)) (TaskOf (source_text source.now text))
        (F.seen files.old) (F.seen files.new) (moment unit (O.seen out.old)) (moment unit (O.seen out.new))
        (told_line result) (told_status result) }
{
    let how_often = match text {
        SourceText::Size => HowOften::Once,
        SourceText::Image(_) => HowOften::Twice,
    };
    let program = match load_typed(alloc, files, source, how_often) {
        Ok(program) => program,
        Err(input) => {
            return Err(Fault::Input {
                name: source.bytes(),
                input,
            });
        }
    };
    match text {
        SourceText::Size => text_ended(ok_line(out, program.size())),
        SourceText::Image(code) => match image_for(alloc, &program, code) {
            Ok(image) => text_ended(write_all(out, image.bytes())),
            Err(Memory) => Err(Fault::Memory),
        },
    }
}
