//! The commands that print something of an image, `list`, `widen` and `audit`, up to the line of their fault.

ghost use Rattle.coded_unit.specs.Seen.{UnitSeen};
ghost use Rattle.coded_machine.specs.Moments.{moment};
ghost use Rattle.vcp_inputs.specs.Forms.{image_text, IsSound};
ghost use Rattle.vcp_inputs.specs.Abouts.{about};
ghost use Rattle.vcp_inputs.specs.Performing.{Performs};
ghost use Rattle.vcp_core.specs.Tasks.{TaskOf};
ghost use Rattle.vcp_core.specs.Reach.{told_line, told_status};

use crate::audit::audit_image;
use crate::ending::{Ending, text_ended};
use crate::fault::Fault;
use crate::listing::list_operations;
use crate::widen::wide_image;
use std::alloc::Global;
use vcp_base::{Memory, Text};
use vcp_inputs::{ImageText, load_image};
use vcp_outside::{Files, Sink, write_all};

/// Does what a command says that prints something of the image M, and writes to `out` alone: M is read whole and checked, and then the text
/// is written.
pub fn image_command<'a, F: Files, O: Sink>(
    alloc: Global,
    image: &'a Text,
    text: ImageText,
    files: &mut F,
    out: &mut O,
) -> Result<Ending, Fault<'a>>
    requires sound { IsSound (image_text image.now text) }
    ensures { (unit : UnitSeen) → Performs (about (image_text image.now text)) (TaskOf (image_text image.now text))
        (F.seen files.old) (F.seen files.new) (moment unit (O.seen out.old)) (moment unit (O.seen out.new))
        (told_line result) (told_status result) }
{
    let loaded = match load_image(alloc, files, image) {
        Ok(loaded) => loaded,
        Err(input) => {
            return Err(Fault::Input {
                name: image.bytes(),
                input,
            });
        }
    };
    match text {
        ImageText::List => text_ended(list_operations(out, &loaded.graph, &loaded.table)),
        ImageText::Widen => match wide_image(alloc, loaded) {
            Ok(wide) => text_ended(write_all(out, wide.bytes())),
            Err(Memory) => Err(Fault::Memory),
        },
        ImageText::Audit { horizon } => audit_image(alloc, image, &loaded, horizon, out),
    }
}
