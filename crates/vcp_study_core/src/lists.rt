//! The commands on instruction lists, up to the line of their fault.

ghost use Rattle.std.specs.Prelude.{◌≤◌, length};
ghost use Rattle.il_front.specs.Answers.{most_il_bytes};
ghost use Rattle.vcp_study_core.specs.CarriedOut.{Studies, WritesSo, told_line, told_status};
ghost use Rattle.vcp_study_core.specs.Forms.{list_form};
ghost use Rattle.vcp_study_core.specs.Lists.{IsCoded, OfList, StudiedList};
ghost use Rattle.vcp_study_core.specs.Tasks.{TaskOf};

use crate::command::ListStudy;
use crate::fault::{Fault, StudyRefusal, told};
use crate::list_text::text_for;
use crate::loading::bytes_under;
use il_front::MOST_IL_BYTES;
use std::alloc::Global;
use vcp_base::{Memory, Text};
use vcp_inputs::{image_for, listed_program, lists_are_told};
use vcp_outside::{Files, Sink, write_all};

/// Writes the image of the instruction list that the text of the file under a name is, with the numbers of a code; or a program in Structured Text that
/// has its run. It looks for nothing: `false`.
fn write_list<'a, O: Sink>(
    alloc: Global,
    name: &'a Text,
    text: &[u8],
    study: ListStudy,
    out: &mut O,
) -> Result<bool, Fault<'a>>
    requires short { length text.now ≤ most_il_bytes }
    requires code { IsCoded study }
    ensures { WritesSo (OfList name.now text.now (StudiedList name.now study)) (O.seen out.old) (O.seen out.new) (told_line result) (told_status result) }
{
    lists_are_told();
    let program = match listed_program(alloc, text) {
        Ok(program) => program,
        Err(input) => {
            return Err(Fault::Input {
                name: name.bytes(),
                input,
            });
        }
    };
    match study {
        ListStudy::Image(code) => match image_for(alloc, &program, code) {
            Ok(image) => told(write_all(out, image.bytes()), false),
            Err(Memory) => Err(Fault::Memory),
        },
        ListStudy::Text => match text_for(alloc, text, &program) {
            Ok(Some(written)) => told(write_all(out, written.bytes()), false),
            Ok(None) => Err(Fault::Refused {
                name: name.bytes(),
                why: StudyRefusal::Text,
            }),
            Err(Memory) => Err(Fault::Memory),
        },
    }
}

/// Does what the words `image P CODE` or `text P` say, and writes to `out` alone: P is read whole, of at most 1,048,564 bytes, and checked, and then the
/// image of its operations is written, with the numbers of the code, or a program in Structured Text that has its run.
pub(crate) fn list_command<'a, F: Files, O: Sink>(
    alloc: Global,
    source: &'a Text,
    study: ListStudy,
    files: &mut F,
    out: &mut O,
) -> Result<bool, Fault<'a>>
    requires { IsCoded study }
    ensures { Studies (TaskOf (list_form source.now study))
        (F.seen files.old) (F.seen files.new) (O.seen out.old) (O.seen out.new) (told_line result) (told_status result) }
{
    match bytes_under(alloc, files, source, MOST_IL_BYTES) {
        Ok(text) => write_list(alloc, source, text.bytes(), study, out),
        Err(why) => Err(why),
    }
}
