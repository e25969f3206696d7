//! The command `script`, behind its image.

ghost use Rattle.std.specs.Prelude.{ℕ, List, ◌≡◌, ◌≤◌, length};
ghost use Rattle.signature_table.specs.Signatures.{table_of};
ghost use Rattle.fault_sites.specs.NamedEntries.{most_named_bytes};
ghost use Rattle.vcp_study_core.specs.CarriedOut.{Studies, WritesSo, told_line, told_status};
ghost use Rattle.vcp_study_core.specs.Forms.{script_named};
ghost use Rattle.vcp_study_core.specs.Tasks.{StudyOf};
ghost use Rattle.vcp_study_core.specs.Texts.{NamedScript};

use crate::fault::{Fault, StudyRefusal, told};
use crate::loading::bytes_under;
use fault_sites::{
    MOST_NAMED_BYTES, a_script_by_names_is_read_back, check, image_digest, write_script,
};
use std::alloc::Global;
use vcp_base::Text;
use vcp_inputs::Image;
use vcp_outside::{Files, Sink};

/// Writes the script of the text of the file under a name for an image, unless a line is refused. It looks for nothing: `false`.
fn write_named<'a, O: Sink>(
    alloc: Global,
    name: &'a Text,
    image: &Image,
    text: &[u8],
    out: &mut O,
) -> Result<bool, Fault<'a>>
    requires short { length text.now ≤ most_named_bytes }
    requires table { image.now.table ≡ table_of image.now.table.seed image.now.table.step image.now.graph }
    ensures { WritesSo (NamedScript name.now image.now text.now) (O.seen out.old) (O.seen out.new) (told_line result) (told_status result) }
{
    a_script_by_names_is_read_back();
    let _rules = image.graph.len();
    match image_digest(alloc, &image.graph, &image.table) {
        Ok(digest) => match check(&image.graph, &digest, text) {
            Ok(()) => told(write_script(out, &digest, &image.graph, text), false),
            Err(refused) => Err(Fault::Refused {
                name: name.bytes(),
                why: StudyRefusal::Named(refused),
            }),
        },
        Err(_) => Err(Fault::Memory),
    }
}

/// Reads a text of lines that name faults, and writes its script for an image. It looks for nothing: `false`.
pub(crate) fn script_of_image<'a, F: Files, O: Sink>(
    alloc: Global,
    image: &Image,
    named: &'a Text,
    files: &mut F,
    out: &mut O,
) -> Result<bool, Fault<'a>>
    requires table { image.now.table ≡ table_of image.now.table.seed image.now.table.step image.now.graph }
    ensures { (m : List ℕ) → Studies (StudyOf (script_named named.now) m image.now)
        (F.seen files.old) (F.seen files.new) (O.seen out.old) (O.seen out.new) (told_line result) (told_status result) }
{
    match bytes_under(alloc, files, named, MOST_NAMED_BYTES as u64) {
        Ok(text) => write_named(alloc, named, image, text.bytes(), out),
        Err(why) => Err(why),
    }
}
