//! The parts of a campaign: their scripts and their verdicts are read, part by part. And the command `faults`, behind its image.

ghost use Rattle.std.specs.Prelude.{ℕ, List, ◌≡◌, ◌≤◌, IfOk, IfErr, Ok, All, length};
ghost use Rattle.std.specs.Io.KnownBytes.{IsAtEnd};
ghost use Rattle.vcp_base.specs.Limits.{most_source_bytes};
ghost use Rattle.signature_table.specs.Signatures.{table_of};
ghost use Rattle.fault_script.specs.Groups.{GroupFits};
ghost use Rattle.fault_script.specs.ScriptOf.{most_faults};
ghost use Rattle.fault_injector.specs.Names.{Names};
ghost use Rattle.verdict_tables.specs.Reading.{verdicts_in as verdicts_in_text};
ghost use Rattle.verdict_tables.specs.Parts.{most_parts, IsWhole, PartFits};
ghost use Rattle.vcp_study_core.specs.CarriedOut.{Fetches, Studies, told_line, told_status};
ghost use Rattle.vcp_study_core.specs.Forms.{as_names, faults, names_of};
ghost use Rattle.vcp_study_core.specs.FromFiles.{as_found};
ghost use Rattle.vcp_study_core.specs.Parts.{PartFrom, PartsFrom, ScriptFrom, ScriptIn, VerdictsFrom};
ghost use Rattle.vcp_study_core.specs.TextFaults.{IsUntold};
ghost use Rattle.vcp_study_core.specs.Tasks.{StudyOf};

use crate::fault::{Fault, StudyRefusal, told};
use crate::loading::bytes_under;
use crate::part_words::{Named, PartWords};
use fault_script::{Script, read_script};
use fault_sites::image_digest;
use op_graph::Graph;
use pictures::{layout_of, write_faults};
use std::alloc::Global;
use vcp_base::{MOST_ROWS_BYTES, MOST_SOURCE_BYTES, Memory, Text};
use vcp_inputs::{Image, NoInput};
use vcp_outside::{Files, Sink};
use verdict_tables::{
    Part, Parts, Verdicts, VerdictsFault, is_for, read_verdicts, shows_unseen, totals_of_all,
};

/// The script that the text of the file under a name is for an image: one that names another image is refused before its lines are read.
fn script_in<'a>(
    alloc: Global,
    image: &Image,
    name: &'a Text,
    text: &[u8],
) -> Result<Script, Fault<'a>>
    requires short { length text.now ≤ most_source_bytes }
    requires table { image.now.table ≡ table_of image.now.table.seed image.now.table.step image.now.graph }
    ensures reads { ScriptIn image.now name.now text.now (as_found result) }
    ensures fits { IfOk result (All (GroupFits image.now.graph)) }
    ensures few { IfOk result (λ s. length s ≤ most_faults) }
{
    match image_digest(alloc, &image.graph, &image.table) {
        Ok(digest) => if !is_for(&digest, text) {
            return Err(Fault::Refused {
                name: name.bytes(),
                why: StudyRefusal::Image,
            });
        },
        Err(_) => return Err(Fault::Memory),
    }
    match read_script(alloc, text, &image.graph) {
        Ok(script) => Ok(script),
        Err(why) => Err(Fault::Input {
            name: name.bytes(),
            input: NoInput::from(why),
        }),
    }
}

/// The verdicts that the text of the file under a name tells of a script.
fn verdicts_in<'a>(
    alloc: Global,
    graph: &Graph,
    script: &Script,
    name: &'a Text,
    text: &[u8],
) -> Result<Verdicts, Fault<'a>>
    requires fits { All (GroupFits graph.now) script.now }
    requires few { length script.now ≤ most_faults }
    ensures verdicts { IfOk result (λ vs. verdicts_in_text graph.now script.now text.now ≡ Ok vs) }
    ensures fault { IfErr result (IsUntold graph.now script.now name.now text.now) }
    ensures named { IfOk result (All (Names (length graph.now.outputs) (length graph.now.operations))) }
    ensures many { IfOk result (λ vs. length vs ≡ length script.now) }
{
    match read_verdicts(alloc, text, graph, script) {
        Ok(verdicts) => Ok(verdicts),
        Err(VerdictsFault::Memory) => Err(Fault::Memory),
        Err(why) => Err(Fault::Refused {
            name: name.bytes(),
            why: StudyRefusal::Verdicts(why),
        }),
    }
}

/// The script of a part for an image.
fn load_script<'a, F: Files>(
    alloc: Global,
    image: &Image,
    names: &Named<'a>,
    files: &mut F,
) -> Result<Script, Fault<'a>>
    requires table { image.now.table ≡ table_of image.now.table.seed image.now.table.step image.now.graph }
    ensures fetches { Fetches (ScriptFrom image.now (as_names names.now)) (F.seen files.old) (F.seen files.new) (as_found result) }
    ensures fits { IfOk result (All (GroupFits image.now.graph)) }
    ensures few { IfOk result (λ s. length s ≤ most_faults) }
{
    match bytes_under(alloc, files, names.script, MOST_SOURCE_BYTES) {
        Ok(text) => script_in(alloc, image, names.script, text.bytes()),
        Err(why) => Err(why),
    }
}

/// The verdicts of a part on its script.
fn load_verdicts<'a, F: Files>(
    alloc: Global,
    graph: &Graph,
    script: &Script,
    names: &Named<'a>,
    files: &mut F,
) -> Result<Verdicts, Fault<'a>>
    requires fits { All (GroupFits graph.now) script.now }
    requires few { length script.now ≤ most_faults }
    ensures fetches { Fetches (VerdictsFrom graph.now script.now (as_names names.now)) (F.seen files.old) (F.seen files.new) (as_found result) }
    ensures named { IfOk result (All (Names (length graph.now.outputs) (length graph.now.operations))) }
    ensures many { IfOk result (λ vs. length vs ≡ length script.now) }
{
    match bytes_under(alloc, files, names.verdicts, MOST_ROWS_BYTES) {
        Ok(text) => verdicts_in(alloc, graph, script, names.verdicts, text.bytes()),
        Err(why) => Err(why),
    }
}

/// The part of the files under these names: its script is read, and then its verdicts.
fn load_part<'a, F: Files>(
    alloc: Global,
    image: &Image,
    names: &Named<'a>,
    files: &mut F,
) -> Result<Part, Fault<'a>>
    requires table { image.now.table ≡ table_of image.now.table.seed image.now.table.step image.now.graph }
    ensures fetches { Fetches (PartFrom image.now (as_names names.now)) (F.seen files.old) (F.seen files.new) (as_found result) }
    ensures whole { IfOk result IsWhole }
    ensures fits { IfOk result (PartFits image.now.graph) }
{
    let script = match load_script(alloc, image, names, files) {
        Ok(script) => script,
        Err(why) => return Err(why),
    };
    match load_verdicts(alloc, &image.graph, &script, names, files) {
        Ok(verdicts) => Ok(Part { script, verdicts }),
        Err(why) => Err(why),
    }
}

/// The parts of the files under these names, which are read part by part; the first of which there is nothing ends it.
pub(crate) fn load_parts<'a, F: Files>(
    alloc: Global,
    image: &Image,
    names: &PartWords<'a>,
    files: &mut F,
) -> Result<Parts, Fault<'a>>
    requires table { image.now.table ≡ table_of image.now.table.seed image.now.table.step image.now.graph }
    requires few { length (names_of names.now) ≤ most_parts }
    ensures fetches { IsAtEnd (F.seen files.old).rest →
        Fetches (PartsFrom image.now (names_of names.now)) (F.seen files.old) (F.seen files.new) (as_found result) }
    ensures whole { IfOk result (λ ps. All IsWhole ps) }
    ensures fits { IfOk result (λ ps. All (PartFits image.now.graph) ps) }
    ensures few { IfOk result (λ ps. length ps ≤ most_parts) }
{
    let mut parts = Parts::new(alloc);
    let mut left = *names;
    'parts: while let Some(named) = left.next() {
        match load_part(alloc, image, &named, files) {
            Ok(part) => match parts.push(part) {
                Ok(()) => {}
                Err(Memory) => return Err(Fault::Memory),
            },
            Err(why) => return Err(why),
        }
    }
    Ok(parts)
}

/// Reads a script and its verdicts for an image, and writes the picture of its graph by them; whether a fault is unseen.
pub(crate) fn faults_of_image<'a, F: Files, O: Sink>(
    alloc: Global,
    image: &Image,
    names: &Named<'a>,
    files: &mut F,
    out: &mut O,
) -> Result<bool, Fault<'a>>
    requires table { image.now.table ≡ table_of image.now.table.seed image.now.table.step image.now.graph }
    ensures { (m : List ℕ) → Studies (StudyOf (faults (as_names names.now)) m image.now)
        (F.seen files.old) (F.seen files.new) (O.seen out.old) (O.seen out.new) (told_line result) (told_status result) }
{
    match load_part(alloc, image, names, files) {
        Ok(part) => {
            let unseen = shows_unseen(&totals_of_all(&part.verdicts));
            match layout_of(alloc, &image.graph) {
                Ok(layout) => told(
                    write_faults(out, &image.graph, &part.script, &part.verdicts, &layout),
                    unseen,
                ),
                Err(Memory) => Err(Fault::Memory),
            }
        }
        Err(why) => Err(why),
    }
}
