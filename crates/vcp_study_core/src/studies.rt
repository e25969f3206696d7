//! The studies of an image, up to the line of their fault.

ghost use Rattle.std.specs.Prelude.{ℕ, ◌≡◌};
ghost use Rattle.std.specs.Io.KnownBytes.{IsAtEnd};
ghost use Rattle.signature_table.specs.Signatures.{table_of};
ghost use Rattle.vcp_outside.specs.Held.{Held};
ghost use Rattle.vcp_study_core.specs.CarriedOut.{Studies, WritesSo, told_line, told_status};
ghost use Rattle.vcp_study_core.specs.Forms.{IsSoundStudy, alone, on, study as study_form};
ghost use Rattle.vcp_study_core.specs.Tasks.{StudyOf, TaskOf};

use crate::command::{AloneStudy, ImageStudy};
use crate::cover::write_cover;
use crate::fault::Fault;
use crate::graph::write_graph;
use crate::parts::faults_of_image;
use crate::ranges::ranges_of_image;
use crate::script::script_of_image;
use crate::sites::{run_sites_of_image, write_rests, write_sites};
use crate::sum::sum_of_image;
use std::alloc::Global;
use vcp_base::Text;
use vcp_inputs::{Image, load_image};
use vcp_outside::{Files, Sink};

/// Does what is to be done with an image for which no other file is read, and writes to `out` alone. Answers whether it found what it looks for.
fn study_alone<'a, O: Sink>(
    alloc: Global,
    name: &'a Text,
    image: &Image,
    study: &AloneStudy,
    out: &mut O,
) -> Result<bool, Fault<'a>>
    requires table { image.now.table ≡ table_of image.now.table.seed image.now.table.step image.now.graph }
    requires sound { IsSoundStudy (alone study.now) }
    ensures { (h : Held) (b n : ℕ) → WritesSo (StudyOf (alone study.now) name.now image.now h b n) (O.seen out.old) (O.seen out.new)
        (told_line result) (told_status result) }
{
    match study {
        AloneStudy::Drawn { horizon, drawing } => write_graph(
            alloc, name, image, *horizon, *drawing, out,
        ),
        AloneStudy::Cover { horizon, classes } => write_cover(
            alloc, name, image, *horizon, *classes, out,
        ),
        AloneStudy::Sites {
            cycles,
            classes,
            chosen,
        } => write_sites(alloc, name, image, *classes, *cycles, chosen, out),
        AloneStudy::RestSites { cycles, chosen } => write_rests(
            alloc, name, image, *cycles, chosen, out,
        ),
    }
}

/// Does what is to be done with an image that was read whole from the file under a name, and writes to `out` alone. Answers whether it found what it looks for.
fn study_image<'a, F: Files, O: Sink>(
    alloc: Global,
    name: &'a Text,
    image: &Image,
    study: &ImageStudy<'a>,
    files: &mut F,
    out: &mut O,
) -> Result<bool, Fault<'a>>
    requires table { image.now.table ≡ table_of image.now.table.seed image.now.table.step image.now.graph }
    requires sound { IsSoundStudy (study_form study.now) }
    ensures { IsAtEnd (F.seen files.old).rest → Studies (StudyOf (study_form study.now) name.now image.now)
        (F.seen files.old) (F.seen files.new) (O.seen out.old) (O.seen out.new) (told_line result) (told_status result) }
{
    match study {
        ImageStudy::Alone(own) => study_alone(alloc, name, image, own, out),
        ImageStudy::Ranges { all, inputs } => ranges_of_image(
            alloc, image, *all, *inputs, files, out,
        ),
        ImageStudy::RunSites {
            rows,
            class,
            chosen,
        } => run_sites_of_image(alloc, name, image, *rows, *class, chosen, files, out),
        ImageStudy::Sum { parts, rows } => sum_of_image(alloc, image, parts, *rows, files, out),
        ImageStudy::Faults { names } => faults_of_image(alloc, image, names, files, out),
        ImageStudy::Script { named } => script_of_image(alloc, image, named, files, out),
    }
}

/// Reads the image under a name whole, takes it through its refusals, and does with it what is to be done. Answers whether it found what it looks for.
pub(crate) fn image_command<'a, F: Files, O: Sink>(
    alloc: Global,
    name: &'a Text,
    study: &ImageStudy<'a>,
    files: &mut F,
    out: &mut O,
) -> Result<bool, Fault<'a>>
    requires sound { IsSoundStudy (study_form study.now) }
    ensures { Studies (TaskOf (on name.now (study_form study.now)))
        (F.seen files.old) (F.seen files.new) (O.seen out.old) (O.seen out.new) (told_line result) (told_status result) }
{
    match load_image(alloc, files, name) {
        Ok(image) => study_image(alloc, name, &image, study, files, out),
        Err(input) => Err(Fault::Input {
            name: name.bytes(),
            input,
        }),
    }
}
