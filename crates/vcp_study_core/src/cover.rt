//! The command `cover`, behind its image.

ghost use Rattle.std.specs.Prelude.{◌≡◌, ◌≤◌};
ghost use Rattle.vcp_base.specs.Limits.{most_horizon};
ghost use Rattle.signature_table.specs.Signatures.{table_of};
ghost use Rattle.fault_cover.specs.Surveys.{IsMapped, IsSurveyOf};
ghost use Rattle.vcp_study_core.specs.CarriedOut.{WritesSo, told_line, told_status};
ghost use Rattle.vcp_study_core.specs.Texts.{IsCover, WritesOne, Weighed};

use crate::fault::Fault;
use fault_cover::{
    CoverClasses, Survey, Uncovered, survey_of, what_is_told_is_certain,
    write_cover as write_cover_text,
};
use fault_sites::image_digest;
use std::alloc::Global;
use vcp_base::Text;
use vcp_inputs::{Image, NoInput, Refusal};
use vcp_outside::Sink;
use weight_audit::AuditFault;

/// Writes the cover of a surveyed image; whether a fault is reported neither as refused nor as nothing.
fn write_survey<'a, O: Sink>(
    alloc: Global,
    image: &Image,
    horizon: u32,
    survey: &Survey,
    classes: CoverClasses,
    out: &mut O,
) -> Result<bool, Fault<'a>>
    requires table { image.now.table ≡ table_of image.now.table.seed image.now.table.step image.now.graph }
    requires survey { IsSurveyOf image.now.graph horizon survey.now }
    requires mapped { IsMapped image.now.graph survey.now }
    ensures { WritesSo (WritesOne (IsCover image.now horizon classes)) (O.seen out.old) (O.seen out.new) (told_line result) (told_status result) }
{
    what_is_told_is_certain();
    match image_digest(alloc, &image.graph, &image.table) {
        Ok(digest) => match write_cover_text(
            alloc,
            out,
            &image.graph,
            &image.table,
            survey,
            classes,
            &digest,
        ) {
            Ok(found) => Ok(found),
            Err(Uncovered::Memory) => Err(Fault::Memory),
            Err(Uncovered::Failed) => Err(Fault::Write),
        },
        Err(_) => Err(Fault::Memory),
    }
}

/// Writes the cover of an image, which has this name; whether a fault is reported neither as refused nor as nothing.
pub(crate) fn write_cover<'a, O: Sink>(
    alloc: Global,
    name: &'a Text,
    image: &Image,
    horizon: u32,
    classes: CoverClasses,
    out: &mut O,
) -> Result<bool, Fault<'a>>
    requires table { image.now.table ≡ table_of image.now.table.seed image.now.table.step image.now.graph }
    requires horizon { horizon ≤ most_horizon }
    ensures { WritesSo (Weighed horizon name.now image.now (IsCover image.now horizon classes))
        (O.seen out.old) (O.seen out.new) (told_line result) (told_status result) }
{
    match survey_of(alloc, &image.graph, &image.table, horizon) {
        Ok(survey) => write_survey(alloc, image, horizon, &survey, classes, out),
        Err(AuditFault::TooLarge { .. }) => Err(Fault::Input {
            name: name.bytes(),
            input: NoInput::Refused(Refusal::Audit),
        }),
        Err(AuditFault::Memory) => Err(Fault::Memory),
    }
}
