//! The command `audit`, up to the line of its fault.

ghost use Rattle.std.specs.Prelude.{◌≡◌, ◌≤◌};
ghost use Rattle.signature_table.specs.Signatures.{table_of};
ghost use Rattle.vcp_base.specs.Limits.{most_horizon, most_image_bytes};
ghost use Rattle.vcp_outside.specs.Seen.{FilesSeen};
ghost use Rattle.vcp_inputs.specs.Forms.{audit};
ghost use Rattle.vcp_inputs.specs.Images.{ImageOf, NotImage};
ghost use Rattle.vcp_inputs.specs.Abouts.{about};
ghost use Rattle.vcp_inputs.specs.Performing.{Performs};
ghost use Rattle.coded_unit.specs.Seen.{UnitSeen};
ghost use Rattle.coded_machine.specs.Moments.{moment};
ghost use Rattle.vcp_core.specs.Loading.{FirstRead};
ghost use Rattle.vcp_core.specs.Tasks.{TaskOf};
ghost use Rattle.vcp_core.specs.Reach.{told_line, told_status};

use crate::ending::{Ending, text_ended};
use crate::fault::Fault;
use std::alloc::Global;
use vcp_base::Text;
use vcp_inputs::{Image, weights_of};
use vcp_outside::Sink;
use weight_audit::write_audit;

/// Writes the audit of the graph of an image, once its file, which has this name, was read.
pub fn audit_image<'a, O: Sink>(
    alloc: Global,
    name: &'a Text,
    image: &Image,
    horizon: u32,
    out: &mut O,
) -> Result<Ending, Fault<'a>>
    requires table { image.now.table ≡ table_of image.now.table.seed image.now.table.step image.now.graph }
    requires horizon { horizon ≤ most_horizon }
    ensures { (unit : UnitSeen) (files later : FilesSeen) → FirstRead ImageOf NotImage most_image_bytes name.now files later image.now →
        Performs (about (audit name.now horizon)) (TaskOf (audit name.now horizon)) files later
        (moment unit (O.seen out.old)) (moment unit (O.seen out.new)) (told_line result) (told_status result) }
{
    match weights_of(alloc, image, horizon) {
        Ok(weights) => text_ended(write_audit(out, &image.graph, &weights, horizon)),
        Err(input) => Err(Fault::Input {
            name: name.bytes(),
            input,
        }),
    }
}
