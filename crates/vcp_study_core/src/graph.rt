//! The commands `graph` and `dot`, behind their image.

ghost use Rattle.std.specs.Prelude.{ℕ, ◌≡◌, ◌≤◌};
ghost use Rattle.vcp_base.specs.Limits.{most_horizon};
ghost use Rattle.vcp_outside.specs.Held.{Held};
ghost use Rattle.signature_table.specs.Signatures.{table_of};
ghost use Rattle.vcp_study_core.specs.CarriedOut.{WritesSo, told_line, told_status};
ghost use Rattle.vcp_study_core.specs.Forms.{drawn};
ghost use Rattle.vcp_study_core.specs.Tasks.{StudyOf};

use crate::command::Drawing;
use crate::fault::{Fault, told};
use pictures::{layout_of, write_dot, write_picture};
use std::alloc::Global;
use vcp_base::{Memory, Text};
use vcp_inputs::{Image, weights_of};
use vcp_outside::Sink;

/// Writes the picture of an image's graph up to a horizon, or the graph as a text for Graphviz; the image has this name. It looks for nothing: `false`.
pub(crate) fn write_graph<'a, O: Sink>(
    alloc: Global,
    name: &'a Text,
    image: &Image,
    horizon: u32,
    drawing: Drawing,
    out: &mut O,
) -> Result<bool, Fault<'a>>
    requires table { image.now.table ≡ table_of image.now.table.seed image.now.table.step image.now.graph }
    requires horizon { horizon ≤ most_horizon }
    ensures { (h : Held) (b n : ℕ) → WritesSo (StudyOf (drawn horizon drawing) name.now image.now h b n)
        (O.seen out.old) (O.seen out.new) (told_line result) (told_status result) }
{
    let weights = match weights_of(alloc, image, horizon) {
        Ok(weights) => weights,
        Err(input) => {
            return Err(Fault::Input {
                name: name.bytes(),
                input,
            });
        }
    };
    match drawing {
        Drawing::Dot => told(write_dot(out, &image.graph, &weights, horizon), false),
        Drawing::Picture => match layout_of(alloc, &image.graph) {
            Ok(layout) => told(
                write_picture(out, &image.graph, &weights, horizon, &layout),
                false,
            ),
            Err(Memory) => Err(Fault::Memory),
        },
    }
}
