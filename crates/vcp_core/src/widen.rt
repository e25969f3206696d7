//! The command `widen`: the image of the same operations in the wide code.

ghost use Rattle.std.specs.Prelude.{◌≡◌, IfOk};
ghost use Rattle.image_file.specs.Image.{image_of};
ghost use Rattle.vcp_core.specs.Tasks.{widened};

use image_file::write_image;
use signature_table::Table;
use std::alloc::Global;
use vcp_base::{Memory, Text};
use vcp_inputs::Image;

/// The image of a graph in the wide code, with the seed and the step that its own has.
pub fn wide_image(alloc: Global, image: Image) -> Result<Text, Memory>
    ensures { IfOk result (λ text. text ≡ image_of (widened image.graph) image.table.seed image.table.step) }
{
    let seed = image.table.seed();
    let step = image.table.step();
    let graph = image.graph.widened();
    match Table::new(alloc, &graph, seed, step) {
        Ok(table) => write_image(alloc, &graph, &table),
        Err(Memory) => Err(Memory),
    }
}
