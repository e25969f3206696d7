//! Images: the graph that a file says, and its table.

ghost use Rattle.std.specs.Prelude.{◌≡◌, ◌≢◌, ◌≤◌, IfErr, IfOk, IfSome, OnOk, Err};
ghost use Rattle.std.specs.Io.KnownBytes.{IsAtEnd};
ghost use Rattle.vcp_base.specs.Limits.{most_image_bytes};
ghost use Rattle.vcp_outside.specs.Counts.{Rose};
ghost use Rattle.signature_table.specs.Signatures.{table_of};
ghost use Rattle.vcp_inputs.specs.Files.{LeavesLong, Loads};
ghost use Rattle.vcp_inputs.specs.Images.{ImageOf, NotImage};
ghost use Rattle.vcp_inputs.specs.Refusals.{IsCaused};
ghost use Rattle.vcp_inputs.specs.declared.refusal.NoInput.TheVariants as input;
ghost use Rattle.vcp_inputs.specs.declared.refusal.Refusal.{Refusal as RefusalOf};
ghost use Rattle.vcp_inputs.specs.declared.refusal.Refusal.TheVariants as refusal;

use crate::reading::read_file;
use crate::refusal::NoInput;
use image_file::read_image;
use op_graph::Graph;
use signature_table::Table;
use std::alloc::Global;
use vcp_base::{MOST_IMAGE_BYTES, Text};
use vcp_outside::Files;

/// What an image says.
#[derive(Drop)]
pub struct Image {
    /// The graph.
    pub graph: Graph,
    /// Its table, with the seed and the step.
    pub table: Table,
}

/// The image under a name: the file is read whole, and has at most 16,777,216 bytes. It is that of a graph
/// with a seed and a step, and what is loaded is that graph and its table; or it is refused: its length, then
/// its first fault, field by field, with its offset.
pub fn load_image<F: Files>(alloc: Global, files: &mut F, name: &Text) -> Result<Image, NoInput>
    // What is answered: the image that the file is, or why there is none.
    ensures loads { IfSome (F.seen files.old).held (λ h. Loads ImageOf NotImage h name.now most_image_bytes (F.seen files.old).broken (F.seen files.new).broken result) }
    // Its table is the graph's, whatever the files tell.
    ensures table { IfOk result (λ i. i.table ≡ table_of i.table.seed i.table.step i.graph) }
    ensures unread { result ≡ Err input.Unread → Rose (F.seen files.old).faults (F.seen files.new).faults }
    // Where it is refused, that is no want of memory, whatever the files tell.
    ensures caused { IfErr result IsCaused }
    // What was taken of the file: all, unless it has too many bytes.
    ensures ended { OnOk result (IsAtEnd (F.seen files.new).rest) }
    ensures whole { (r : RefusalOf) → result ≡ Err (input.Refused r) → r ≢ refusal.Bytes → IsAtEnd (F.seen files.new).rest }
    ensures left { result ≡ Err (input.Refused refusal.Bytes) → IfSome (F.seen files.old).held (LeavesLong name.now most_image_bytes (F.seen files.new).rest) }
    // What stays.
    ensures stayed { result ≢ Err input.Unread → (F.seen files.new).faults ≡ (F.seen files.old).faults }
    ensures held { (F.seen files.new).held ≡ (F.seen files.old).held }
    ensures later { (F.seen files.old).faults ≤ (F.seen files.new).faults }
    ensures broken_later { (F.seen files.old).broken ≤ (F.seen files.new).broken }
{
    match read_file(alloc, files, name, MOST_IMAGE_BYTES) {
        Ok(text) => match read_image(alloc, text.bytes()) {
            Ok((graph, table)) => Ok(Image { graph, table }),
            Err(fault) => Err(NoInput::from(fault)),
        },
        Err(input) => Err(input),
    }
}
