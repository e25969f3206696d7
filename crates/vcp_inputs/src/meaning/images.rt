//! The image that is written for a program.

ghost use Rattle.std.specs.Prelude.{IfOk};
ghost use Rattle.vcp_inputs.specs.Forms.{as_code, IsCode};
ghost use Rattle.vcp_inputs.specs.GraphsOf.{IsImageFor};

use crate::Code;
use crate::meaning::graphs::graph_of;
use image_file::write_image;
use signature_table::Table;
use std::alloc::Global;
use vcp_base::{Memory, Text};
use vcp_typed::Typed;

/// The image of a graph that may represent a program, with the seed and the step of a code. Want of memory is the only refusal.
pub fn image_for(alloc: Global, program: &Typed, code: Code) -> Result<Text, Memory>
    requires code { IsCode (as_code code) }
    ensures { IfOk result (IsImageFor program.now (as_code code)) }
{
    let graph = match graph_of(alloc, program) {
        Ok(graph) => graph,
        Err(Memory) => return Err(Memory),
    };
    match Table::new(alloc, &graph, code.seed, code.step) {
        Ok(table) => write_image(alloc, &graph, &table),
        Err(Memory) => Err(Memory),
    }
}
