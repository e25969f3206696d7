//! The graph that represents a program.

ghost use Rattle.std.specs.Prelude.{IfOk};
ghost use Rattle.vcp_inputs.specs.GraphsOf.{StandsFor};

use crate::are_alike;
use flat_stmt::flatten;
use graph_passes::reduce;
use op_graph::Graph;
use std::alloc::Global;
use vcp_base::Memory;
use vcp_typed::Typed;

/// The graph that is run for a program, and whose image is written: its flattening, folded, shared and
/// pruned. Want of memory is the only refusal.
/// It is made twice. The two are alike; where the processor erred in one of them, they may not be, and then it is refused.
pub fn graph_of(alloc: Global, program: &Typed) -> Result<Graph, Memory>
    ensures { IfOk result (StandsFor program.now) }
{
    let graph = match graph_once(alloc, program) {
        Ok(graph) => graph,
        Err(Memory) => return Err(Memory),
    };
    match graph_once(alloc, program) {
        Ok(again) => if are_alike(&graph, &again) {
            Ok(graph)
        } else {
            Err(Memory)
        },
        Err(Memory) => Err(Memory),
    }
}

// That graph, made once.
fn graph_once(alloc: Global, program: &Typed) -> Result<Graph, Memory>
    ensures { IfOk result (StandsFor program.now) }
{
    let flat = match flatten(alloc, program) {
        Ok(flat) => flat,
        Err(Memory) => return Err(Memory),
    };
    match reduce(alloc, flat) {
        Ok(graph) => {
            let _rules = graph.len();
            Ok(graph)
        }
        Err(Memory) => Err(Memory),
    }
}
