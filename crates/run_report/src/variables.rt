//! The names of a graph's inputs, cells and outputs.

ghost use Rattle.std.specs.Prelude.{◌≡◌, ◌<◌, [], length, slice_index_or};
ghost use Rattle.run_report.specs.Variables.{output_name as output_name_of};
ghost use Rattle.run_report.specs.Variables.{variable_name as variable_name_of};

use op_graph::{Graph, entries_keep_their_rules};
use vcp_base::{Kind, Text};

/// Name `n`, and nothing where there is no such name.
fn name_at(graph: &Graph, n: u32) -> &[u8]
    ensures { result.now ≡ slice_index_or graph.now.names n [] }
{
    if n < graph.names() {
        graph.name(n).bytes()
    } else {
        b""
    }
}

/// The name of output `i`, where `i` is below the number of outputs.
pub fn output_name(graph: &Graph, i: u32) -> &Text
    requires { i < length graph.now.outputs }
    ensures { result.now ≡ output_name_of graph.now i }
{
    // The name of each output is one of the graph's.
    entries_keep_their_rules();
    let _count = graph.len();
    graph.name(graph.output(i).name)
}

/// The name of input, cell or output `n`, as an operation of this kind has one. Nothing for the other kinds, and where there is no such number.
pub fn variable_name(graph: &Graph, kind: Kind, n: u64) -> &[u8]
    ensures { result.now ≡ variable_name_of graph.now kind n }
{
    match kind {
        Kind::Input if n < graph.inputs() as u64 => { name_at(graph, graph.input(n as u32).name) }
        Kind::Load | Kind::Store if n < graph.cells() as u64 => {
            name_at(graph, graph.cell(n as u32).name)
        }
        Kind::Out if n < graph.outputs() as u64 => output_name(graph, n as u32).bytes(),
        _ => b"",
    }
}
