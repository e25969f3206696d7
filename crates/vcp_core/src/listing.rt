//! The command `list`: the lines of an image's operations.

ghost use Rattle.std.specs.Prelude.{◌≡◌, length};
ghost use Rattle.vcp_outside.specs.Written.{WritesTo};
ghost use Rattle.vcp_core.specs.Tasks.{listing};

use op_graph::Graph;
use run_report::list_line;
use signature_table::Table;
use vcp_outside::{Failed, Sink};

/// Prints a line for each operation of a graph. It takes no memory.
pub fn list_operations<O: Sink>(out: &mut O, graph: &Graph, table: &Table) -> Result<(), Failed>
    requires { length table.now.corrections ≡ length graph.now.operations }
    ensures { WritesTo (O.seen out.old) (O.seen out.new) (listing graph.now table.now) result }
{
    'operations: for i in 0..graph.len() {
        list_line(out, graph, table, i)?;
    }
    Ok(())
}
