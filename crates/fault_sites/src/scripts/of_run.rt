//! Sites of a class that the words of a run decide.

ghost use Rattle.std.specs.Prelude.{◌≡◌, ◌≤◌, All, length, Err};
ghost use Rattle.vcp_base.specs.Limits.{most_cycles};
ghost use Rattle.vcp_outside.specs.Counts.{Rose};
ghost use Rattle.signature_table.specs.Signatures.{IsTableOf};
ghost use Rattle.fault_sites.specs.Part.{kept};
ghost use Rattle.fault_sites.specs.RunSites.{run_class_name as run_class_name_of, run_sites, run_text};
ghost use Rattle.fault_sites.specs.Script.{IsScript, WritesScript, WritesChosen};
ghost use Rattle.fault_sites.specs.declared.scripts.unwritten.Unwritten.TheVariants as unwritten;

use crate::graph_values::GraphValues;
use crate::run_sites::{count_run_sites, run_class_name, then_part_of_run};
use crate::scripts::chosen::{Chosen, part_of, size_of};
use crate::scripts::number::write_number;
use crate::scripts::unwritten::{Unwritten, outcome};
use crate::writing::then_remark;
use crate::{Part, RunClass, image_digest};
use fault_script::MOST_FAULTS;
use input_rows::RowList;
use op_graph::Graph;
use signature_table::Table;
use std::alloc::Global;
use vcp_outside::{LinePen, Sink};

/// Writes the script of a part of the sites of a class in the run over all rows: a remark with the digits of the image's digest, and a line for each
/// site, in the order of cycle, operation, operand, and bit or operation.
fn write_by<O: Sink>(
    alloc: Global,
    digest: &[u8],
    graph: &Graph,
    table: &Table,
    class: RunClass,
    rows: &RowList,
    part: Part,
    out: &mut O,
) -> Result<(), Unwritten>
    requires few { length rows.now ≤ most_cycles }
    requires width { All (λ r. length r ≡ length graph.now.inputs) rows.now }
    requires script { IsScript graph.now table.now (run_class_name_of class) (kept part (run_sites class table.now graph.now rows.now))
        (run_text class digest.now table.now graph.now rows.now part) }
    ensures writes { WritesScript graph.now table.now (run_class_name_of class) (kept part (run_sites class table.now graph.now rows.now))
        (O.seen out.old).written (O.seen out.new).written result }
    ensures failed { result ≡ Err unwritten.Failed → Rose (O.seen out.old).faults (O.seen out.new).faults }
{
    match GraphValues::new(alloc, graph) {
        Ok(mut run) => {
            let pen = then_remark(LinePen::new(out), run_class_name(class), digest);
            let pen = then_part_of_run(pen, part, class, graph, &mut run, table, rows);
            outcome(pen.end())
        }
        Err(_) => Err(Unwritten::Memory),
    }
}

/// The same for an image, unless the script would have more than 10,000 faults. There are so many sites in all.
fn write_part<O: Sink>(
    alloc: Global,
    graph: &Graph,
    table: &Table,
    class: RunClass,
    rows: &RowList,
    part: Part,
    total: u64,
    out: &mut O,
) -> Result<(), Unwritten>
    requires table { IsTableOf table.now graph.now }
    requires few { length rows.now ≤ most_cycles }
    requires width { All (λ r. length r ≡ length graph.now.inputs) rows.now }
    requires total { total ≡ length (run_sites class table.now graph.now rows.now) }
    ensures writes { WritesScript graph.now table.now (run_class_name_of class) (kept part (run_sites class table.now graph.now rows.now))
        (O.seen out.old).written (O.seen out.new).written result }
    ensures failed { result ≡ Err unwritten.Failed → Rose (O.seen out.old).faults (O.seen out.new).faults }
{
    if size_of(part, total) > MOST_FAULTS as u64 {
        return Err(Unwritten::TooMany);
    }
    let _operations = graph.len();
    match image_digest(alloc, graph, table) {
        Ok(digest) => write_by(alloc, &digest, graph, table, class, rows, part, out),
        Err(_) => Err(Unwritten::Memory),
    }
}

/// Writes of the sites of a class in the run over all rows, at most 1,000,000, or up to its stop, what is chosen. The image is that of the graph
/// with the seed and the step of its table, and a row has a value for each input. A script has at most 10,000 faults. It is such a script as
/// `write_chosen_sites` writes.
pub fn write_chosen_run_sites<O: Sink>(
    alloc: Global,
    graph: &Graph,
    table: &Table,
    class: RunClass,
    rows: &RowList,
    chosen: &Chosen,
    out: &mut O,
) -> Result<(), Unwritten>
    requires table { IsTableOf table.now graph.now }
    requires few { length rows.now ≤ most_cycles }
    requires width { All (λ r. length r ≡ length graph.now.inputs) rows.now }
    ensures writes { WritesChosen graph.now table.now (run_class_name_of class) (run_sites class table.now graph.now rows.now) chosen.now
        (O.seen out.old).written (O.seen out.new).written result }
    ensures failed { result ≡ Err unwritten.Failed → Rose (O.seen out.old).faults (O.seen out.new).faults }
{
    let total = match count_run_sites(alloc, graph, table, class, rows) {
        Ok(total) => total,
        Err(_) => return Err(Unwritten::Memory),
    };
    match part_of(chosen, total) {
        Some(part) => write_part(alloc, graph, table, class, rows, part, total, out),
        None => write_number(out, total),
    }
}
