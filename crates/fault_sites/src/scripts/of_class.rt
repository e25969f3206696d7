//! Sites of a class.

ghost use Rattle.std.specs.Prelude.{◌≡◌, ◌≤◌, length, Err};
ghost use Rattle.vcp_base.specs.Limits.{most_cycles};
ghost use Rattle.vcp_outside.specs.Counts.{Rose};
ghost use Rattle.signature_table.specs.Signatures.{IsTableOf};
ghost use Rattle.fault_sites.specs.Part.{kept};
ghost use Rattle.fault_sites.specs.Sites.{sites};
ghost use Rattle.fault_sites.specs.SiteText.{classes_name};
ghost use Rattle.fault_sites.specs.Script.{WritesScript, WritesChosen};
ghost use Rattle.fault_sites.specs.declared.scripts.unwritten.Unwritten.TheVariants as unwritten;

use crate::scripts::chosen::{Chosen, part_of, size_of};
use crate::scripts::number::write_number;
use crate::scripts::unwritten::{Unwritten, outcome};
use crate::{Classes, Part, count_sites, image_digest, write_sites};
use fault_script::MOST_FAULTS;
use op_graph::Graph;
use signature_table::Table;
use std::alloc::Global;
use vcp_outside::Sink;

/// Writes the script of a part of the sites of an image, unless it would have more than 10,000 faults. There are so many sites in all.
fn write_part<O: Sink>(
    alloc: Global,
    graph: &Graph,
    table: &Table,
    classes: Classes,
    cycles: u32,
    part: Part,
    total: u64,
    out: &mut O,
) -> Result<(), Unwritten>
    requires table { IsTableOf table.now graph.now }
    requires few { cycles ≤ most_cycles }
    requires total { total ≡ length (sites classes graph.now cycles) }
    ensures writes { WritesScript graph.now table.now (classes_name classes) (kept part (sites classes graph.now cycles)) (O.seen out.old).written
        (O.seen out.new).written result }
    ensures failed { result ≡ Err unwritten.Failed → Rose (O.seen out.old).faults (O.seen out.new).faults }
{
    if size_of(part, total) > MOST_FAULTS as u64 {
        return Err(Unwritten::TooMany);
    }
    let _operations = graph.len();
    match image_digest(alloc, graph, table) {
        Ok(digest) => outcome(write_sites(out, &digest, graph, classes, cycles, part)),
        Err(_) => Err(Unwritten::Memory),
    }
}

/// Writes of the sites of a class that an image can have in its first cycles, at most 1,000,000, what is chosen. The image is that of the
/// graph with the seed and the step of its table. A script has at most 10,000 faults.
///
/// It begins with a remark of the class and the image's digest, has at most 1,048,576 bytes, and is read back
/// as exactly these faults, a group each, in their order. Nothing is written where there would be more, or
/// memory was lacking, and a proper part where the sink failed.
pub fn write_chosen_sites<O: Sink>(
    alloc: Global,
    graph: &Graph,
    table: &Table,
    classes: Classes,
    cycles: u32,
    chosen: &Chosen,
    out: &mut O,
) -> Result<(), Unwritten>
    requires table { IsTableOf table.now graph.now }
    requires few { cycles ≤ most_cycles }
    ensures writes { WritesChosen graph.now table.now (classes_name classes) (sites classes graph.now cycles) chosen.now (O.seen out.old).written
        (O.seen out.new).written result }
    ensures failed { result ≡ Err unwritten.Failed → Rose (O.seen out.old).faults (O.seen out.new).faults }
{
    let total = count_sites(graph, classes, cycles);
    match part_of(chosen, total) {
        Some(part) => write_part(alloc, graph, table, classes, cycles, part, total, out),
        None => write_number(out, total),
    }
}
