//! Groups in which a word changes between two of its readings.

ghost use Rattle.std.specs.Prelude.{◌≡◌, ◌≤◌, Err};
ghost use Rattle.vcp_base.specs.Limits.{most_cycles};
ghost use Rattle.vcp_outside.specs.Counts.{Rose};
ghost use Rattle.vcp_outside.specs.Written.{WritesTo};
ghost use Rattle.signature_table.specs.Signatures.{IsTableOf};
ghost use Rattle.fault_script.specs.ScriptOf.{most_faults};
ghost use Rattle.fault_sites.specs.Counted.{AreCounted};
ghost use Rattle.fault_sites.specs.RestScript.{WritesChosenGroups, WritesGroups};
ghost use Rattle.fault_sites.specs.Rests.{first_fits, fitting, groups, kept_groups, rest_text};
ghost use Rattle.fault_sites.specs.Spending.{has_begun as has_begun_of};
ghost use Rattle.fault_sites.specs.declared.scripts.unwritten.Unwritten.TheVariants as unwritten;

use crate::budget::Budget;
use crate::nowhere::Nowhere;
use crate::rests::{RunReadings, Spending, count_rests, run_readings, then_rests, then_within};
use crate::scripts::chosen::{Chosen, part_of};
use crate::scripts::number::write_number;
use crate::scripts::unwritten::{Unwritten, outcome};
use crate::writing::then_remark;
use crate::{Part, image_digest};
use fault_script::MOST_FAULTS;
use op_graph::{Graph, entries_keep_their_rules};
use signature_table::Table;
use std::alloc::Global;
use vcp_outside::{Failed, LinePen, Sink};

/// The budget of a part.
fn budget_of(part: Part) -> Budget
    ensures { result ≡ record { skip = part.skip; left = part.left; room = most_faults } }
{
    Budget {
        skip: part.skip,
        left: part.left,
        room: MOST_FAULTS as u64,
    }
}

/// Whether a part has begun with its first group, if there is one, where so much is left of its budget: else that group has too many faults.
fn has_begun(part: Part, next: Budget) -> bool
    ensures { result ≡ has_begun_of most_faults part.left next }
{
    if part.left == 0 {
        return true;
    }
    if 0 < next.left {
        return true;
    }
    next.room < MOST_FAULTS as u64
}

/// Whether the first group of a part has no more faults than a script may have, if there is one: else the part is over without any line.
fn fits(graph: &Graph, readings: &RunReadings, cycles: u32, part: Part) -> bool
    requires few { cycles ≤ most_cycles }
    requires readings { AreCounted graph.now readings.now }
    ensures { result ≡ first_fits most_faults (kept_groups part (groups graph.now cycles)) }
{
    // Each group has a fault.
    entries_keep_their_rules();
    let _operations = graph.len();
    let mut nowhere = Nowhere {};
    let pen = LinePen::new(&mut nowhere);
    let budget = budget_of(part);
    let spent = Spending { pen, budget };
    let Spending { pen: _, budget } = then_rests(spent, graph, readings, cycles);
    has_begun(part, budget)
}

/// Writes the script of the first groups of a part, up to the one with which it would have more than 10,000 faults.
fn write_rests<O: Sink>(
    out: &mut O,
    digest: &[u8],
    graph: &Graph,
    readings: &RunReadings,
    cycles: u32,
    part: Part,
) -> Result<(), Failed>
    requires few { cycles ≤ most_cycles }
    requires readings { AreCounted graph.now readings.now }
    ensures { WritesTo (O.seen out.old) (O.seen out.new)
        (rest_text digest.now (fitting most_faults (kept_groups part (groups graph.now cycles)))) result }
{
    let pen = then_remark(LinePen::new(out), b"rest", digest);
    then_within(pen, budget_of(part), graph, readings, cycles).end()
}

/// The same for an image, unless the first group alone would have more.
fn write_part<O: Sink>(
    alloc: Global,
    graph: &Graph,
    table: &Table,
    readings: &RunReadings,
    cycles: u32,
    part: Part,
    out: &mut O,
) -> Result<(), Unwritten>
    requires table { IsTableOf table.now graph.now }
    requires few { cycles ≤ most_cycles }
    requires readings { AreCounted graph.now readings.now }
    ensures writes { WritesGroups graph.now table.now (kept_groups part (groups graph.now cycles)) (O.seen out.old).written (O.seen out.new).written result }
    ensures failed { result ≡ Err unwritten.Failed → Rose (O.seen out.old).faults (O.seen out.new).faults }
{
    // What reads a word is there, and can be changed there.
    entries_keep_their_rules();
    let _operations = graph.len();
    if fits(graph, readings, cycles, part) {
        match image_digest(alloc, graph, table) {
            Ok(digest) => outcome(write_rests(out, &digest, graph, readings, cycles, part)),
            Err(_) => Err(Unwritten::Memory),
        }
    } else {
        Err(Unwritten::TooMany)
    }
}

/// Writes of the groups in which a word of one of the first cycles, at most 1,000,000, changes between two of its readings, what is chosen: in each
/// reading behind one of the others the same power of two, up to 2^61, is added or taken away, as long as two or more are left. A part counts groups.
///
/// A script of them is such a one as `write_chosen_sites` writes, with a group between `begin` and `end`. It ends before the group with which it would
/// have more than 10,000 faults, and is `TooMany` where the first group alone has more.
pub fn write_chosen_rests<O: Sink>(
    alloc: Global,
    graph: &Graph,
    table: &Table,
    cycles: u32,
    chosen: &Chosen,
    out: &mut O,
) -> Result<(), Unwritten>
    requires table { IsTableOf table.now graph.now }
    requires few { cycles ≤ most_cycles }
    ensures writes { WritesChosenGroups graph.now table.now (groups graph.now cycles) chosen.now (O.seen out.old).written (O.seen out.new).written result }
    ensures failed { result ≡ Err unwritten.Failed → Rose (O.seen out.old).faults (O.seen out.new).faults }
{
    let readings = match run_readings(alloc, graph) {
        Ok(readings) => readings,
        Err(_) => return Err(Unwritten::Memory),
    };
    let total = count_rests(graph, &readings, cycles);
    match part_of(chosen, total) {
        Some(part) => write_part(alloc, graph, table, &readings, cycles, part, out),
        None => write_number(out, total),
    }
}
