//! The run of an image's operations on a pair of channels.

ghost use Rattle.std.specs.Prelude.{ℕ, ◌≡◌, ◌≢◌, ◌<◌, ◌≤◌, List, None, IfSome, length};
ghost use Rattle.vcp_base.specs.Limits.{most_cycles, seeds};
ghost use Rattle.vcp_base.specs.declared.kind.StopKind.{StopKind};
ghost use Rattle.input_rows.specs.RowsOf.{IsOfRecord};
ghost use Rattle.signature_table.specs.Signatures.{table_of};
ghost use Rattle.coded_machine.specs.Moments.{moment};
ghost use Rattle.pair_channel.specs.declared.pair_end.PairEnd.TheVariants as pair;
ghost use Rattle.pair_channel.specs.PairRuns.{Disagrees};
ghost use Rattle.vcp_inputs.specs.PairKind.{pair_status};
ghost use Rattle.vcp_core.specs.ChannelsRun.{ComparesTo};
ghost use Rattle.vcp_core.specs.MachineRun.{HasCauses};
ghost use Rattle.vcp_core.specs.Reach.{end_status};
ghost use Rattle.vcp_core.specs.Tasks.{pair_job};
ghost use Rattle.vcp_core.specs.declared.ending.Ending.TheVariants as end;

use crate::ending::Ending;
use coded_machine::RunFault;
use coded_unit::Unit;
use input_rows::Rows;
use pair_channel::{PairEnd, run_beside};
use signature_table::Table;
use std::alloc::Global;
use vcp_base::Memory;
use vcp_inputs::Image;
use vcp_outside::Sink;

/// How a command ends whose last cycle two channels ended so.
fn ending_of(last: &PairEnd) -> Ending
    ensures status { end_status result ≡ pair_status last.now None }
    ensures refused { result ≡ end.Refused → Disagrees last.now }
    ensures stopped { result ≡ end.Stopped → (op : ℕ) × (why : StopKind) × (last.now ≡ pair.Stopped op why) }
{
    match *last {
        PairEnd::Released => Ending::Done,
        PairEnd::Stopped { .. } => Ending::Stopped,
        PairEnd::Parted { .. } | PairEnd::Differ { .. } => Ending::Refused,
    }
}

/// Runs the operations of an image's graph on the rows that are left, on a pair of channels: the first
/// on the unit with the image's table, the second on the processor itself with a table of this other
/// seed. The header is printed, a line for each cycle that both release, as its row comes, and the last
/// line. A row that is refused ends the run, and what was printed before it stays.
pub fn run_channels<U: Unit, O: Sink>(
    alloc: Global,
    image: &Image,
    seed: u32,
    rows: &mut Rows<'_>,
    unit: &mut U,
    out: &mut O,
) -> Result<Ending, RunFault>
    requires table { image.now.table ≡ table_of image.now.table.seed image.now.table.step image.now.graph }
    requires seed { seed < seeds }
    requires apart { seed ≢ image.now.table.seed }
    requires width { length rows.old.types ≡ length image.now.graph.inputs }
    requires few { length rows.old.rows ≤ most_cycles }
    requires behind { IfSome rows.old.refusal IsOfRecord }
    ensures ran { (name : List ℕ) → ComparesTo (pair_job name image.now rows.old)
        (moment (U.seen unit.old) (O.seen out.old)) (moment (U.seen unit.new) (O.seen out.new)) result }
    ensures causes { HasCauses (moment (U.seen unit.old) (O.seen out.old)) (moment (U.seen unit.new) (O.seen out.new)) result }
{
    let other = match Table::new(alloc, &image.graph, seed, image.table.step()) {
        Ok(other) => other,
        Err(Memory) => return Err(RunFault::Memory),
    };
    match run_beside(alloc, &image.graph, &image.table, &other, rows, unit, out) {
        Ok(last) => Ok(ending_of(&last)),
        Err(fault) => Err(fault),
    }
}
