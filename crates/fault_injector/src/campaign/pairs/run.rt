//! The loop over the groups of a script.

ghost use Rattle.std.specs.Prelude.{◌≡◌, ◌≢◌, ◌≤◌, All, Err, length};
ghost use Rattle.vcp_base.specs.Limits.{most_cycles};
ghost use Rattle.vcp_outside.specs.Counts.{Rose};
ghost use Rattle.signature_table.specs.Signatures.{IsTableOf};
ghost use Rattle.fault_script.specs.Groups.{GroupFits};
ghost use Rattle.fault_script.specs.ScriptOf.{most_faults};
ghost use Rattle.fault_injector.specs.declared.campaign.fault.CampaignFault.TheVariants as fault;
ghost use Rattle.fault_injector.specs.PairCampaigns.{PairsTold};

use crate::campaign::CampaignFault;
use crate::campaign::pairs::group_run::run_group;
use crate::campaign::pairs::lines::{PairTotals, group_line, pair_totals_line};
use coded_unit::Unit;
use fault_script::Script;
use input_rows::RowList;
use op_graph::Graph;
use signature_table::Table;
use std::alloc::Global;
use vcp_base::Memory;
use vcp_outside::{Failed, Sink};

/// Runs each group of a script on a pair of channels, whose tables these are and whose seeds differ, over rows of inputs, in order: the
/// faults in the first channel, on the unit, and the second channel on the processor itself. It writes the line of a group before the next
/// one is run; then it writes the totals, which count groups.
///
/// After `Write` a part of the text is written, in which the lines before the one that failed are whole.
/// After `Memory` the lines of the groups before the one that wanted it are written, and for that one no call
/// was made. `Write` comes only where the sink's count rose, which else is as it was. The counts of the
/// unit's wrong answers and of the sink's faults never fall.
pub fn run_pairs<U: Unit, O: Sink>(
    alloc: Global,
    out: &mut O,
    graph: &Graph,
    table: &Table,
    other: &Table,
    rows: &RowList,
    script: &Script,
    unit: &mut U,
) -> Result<(), CampaignFault>
    requires table { IsTableOf table.now graph.now }
    requires other { IsTableOf other.now graph.now }
    requires seeds { table.now.seed ≢ other.now.seed }
    requires width { All (λ row. length row ≡ length graph.now.inputs) rows.now }
    requires few { length rows.now ≤ most_cycles }
    requires groups { All (GroupFits graph.now) script.now }
    requires short { length script.now ≤ most_faults }
    ensures told { PairsTold table.now graph.now script.now rows.now (U.seen unit.old) (U.seen unit.new) (O.seen out.old).written (O.seen out.new).written result }
    ensures never_falls { (U.seen unit.old).wrong ≤ (U.seen unit.new).wrong }
    ensures write { result ≡ Err fault.Write → Rose (O.seen out.old).faults (O.seen out.new).faults }
    ensures later { (O.seen out.old).faults ≤ (O.seen out.new).faults }
    ensures stayed { result ≢ Err fault.Write → (O.seen out.new).faults ≡ (O.seen out.old).faults }
{
    let mut totals = PairTotals::new();
    'groups: for i in 0..script.len() {
        let group = script.at(i);
        let verdict = match run_group(alloc, graph, table, other, rows, group, unit) {
            Ok(verdict) => verdict,
            Err(Memory) => return Err(CampaignFault::Memory),
        };
        match group_line(out, group.line(), &verdict) {
            Ok(()) => {}
            Err(Failed) => return Err(CampaignFault::Write),
        }
        totals.count(&verdict);
    }
    match pair_totals_line(out, &totals) {
        Ok(()) => Ok(()),
        Err(Failed) => Err(CampaignFault::Write),
    }
}
