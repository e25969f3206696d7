//! The loop over the groups of a script.

ghost use Rattle.std.specs.Prelude.{◌≡◌, ◌≢◌, ◌≤◌, All, Err, length};
ghost use Rattle.vcp_base.specs.Limits.{most_cycles};
ghost use Rattle.vcp_outside.specs.Counts.{Rose};
ghost use Rattle.signature_table.specs.Signatures.{IsTableOf};
ghost use Rattle.fault_script.specs.Groups.{GroupFits};
ghost use Rattle.fault_script.specs.ScriptOf.{most_faults};
ghost use Rattle.fault_injector.specs.Campaign.{Told, ToldBehind};
ghost use Rattle.fault_injector.specs.declared.campaign.fault.CampaignFault.TheVariants as fault;

use crate::campaign::fault::CampaignFault;
use crate::campaign::{Reference, groups_are_rerun_one_after_another};
use crate::{Totals, totals_line, verdict_line};
use coded_unit::Unit;
use fault_script::Script;
use input_rows::RowList;
use op_graph::Graph;
use signature_table::Table;
use std::alloc::Global;
use vcp_base::Memory;
use vcp_outside::{Failed, Sink};

/// Finds the verdict of each group of a script over rows of inputs, in order, and writes its line before
/// the next group is looked at; then it writes the totals, which count groups. The run without faults is
/// carried once, before the first group, and where there is none too; then the unit is asked again about
/// just the operations that each group touches, and about nothing else.
///
/// After `Write` a part of the text is written, in which the lines before the one that failed are whole.
/// After `Memory` the lines of the groups before the one whose verdict wanted it are written.
///
/// Where the unit answered no call wrongly, the verdicts are the defined ones, group by group; where the
/// campaign was given up, those of the first groups. Whatever it answers, a kept log grows by exactly the
/// calls of the run without faults and then, group by group, of the reruns; each verdict is the one that is
/// read off the answers of its rerun, and names an output or an operation of the graph. `Write` comes only
/// where the sink's count rose, which else is as it was. Where memory was lacking for the run without faults,
/// no call was made and nothing is written.
pub fn run_campaign<U: Unit, O: Sink>(
    alloc: Global,
    out: &mut O,
    graph: &Graph,
    table: &Table,
    rows: &RowList,
    script: &Script,
    unit: &mut U,
) -> Result<(), CampaignFault>
    requires table { IsTableOf table.now graph.now }
    requires width { All (λ row. length row ≡ length graph.now.inputs) rows.now }
    requires few { length rows.now ≤ most_cycles }
    requires groups { All (GroupFits graph.now) script.now }
    requires short { length script.now ≤ most_faults }
    ensures told { Told table.now graph.now script.now rows.now (U.seen unit.old) (U.seen unit.new) (O.seen out.old).written (O.seen out.new).written result }
    ensures never_falls { (U.seen unit.old).wrong ≤ (U.seen unit.new).wrong }
    ensures write { result ≡ Err fault.Write → Rose (O.seen out.old).faults (O.seen out.new).faults }
    ensures later { (O.seen out.old).faults ≤ (O.seen out.new).faults }
    ensures stayed { result ≢ Err fault.Write → (O.seen out.new).faults ≡ (O.seen out.old).faults }
{
    // The calls are put together from those of the run without faults and of the reruns.
    groups_are_rerun_one_after_another();
    match Reference::new(alloc, graph, table, rows, unit) {
        Ok(reference) => judge_groups(alloc, out, &reference, script, unit),
        Err(Memory) => Err(CampaignFault::Memory),
    }
}

/// The same behind a run without faults that was carried before.
fn judge_groups<U: Unit, O: Sink>(
    alloc: Global,
    out: &mut O,
    reference: &Reference<'_>,
    script: &Script,
    unit: &mut U,
) -> Result<(), CampaignFault>
    requires groups { All (GroupFits reference.now.graph) script.now }
    requires short { length script.now ≤ most_faults }
    ensures told { ToldBehind reference.now script.now (U.seen unit.old) (U.seen unit.new) (O.seen out.old).written (O.seen out.new).written result }
    ensures never_falls { (U.seen unit.old).wrong ≤ (U.seen unit.new).wrong }
    ensures write { result ≡ Err fault.Write → Rose (O.seen out.old).faults (O.seen out.new).faults }
    ensures later { (O.seen out.old).faults ≤ (O.seen out.new).faults }
    ensures stayed { result ≢ Err fault.Write → (O.seen out.new).faults ≡ (O.seen out.old).faults }
{
    // The calls are put together from those of the run without faults and of the reruns.
    groups_are_rerun_one_after_another();
    let graph = reference.graph();
    let mut totals = Totals::new();
    'groups: for i in 0..script.len() {
        let group = script.at(i);
        let verdict = match reference.verdict(alloc, group, unit) {
            Ok(verdict) => verdict,
            Err(Memory) => return Err(CampaignFault::Memory),
        };
        match verdict_line(out, graph, group.line(), &verdict) {
            Ok(()) => {}
            Err(Failed) => return Err(CampaignFault::Write),
        }
        totals.count(&verdict);
    }
    match totals_line(out, &totals) {
        Ok(()) => Ok(()),
        Err(Failed) => Err(CampaignFault::Write),
    }
}
