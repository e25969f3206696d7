//! The run of a group of faults on a pair of channels.

ghost use Rattle.std.specs.Prelude.{◌≡◌, ◌≢◌, ◌<◌, ◌≤◌, None, false, All, IfOk, OnErr, length};
ghost use Rattle.vcp_base.specs.Limits.{most_cycles};
ghost use Rattle.signature_table.specs.Signatures.{IsTableOf};
ghost use Rattle.coded_machine.specs.State.{setting};
ghost use Rattle.fault_script.specs.Changes.{none_kept};
ghost use Rattle.fault_script.specs.Fits.{Fits};
ghost use Rattle.fault_script.specs.Groups.{GroupFits};
ghost use Rattle.fault_injector.specs.Carried.{faults_of, keeps_of};
ghost use Rattle.pair_channel.specs.PairStates.{fresh_pair};
ghost use Rattle.pair_channel.specs.PairTurns.{PairTurn};
ghost use Rattle.fault_injector.specs.GroupRuns.{GroupRan, CycleAsked, outer_seen, processor_seen};

use crate::campaign::pairs::verdict::{PairVerdict, verdict_at};
use crate::{
    Scripted, carried_of, ends_under_acts_are_read_off_the_answers,
    runs_under_acts_keep_the_run_law, scripted_runs_are_right_runs,
};
use coded_machine::cycles_by_hand_are_whole;
use coded_unit::{CpuUnit, Unit};
use fault_script::Group;
use input_rows::RowList;
use op_graph::Graph;
use pair_channel::{
    Pair, PairEnd, one_honest_channel_holds_the_pair, pairs_by_hand_are_whole,
    pairs_follow_their_answers,
};
use signature_table::Table;
use std::alloc::Global;
use vcp_base::{Memory, Row};

/// What a pair of channels makes of a group of faults over rows of inputs; `Memory` where there is no room for the faults, for the two
/// machines or for rows. All memory is taken before the first call.
///
/// The calls of the first channel go to a unit around the unit, which carries out the faults; the second channel runs on the processor
/// itself, with the other table. The run ends in the first cycle that the pair doesn't release, or with the rows.
///
/// A kept log of the unit grew by exactly the first channel's calls with the group's changes and the unit's
/// answers, cycle by cycle, with none at a skip. The verdict is read off these answers: the group is held in
/// the first cycle in which the channels part or their rows differ, the second channel's end and row being
/// those of the graph's cycle on plain integers; and it is the same where there is none, also where both stop
/// alike. Where no answer was wrong, it is the same exactly where the defined verdict of the group is, and
/// else held in the cycle of that.
pub fn run_group<U: Unit>(
    alloc: Global,
    graph: &Graph,
    table: &Table,
    other: &Table,
    rows: &RowList,
    group: &Group,
    unit: &mut U,
) -> Result<PairVerdict, Memory>
    requires table { IsTableOf table.now graph.now }
    requires other { IsTableOf other.now graph.now }
    requires seeds { table.now.seed ≢ other.now.seed }
    requires width { All (λ row. length row ≡ length graph.now.inputs) rows.now }
    requires few { length rows.now ≤ most_cycles }
    requires group { GroupFits graph.now group.now }
    ensures ran { IfOk result (λ v. GroupRan table.now graph.now group.now rows.now (U.seen unit.old) (U.seen unit.new) v) }
    ensures none { OnErr result (U.seen unit.new ≡ U.seen unit.old) }
{
    let carried = carried_of(alloc, group)?;
    let mut scripted = Scripted::of_parts(unit, carried);
    let verdict = paired(alloc, graph, table, other, rows, &mut scripted);
    scripted.into_inner();
    verdict
}

/// The verdict on the faults that a unit carries out in the first channel.
fn paired<U: Unit>(
    alloc: Global,
    graph: &Graph,
    table: &Table,
    other: &Table,
    rows: &RowList,
    scripted: &mut Scripted<'_, U>,
) -> Result<PairVerdict, Memory>
    requires table { IsTableOf table.now graph.now }
    requires other { IsTableOf other.now graph.now }
    requires seeds { table.now.seed ≢ other.now.seed }
    requires width { All (λ row. length row ≡ length graph.now.inputs) rows.now }
    requires few { length rows.now ≤ most_cycles }
    requires faults { All (Fits graph.now) (faults_of scripted.old.carried.items) }
    requires kept { keeps_of scripted.old.carried.items ≡ none_kept (faults_of scripted.old.carried.items) }
    ensures same { scripted.new.unit.ghost_name ≡ scripted.old.unit.ghost_name }
    ensures ran { IfOk result (λ v. GroupRan table.now graph.now (faults_of scripted.old.carried.items) rows.now
        (U.seen scripted.old.unit.now) (U.seen scripted.new.unit.now) v) }
    ensures none { OnErr result (U.seen scripted.new.unit.now ≡ U.seen scripted.old.unit.now) }
{
    let mut inputs = Row::zeros(alloc, graph.inputs())?;
    let mut outputs = Row::zeros(alloc, graph.outputs())?;
    match Pair::new(alloc, graph, table, other) {
        Ok(mut pair) => Ok(carry_rows(
            &mut pair,
            graph,
            table,
            other,
            rows,
            scripted,
            &mut inputs,
            &mut outputs,
        )),
        Err(Memory) => Err(Memory),
    }
}

/// The same by a pair before its first cycle, with rows for the inputs and the outputs of a cycle.
fn carry_rows<U: Unit>(
    pair: &mut Pair<'_>,
    graph: &Graph,
    table: &Table,
    other: &Table,
    rows: &RowList,
    scripted: &mut Scripted<'_, U>,
    inputs: &mut Row,
    outputs: &mut Row,
) -> PairVerdict
    requires fresh { pair.old ≡ fresh_pair graph.now table.now other.now }
    requires table { IsTableOf table.now graph.now }
    requires width { All (λ row. length row ≡ length graph.now.inputs) rows.now }
    requires few { length rows.now ≤ most_cycles }
    requires inputs { length inputs.old ≡ length graph.now.inputs }
    requires outputs { length outputs.old ≡ length graph.now.outputs }
    requires faults { All (Fits graph.now) (faults_of scripted.old.carried.items) }
    requires kept { keeps_of scripted.old.carried.items ≡ none_kept (faults_of scripted.old.carried.items) }
    ensures same { scripted.new.unit.ghost_name ≡ scripted.old.unit.ghost_name }
    ensures ran { GroupRan table.now graph.now (faults_of scripted.old.carried.items) rows.now
        (U.seen scripted.old.unit.now) (U.seen scripted.new.unit.now) result }
{
    // What these laws and calls ensure is known of each cycle and of the whole run.
    pairs_follow_their_answers();
    one_honest_channel_holds_the_pair();
    runs_under_acts_keep_the_run_law();
    scripted_runs_are_right_runs();
    ends_under_acts_are_read_off_the_answers();
    let _rules = graph.len();
    let _step = table.step();
    let _other = other.step();
    let mut second = CpuUnit::new();
    let count = rows.len() as u32;
    'rows: for cycle in 0..count {
        rows.get(cycle, inputs);
        match carry(pair, scripted, &mut second, inputs, outputs) {
            PairEnd::Released => {}
            end => return verdict_at(cycle, &end),
        }
    }
    PairVerdict::Same
}

/// One cycle of the pair, the first channel's calls one by one.
fn carry<U: Unit>(
    pair: &mut Pair<'_>,
    scripted: &mut Scripted<'_, U>,
    second: &mut CpuUnit,
    inputs: &Row,
    outputs: &mut Row,
) -> PairEnd
    requires going { pair.old.ended ≡ None }
    requires first_going { pair.old.first.ended ≡ None }
    requires between { pair.old.first.under_way ≡ false }
    requires few { pair.old.cycles < most_cycles }
    requires out { length outputs.old ≡ length pair.old.first.graph.outputs }
    ensures turn { PairTurn pair.old pair.new inputs.now result outputs.old outputs.new
        (outer_seen scripted.old.wrong) (outer_seen scripted.new.wrong) processor_seen processor_seen }
    ensures asked { CycleAsked (faults_of scripted.old.carried.items) (setting pair.old.first inputs.now) (keeps_of scripted.old.carried.items)
        pair.new.first.answers (keeps_of scripted.new.carried.items) (U.seen scripted.old.unit.now) (U.seen scripted.new.unit.now) }
    ensures between { pair.new.first.under_way ≡ false }
    ensures width { length outputs.new ≡ length outputs.old }
    ensures same { scripted.new.unit.ghost_name ≡ scripted.old.unit.ghost_name }
    ensures faults { faults_of scripted.new.carried.items ≡ faults_of scripted.old.carried.items }
{
    // A cycle that is carried by hand is whole.
    cycles_by_hand_are_whole();
    pairs_by_hand_are_whole();
    'calls: while let Some(call) = pair.next_call(inputs) {
        let answer = scripted.perform(&call);
        pair.put(answer);
    }
    pair.end(second, inputs, outputs)
}
