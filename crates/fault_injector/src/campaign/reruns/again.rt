//! The rerun of one cycle.

ghost use Rattle.std.specs.Prelude.{◌≡◌, ◌<◌, ◌≤◌, ◌∷◌, [], false, true, Some, length, slice_get, vec_capacity};
ghost use Rattle.vcp_base.specs.Limits.{most_cycles, most_operations};
ghost use Rattle.coded_unit.specs.Asked.{Asked};
ghost use Rattle.op_graph.specs.declared.op.Op.{Op as Operation};
ghost use Rattle.signature_table.specs.Signatures.{IsTableOf};
ghost use Rattle.coded_machine.specs.Calls.{AllWords, call_of};
ghost use Rattle.coded_machine.specs.Honest.{stop_answer};
ghost use Rattle.fault_injector.specs.Begun.{Comes, GoesOver, RanAgain, answers_in, begun};
ghost use Rattle.fault_injector.specs.Reruns.{source, source_touched};
ghost use Rattle.fault_injector.specs.Standing.{IsStanding};
ghost use Rattle.fault_injector.specs.Touched.{mark as mark_of};

use crate::campaign::reruns::reference::CycleAnswers;
use crate::campaign::reruns::room::append;
use crate::campaign::reruns::standing::{Standing, act_at};
use crate::{Past, answered, changed, is_skip, taken};
use coded_machine::{Setting, call_after, cycles_by_hand_are_whole, is_word};
use coded_unit::{Answer, Call, Unit, Word};
use fault_script::Act;
use op_graph::{Graph, Op};
use signature_table::Table;
use vcp_base::{Row, StopKind};

/// What the rerun of a cycle begins with.
#[derive(Clone, Copy)]
pub(crate) struct Begun<'c> {
    /// The operations, and what belongs to them.
    pub graph: &'c Graph,
    /// The numbers of the graph's code.
    pub table: &'c Table,
    /// The words of the cells.
    pub held: &'c [Word],
    /// The values of the inputs.
    pub row: &'c Row,
    /// The number of the cycle, and the faults that are in it.
    pub standing: Standing<'c>,
    /// The words that the cells had in the cycle before.
    pub past_held: &'c [Word],
    /// The answers of the cycle before.
    pub past: &'c [Answer],
    /// The answers of the run without the faults in this cycle.
    pub other: CycleAnswers<'c>,
    /// Which operations are touched.
    pub touched: &'c [bool],
}

/// The mark at place `k`, and none past the end.
#[inline(always)]
pub(crate) fn mark(marks: &[bool], k: u64) -> bool
    ensures { result ≡ mark_of marks.now k }
{
    match marks.get(k as usize) {
        Some(marked) => *marked,
        None => false,
    }
}

/// The answer that a stop is.
pub(crate) fn answer_for(kind: StopKind) -> Answer
    ensures { stop_answer (Some kind) ≡ result ∷ [] }
{
    match kind {
        StopKind::Range => Answer::Range,
        StopKind::DivZero => Answer::DivZero,
        StopKind::Operand => Answer::Operand,
    }
}

/// The answer of operation `k` in a cycle of the run without the faults, where that came so far.
fn answer_at(other: &CycleAnswers<'_>, k: u32) -> Option<Answer>
    ensures { result ≡ slice_get (answers_in other.now) k }
{
    let k = k as usize;
    let count = other.words.len();
    if k < count {
        return Some(Answer::Word(other.words[k]));
    }
    if k > count {
        return None;
    }
    match other.stop {
        Some(kind) => Some(answer_for(kind)),
        None => None,
    }
}

/// What is handed back at a touched operation, under an act that takes this word.
fn perform_under<U: Unit>(unit: &mut U, act: &Option<Act>, word: &Word, call: &Call) -> Answer
    requires { Asked call.now }
    ensures { Comes (source_touched act.now word.now call.now) (Some result)
        (U.seen unit.old).log (U.seen unit.new).log (U.seen unit.old).wrong (U.seen unit.new).wrong }
{
    // One call, or none, is carried.
    cycles_by_hand_are_whole();
    let Some(act) = act else {
        return unit.perform(call);
    };
    if is_skip(act) {
        return Answer::Word(*word);
    }
    let given = unit.perform(&changed(act, word, call));
    answered(act, word, &given)
}

/// The call of the operation behind these answers, before any change.
fn call_again(b: &Begun<'_>, op: &Op, own: &[Answer]) -> Call
    requires here { slice_get b.now.graph.now.operations (length own.now) ≡ Some op.now }
    requires few { length own.now ≤ most_operations }
    requires table { IsTableOf b.now.table.now b.now.graph.now }
    requires cycle { b.now.standing.cycle < most_cycles }
    ensures call { result ≡ call_of (begun b.now).setting op.now own.now }
    ensures asked { Asked result }
{
    let setting = Setting {
        graph: b.graph,
        table: b.table,
        held: b.held,
        row: b.row,
        cycle: b.standing.cycle,
    };
    call_after(&setting, op, own)
}

/// The answer of the operation behind these answers: that of the run without the faults where it isn't touched, and else one that is asked for, or a
/// skip's word. `None` where the cycle ended before.
fn answer_again<U: Unit>(b: &Begun<'_>, unit: &mut U, own: &[Answer]) -> Option<Answer>
    requires there { length own.now < length b.now.graph.now.operations }
    requires few { length own.now ≤ most_operations }
    requires table { IsTableOf b.now.table.now b.now.graph.now }
    requires standing { IsStanding b.now.standing }
    requires cycle { b.now.standing.cycle < most_cycles }
    ensures { (op : Operation) → slice_get b.now.graph.now.operations (length own.now) ≡ Some op →
        Comes (source (begun b.now) own.now op) result
        (U.seen unit.old).log (U.seen unit.new).log (U.seen unit.old).wrong (U.seen unit.new).wrong }
{
    // Where no call is made, none is carried.
    cycles_by_hand_are_whole();
    let k = own.len() as u32;
    if !mark(b.touched, k as u64) {
        return answer_at(&b.other, k);
    }
    let op = b.graph.operation(k);
    let act = act_at(&b.standing, k);
    let past = Past {
        held: b.past_held,
        answers: b.past,
    };
    let word = taken(&past, own, &op, &act);
    let call = call_again(b, &op, own);
    Some(perform_under(unit, &act, &word, &call))
}

/// Appends the words of the run without the faults at the operations that come next, up to one that is touched or that has no word there.
fn copy_untouched(b: &Begun<'_>, own: &mut Vec<Answer>)
    requires few { length own.old.items ≤ length b.now.graph.now.operations }
    requires room { length b.now.graph.now.operations ≤ vec_capacity own.old }
    ensures over { GoesOver (begun b.now) own.old.items own.new.items }
    ensures words { AllWords own.old.items → AllWords own.new.items }
    ensures few { length own.new.items ≤ length b.now.graph.now.operations }
    ensures longer { length own.old.items ≤ length own.new.items }
    ensures capacity { vec_capacity own.old ≤ vec_capacity own.new }
{
    let from = own.len();
    let to = b.other.words.len().min(b.graph.len() as usize);
    'words: for k in from..to {
        if mark(b.touched, k as u64) {
            return;
        }
        append(own, Answer::Word(b.other.words[k]));
    }
}

/// Reruns a cycle, up to a stop, and answers whether one came.
pub(crate) fn rerun_cycle<U: Unit>(b: &Begun<'_>, unit: &mut U, own: &mut Vec<Answer>) -> bool
    requires empty { own.old.items ≡ [] }
    requires room { length b.now.graph.now.operations ≤ vec_capacity own.old }
    requires few { length b.now.graph.now.operations ≤ most_operations }
    requires table { IsTableOf b.now.table.now b.now.graph.now }
    requires standing { IsStanding b.now.standing }
    requires cycle { b.now.standing.cycle < most_cycles }
    ensures ran { RanAgain (begun b.now) own.new.items
        (U.seen unit.old).log (U.seen unit.new).log (U.seen unit.old).wrong (U.seen unit.new).wrong }
    ensures words { result ≡ false → AllWords own.new.items }
    ensures few { length own.new.items ≤ length b.now.graph.now.operations }
    ensures capacity { vec_capacity own.old ≤ vec_capacity own.new }
{
    // No call is carried at first.
    cycles_by_hand_are_whole();
    let count = b.graph.len() as usize;
    copy_untouched(b, own);
    'operations: while own.len() < count {
        let Some(answer) = answer_again(b, unit, own) else {
            return false;
        };
        append(own, answer);
        if !is_word(&answer) {
            return true;
        }
        copy_untouched(b, own);
    }
    false
}
