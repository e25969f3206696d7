//! The answer of one operation of a run under a group of faults.

ghost use Rattle.std.specs.Prelude.{◌≡◌, ◌<◌, ◌≤◌, ◌==◌, ◌&&◌, Some, length, slice_get};
ghost use Rattle.vcp_base.specs.Limits.{most_cycles, most_operations};
ghost use Rattle.signature_table.specs.Signatures.{IsTableOf};
ghost use Rattle.fault_script.specs.Changes.{acts_of};
ghost use Rattle.verdict_tables.specs.AnswersOver.{next_answer as next_answer_of};
ghost use Rattle.verdict_tables.specs.Begun.{setting, acts, past};

use coded_machine::{Setting, call_after};
use coded_unit::{Answer, table};
use fault_injector::{Past, answered, changed, taken};
use fault_script::{Act, Fault, Group};
use op_graph::Op;

/// What a cycle begins with.
#[derive(Clone, Copy)]
pub(crate) struct Begun<'c> {
    /// What its calls are made of.
    pub setting: Setting<'c>,
    /// The faults.
    pub group: &'c Group,
    /// What the cycle before left.
    pub past: Past<'c>,
}

/// Whether a fault is at an operation in a cycle.
fn stands_at(fault: &Fault, cycle: u32, op: u32) -> bool
    ensures { result ≡ (fault.now.cycle == cycle && fault.now.op == op) }
{
    fault.cycle == cycle && fault.op == op
}

/// The act of the first fault of a group at an operation in a cycle, where there is one.
fn act_at(group: &Group, cycle: u32, op: u32) -> Option<Act>
    ensures { result ≡ acts_of group.now cycle op }
{
    'faults: for i in 0..group.len() {
        let fault = group.at(i);
        if stands_at(&fault, cycle, op) {
            return Some(fault.act);
        }
    }
    None
}

/// The answer of operation `op`, which comes behind these answers: the right one, but for the change of an act that is there.
pub(crate) fn next_answer(b: &Begun<'_>, op: &Op, own: &[Answer]) -> Answer
    requires here { slice_get b.now.setting.graph.now.operations (length own.now) ≡ Some op.now }
    requires few { length own.now ≤ most_operations }
    requires table { IsTableOf b.now.setting.table.now b.now.setting.graph.now }
    requires cycle { b.now.setting.cycle < most_cycles }
    ensures { result ≡ next_answer_of (setting b.now) (acts b.now) (past b.now) own.now op.now }
{
    let act = act_at(b.group, b.setting.cycle, own.len() as u32);
    let word = taken(&b.past, own, op, &act);
    let call = call_after(&b.setting, op, own);
    match &act {
        Some(act) => answered(act, &word, &table::answer(&changed(act, &word, &call))),
        None => table::answer(&call),
    }
}
