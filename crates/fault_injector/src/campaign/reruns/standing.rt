//! The faults of a group that are in one cycle.

ghost use Rattle.std.specs.Prelude.{◌≡◌, ◌<◌, ◌≤◌, ◌==◌, ◌&&◌, ◌++◌, ◌∷◌, ◌+◌, [], ℕ, false, None, Some, cond, length, slice_get, vec_capacity};
ghost use Rattle.fault_script.specs.Changes.{acts_of};
ghost use Rattle.fault_injector.specs.Standing.{IsStanding, faults_in};

use fault_script::{Act, Fault, Group};

/// The faults of a group that are in one cycle, so that its operations needn't look at all others.
#[derive(Clone, Copy)]
pub(crate) struct Standing<'c> {
    /// The group.
    pub group: &'c Group,
    /// The number of the cycle, from 0.
    pub cycle: u32,
    /// The faults of the group that are in it, in their order.
    pub faults: &'c [Fault],
}

/// Appends a fault of this cycle where there is room, and no other.
fn append_in(faults: &mut Vec<Fault>, fault: Fault, cycle: u32)
    requires { length faults.old.items < vec_capacity faults.old }
    ensures items { faults.new.items ≡ faults.old.items ++ cond (fault.cycle == cycle) (fault ∷ []) [] }
    ensures few { length faults.new.items ≤ length faults.old.items + 1 }
    ensures capacity { vec_capacity faults.old ≤ vec_capacity faults.new }
{
    if fault.cycle == cycle {
        faults.push_reserved(fault);
    }
}

/// Gathers the faults of a group that are in a cycle where there is room for them.
pub(crate) fn gather(group: &Group, cycle: u32, faults: &mut Vec<Fault>)
    requires room { length group.now ≤ vec_capacity faults.old }
    ensures faults { faults.new.items ≡ faults_in cycle group.now }
    ensures capacity { vec_capacity faults.old ≤ vec_capacity faults.new }
{
    faults.clear();
    'faults: for i in 0..group.len() {
        append_in(faults, group.at(i), cycle);
    }
}

/// Whether a fault is at an operation in a cycle.
fn stands_at(fault: &Fault, cycle: u32, op: u32) -> bool
    ensures { result ≡ (fault.now.cycle == cycle && fault.now.op == op) }
{
    fault.cycle == cycle && fault.op == op
}

/// The fault at place `i`.
fn fault_at(faults: &[Fault], i: usize) -> Fault
    requires { i < length faults.now }
    ensures { slice_get faults.now i ≡ Some result }
{
    faults[i]
}

/// The act of the first of these faults at an operation in a cycle, where there is one.
fn first_act(faults: &[Fault], cycle: u32, op: u32) -> Option<Act>
    ensures { result ≡ acts_of faults.now cycle op }
{
    'faults: for i in 0..faults.len() {
        let fault = fault_at(faults, i);
        if stands_at(&fault, cycle, op) {
            return Some(fault.act);
        }
    }
    None
}

/// The act of the first fault of the group at an operation in the cycle, where there is one.
pub(crate) fn act_at(standing: &Standing<'_>, op: u32) -> Option<Act>
    requires { IsStanding standing.now }
    ensures { result ≡ acts_of standing.now.group.now standing.now.cycle op }
{
    first_act(standing.faults, standing.cycle, op)
}

/// The least of this operation and that of a fault.
fn earlier_op(fault: &Fault, before: u32) -> u32
    ensures within { result ≤ before }
    ensures passed { (k : ℕ) → k < result → false ≡ (fault.now.op == k) }
{
    before.min(fault.op)
}

/// The first operation at which there is a fault in the cycle, or `count` where that is less.
pub(crate) fn first_place(standing: &Standing<'_>, count: u32) -> u32
    requires { IsStanding standing.now }
    ensures within { result ≤ count }
    ensures none { (k : ℕ) → k < result → acts_of standing.now.group.now standing.now.cycle k ≡ None }
{
    let mut first = count;
    'faults: for i in 0..standing.faults.len() {
        let fault = fault_at(standing.faults, i);
        first = earlier_op(&fault, first);
    }
    first
}
