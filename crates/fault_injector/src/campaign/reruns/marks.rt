//! Which operations and cells a group of faults touches.

ghost use Rattle.std.specs.Prelude.{◌≡◌, ℕ, false, None, ◌<◌, ◌≤◌, length, vec_capacity};
ghost use Rattle.fault_script.specs.Changes.{acts_of};
ghost use Rattle.fault_injector.specs.Begun.{answers_in};
ghost use Rattle.fault_injector.specs.Standing.{IsStanding};
ghost use Rattle.fault_injector.specs.Touched.{BeginMarks, cycle_marks, held_marks, mark as mark_of, operand_touched as operand_touched_of};
ghost use Rattle.fault_injector.specs.Touched.{past_touched_stop as past_touched_stop_of, touched_at};

use crate::campaign::reruns::again::mark;
use crate::campaign::reruns::passing::none_marked;
use crate::campaign::reruns::reference::CycleAnswers;
use crate::campaign::reruns::room::append;
use crate::campaign::reruns::standing::{Standing, act_at, first_place};
use op_graph::{Graph, Op, named};
use vcp_base::{Kind, operands};

/// Whether an operation has an operand `j`, and what it reads there is touched: a cell for LOAD, and else an operation.
fn operand_touched(cells: &[bool], given: &[bool], op: &Op, j: u32) -> bool
    ensures { result ≡ operand_touched_of (record { held = cells.now; given = given.now }) op.now j }
{
    if operands(op.kind) <= j {
        return false;
    }
    match op.kind {
        Kind::Load => mark(cells, op.imm.unsigned_abs()),
        _ => mark(given, named(op, j) as u64),
    }
}

/// How many operations answered in a cycle, a stop counted.
fn answered(other: &CycleAnswers<'_>) -> usize
    ensures { result ≡ length (answers_in other.now) }
{
    match other.stop {
        Some(_) => other.words.len() + 1,
        None => other.words.len(),
    }
}

/// Whether the run without the faults stopped before operation `k`, at one that is touched.
fn past_touched_stop(other: &CycleAnswers<'_>, given: &[bool], k: u32) -> bool
    ensures { result ≡ past_touched_stop_of (answers_in other.now) given.now k }
{
    let count = answered(other);
    if (k as usize) < count {
        return false;
    }
    mark(given, count.saturating_sub(1) as u64)
}

/// Whether operation `k` is touched in a cycle.
fn touched(
    standing: &Standing<'_>,
    other: &CycleAnswers<'_>,
    cells: &[bool],
    given: &[bool],
    op: &Op,
    k: u32,
) -> bool
    requires { IsStanding standing.now }
    ensures { result ≡ touched_at (answers_in other.now) (acts_of standing.now.group.now standing.now.cycle)
        (record { held = cells.now; given = given.now }) k op.now }
{
    act_at(standing, k).is_some()
        || operand_touched(cells, given, op, 0)
        || operand_touched(cells, given, op, 1)
        || operand_touched(cells, given, op, 2)
        || past_touched_stop(other, given, k)
}

/// How many operations at the front are surely not touched in a cycle that begins with these marks of cells: those before the first one that has a
/// fault, where no cell is marked.
fn untouched_front(standing: &Standing<'_>, cells: &[bool], count: u32) -> u32
    requires { IsStanding standing.now }
    ensures within { result ≤ count }
    ensures cells { 0 < result → (i : ℕ) → mark_of cells.now i ≡ false }
    ensures faults { (k : ℕ) → k < result → acts_of standing.now.group.now standing.now.cycle k ≡ None }
{
    if !none_marked(cells) {
        return 0;
    }
    first_place(standing, count)
}

/// Sets the marks of the operations at the front that are surely not touched, and answers how many there are.
fn mark_front(graph: &Graph, standing: &Standing<'_>, cells: &[bool], marks: &mut Vec<bool>) -> u32
    requires standing { IsStanding standing.now }
    requires room { length graph.now.operations ≤ vec_capacity marks.old }
    ensures begin { BeginMarks graph.now (acts_of standing.now.group.now standing.now.cycle) cells.now marks.new.items }
    ensures count { result ≡ length marks.new.items }
    ensures capacity { vec_capacity marks.old ≤ vec_capacity marks.new }
{
    let front = untouched_front(standing, cells, graph.len());
    marks.clear();
    'front: for _k in 0..front {
        append(marks, false);
    }
    front
}

/// Marks the operations that are touched in a cycle that begins with these marks of cells.
pub(crate) fn mark_operations(
    graph: &Graph,
    standing: &Standing<'_>,
    other: &CycleAnswers<'_>,
    cells: &[bool],
    marks: &mut Vec<bool>,
)
    requires standing { IsStanding standing.now }
    requires room { length graph.now.operations ≤ vec_capacity marks.old }
    ensures marks { marks.new.items ≡ (cycle_marks graph.now (answers_in other.now) (acts_of standing.now.group.now standing.now.cycle) cells.now).given }
    ensures capacity { vec_capacity marks.old ≤ vec_capacity marks.new }
{
    let count = graph.len();
    let front = mark_front(graph, standing, cells, marks);
    'operations: for k in front..count {
        let op = graph.operation(k);
        let marked = touched(standing, other, cells, marks, &op, k);
        append(marks, marked);
    }
}

/// Marks the cells that are touched after a cycle with these marks of operations.
pub(crate) fn mark_cells(graph: &Graph, given: &[bool], marks: &mut Vec<bool>)
    requires room { length graph.now.stores ≤ vec_capacity marks.old }
    ensures marks { marks.new.items ≡ held_marks graph.now given.now }
    ensures capacity { vec_capacity marks.old ≤ vec_capacity marks.new }
{
    marks.clear();
    let stores = graph.stores();
    'cells: for i in 0..stores.len() {
        append(marks, mark(given, stores[i] as u64));
    }
}
