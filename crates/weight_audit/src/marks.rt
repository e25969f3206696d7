//! From which operations a path leads to one output, across one number of cycle borders.

ghost use Rattle.std.specs.Option.{is_some};
ghost use Rattle.std.specs.Prelude.{◌≡◌, ◌⊎◌, ◌<◌, ◌≤◌, ℕ, true, false, length, replicate, IfOk};
ghost use Rattle.op_graph.specs.Lists.{cells};
ghost use Rattle.op_graph.specs.Reads.{named, Reads};
ghost use Rattle.op_graph.specs.Rules.{IsGraph, reads_as};
ghost use Rattle.weight_audit.specs.Paths.{Crosses, Reached};
ghost use Rattle.weight_audit.specs.Sweeping.{mark as mark_at, Takes, MarksRead, MarksStore, CrossesMarked, AreMarks, MarksBefore};

use op_graph::{Cell, Graph, Op, entries_keep_their_rules, operands_are_there, reads_operation};
use std::alloc::Global;
use vcp_base::Memory;

/// Marks operation `n`.
fn mark(marks: &mut [bool], n: u32)
    requires place { n < length marks.old }
    ensures many { length marks.new ≡ length marks.old }
    ensures kept { (k : ℕ) → mark_at marks.old k ≡ true → mark_at marks.new k ≡ true }
    ensures marked { mark_at marks.new n ≡ true }
    ensures sound { (k : ℕ) → mark_at marks.new k ≡ true → (mark_at marks.old k ≡ true) ⊎ (k ≡ n) }
{
    marks[n as usize] = true;
}

/// Marks what an operation reads as its operand `j`, which is operation `n`.
fn mark_operand(op: &Op, j: u32, n: u32, marks: &mut [bool])
    requires names { named op.now j ≡ n }
    requires there { is_some (reads_as op.now.kind op.now.from j) ≡ true → n < length marks.old }
    ensures many { length marks.new ≡ length marks.old }
    ensures kept { (k : ℕ) → mark_at marks.old k ≡ true → mark_at marks.new k ≡ true }
    ensures marked { is_some (reads_as op.now.kind op.now.from j) ≡ true → mark_at marks.new n ≡ true }
    ensures sound { (k : ℕ) → mark_at marks.new k ≡ true → (mark_at marks.old k ≡ true) ⊎ Takes op.now k }
{
    if reads_operation(op.kind, j) {
        mark(marks, n);
    }
}

/// Marks what an operation reads.
fn mark_operands(op: &Op, marks: &mut [bool])
    requires there { (k : ℕ) → Takes op.now k → k < length marks.old }
    ensures many { length marks.new ≡ length marks.old }
    ensures kept { (k : ℕ) → mark_at marks.old k ≡ true → mark_at marks.new k ≡ true }
    ensures marked { (k : ℕ) → Takes op.now k → mark_at marks.new k ≡ true }
    ensures sound { (k : ℕ) → mark_at marks.new k ≡ true → (mark_at marks.old k ≡ true) ⊎ Takes op.now k }
{
    mark_operand(op, 0, op.a, marks);
    mark_operand(op, 1, op.b, marks);
    mark_operand(op, 2, op.c, marks);
}

/// Marks what operation `q` reads, where it is marked itself.
fn mark_from(graph: &Graph, q: u32, marks: &mut [bool])
    requires graph { IsGraph graph.now }
    requires there { q < length graph.now.operations }
    requires count { length marks.old ≡ length graph.now.operations }
    ensures many { length marks.new ≡ length marks.old }
    ensures kept { (k : ℕ) → mark_at marks.old k ≡ true → mark_at marks.new k ≡ true }
    ensures marked { (k j : ℕ) → Reads graph.now.operations q k j → mark_at marks.old q ≡ true → mark_at marks.new k ≡ true }
    ensures sound { (k : ℕ) → mark_at marks.new k ≡ true → (mark_at marks.old k ≡ true) ⊎ MarksRead graph.now.operations marks.old q k }
{
    // What an operation reads is an earlier one.
    operands_are_there();
    let op = graph.operation(q);
    if marks[q as usize] {
        mark_operands(&op, marks);
    }
}

/// Goes from the last operation to the first, and marks what each marked one reads.
fn sweep(graph: &Graph, marks: &mut [bool])
    requires count { length marks.old ≡ length graph.now.operations }
    ensures many { length marks.new ≡ length marks.old }
    ensures kept { (k : ℕ) → mark_at marks.old k ≡ true → mark_at marks.new k ≡ true }
    ensures closed { (q k j : ℕ) → Reads graph.now.operations q k j → mark_at marks.new q ≡ true → mark_at marks.new k ≡ true }
    ensures sound { (out borders : ℕ) → ((k : ℕ) → mark_at marks.old k ≡ true → Reached graph.now out borders k) → (k : ℕ) → mark_at marks.new k ≡ true
        → Reached graph.now out borders k }
{
    // What an operation reads is an earlier one.
    operands_are_there();
    let count = graph.len();
    'operations: for done in 0..count {
        mark_from(graph, count - 1 - done, marks);
    }
}

/// Marks the OUT `out`, and the operations from which a path leads to it across no border.
fn mark_to_out(graph: &Graph, out: u32, marks: &mut [bool])
    requires out { out < length graph.now.operations }
    requires none { marks.old ≡ replicate (length graph.now.operations) false }
    ensures { AreMarks graph.now out 0 marks.new }
{
    mark(marks, out);
    sweep(graph, marks);
}

/// The marks of the operations from which a path leads to the OUT `out` across no border.
pub(crate) fn marks_at(alloc: Global, graph: &Graph, out: u32) -> Result<Vec<bool>, Memory>
    requires out { out < length graph.now.operations }
    ensures { IfOk result (λ marks. AreMarks graph.now out 0 marks.items) }
{
    let mut marks = vec![in alloc; false; graph.len() as usize]?;
    mark_to_out(graph, out, &mut marks);
    Ok(marks)
}

/// Marks the STORE of a cell, where its LOAD is marked.
fn cross(cell: &Cell, later: &[bool], marks: &mut [bool])
    requires store { cell.now.store < length marks.old }
    requires load { cell.now.load < length later.now }
    ensures many { length marks.new ≡ length marks.old }
    ensures kept { (k : ℕ) → mark_at marks.old k ≡ true → mark_at marks.new k ≡ true }
    ensures marked { mark_at later.now cell.now.load ≡ true → mark_at marks.new cell.now.store ≡ true }
    ensures sound { (k : ℕ) → mark_at marks.new k ≡ true → (mark_at marks.old k ≡ true) ⊎ MarksStore later.now cell.now k }
{
    if later[cell.load as usize] {
        mark(marks, cell.store);
    }
}

/// Marks the STOREs of the cells whose LOADs are marked.
fn mark_stores(graph: &Graph, later: &[bool], marks: &mut [bool])
    requires count { length later.now ≡ length graph.now.operations }
    requires graph { IsGraph graph.now }
    requires none { marks.old ≡ replicate (length graph.now.operations) false }
    ensures many { length marks.new ≡ length graph.now.operations }
    ensures marked { (k l : ℕ) → Crosses (cells graph.now) k l → mark_at later.now l ≡ true → mark_at marks.new k ≡ true }
    ensures sound { (k : ℕ) → mark_at marks.new k ≡ true → CrossesMarked (cells graph.now) later.now k }
{
    // The LOAD and the STORE of each cell are operations.
    entries_keep_their_rules();
    'cells: for i in 0..graph.cells() {
        cross(&graph.cell(i), later, marks);
    }
}

/// Marks the STOREs of the cells whose LOADs are marked, and the operations from which a path leads to
/// one of these without a border.
fn mark_to_border(graph: &Graph, later: &[bool], marks: &mut [bool])
    requires count { length later.now ≡ length graph.now.operations }
    requires graph { IsGraph graph.now }
    requires none { marks.old ≡ replicate (length graph.now.operations) false }
    ensures { MarksBefore graph.now later.now marks.new }
{
    mark_stores(graph, later, marks);
    sweep(graph, marks);
}

/// The marks for an OUT across one border more than those of `later`.
pub(crate) fn marks_before(
    alloc: Global,
    graph: &Graph,
    later: &[bool],
) -> Result<Vec<bool>, Memory>
    requires count { length later.now ≡ length graph.now.operations }
    ensures { IfOk result (λ marks. MarksBefore graph.now later.now marks.items) }
{
    let mut marks = vec![in alloc; false; graph.len() as usize]?;
    mark_to_border(graph, later, &mut marks);
    Ok(marks)
}
