//! Which operations are needed: all that must stay, and what follows from these.

ghost use Rattle.std.specs.Option.{is_some};
ghost use Rattle.std.specs.Prelude.{◌≡◌, ◌⊎◌, ◌<◌, ◌≤◌, ◌++◌, ◌∷◌, ℕ, [], Some, true, false, length, replicate, slice_get, vec_capacity, IfOk};
ghost use Rattle.op_graph.specs.declared.op.Op.{Op as Operation};
ghost use Rattle.op_graph.specs.Reads.{named};
ghost use Rattle.op_graph.specs.Rules.{IsGraph, reads_as};
ghost use Rattle.graph_passes.specs.Marking.{Takes, OfOneCell, Follows, Queues, Grows, AreNeeded};
ghost use Rattle.graph_passes.specs.Part.{can_stop as can_stop_of, narrows as narrows_of};
ghost use Rattle.graph_passes.specs.Pruning.{Needed, must_stay as must_stay_of};
ghost use Rattle.graph_passes.specs.Tables.{IsNumbered, marked as marked_of};

use crate::part::{Places, numbered};
use op_graph::{
    Graph, Op, entries_are_found_by_one_walk, entries_keep_their_rules, operands_are_there,
    reads_operation,
};
use std::alloc::Global;
use vcp_base::{Kind, Memory, Ty, within};

/// Whether CONV to a type has not all values of the other.
fn narrows(from: Ty, to: Ty) -> bool
    ensures { result ≡ narrows_of from to }
{
    match from {
        Ty::Bool => false,
        _ => !within(from, to),
    }
}

/// Whether an operation of these types can stop where its operands are in their types. INPUT can: a row may
/// have any value at its place. So can arithmetic, and CONV to a type that has not all values of the other.
pub fn can_stop(kind: Kind, from: Ty, to: Ty) -> bool
    ensures { result ≡ can_stop_of kind from to }
{
    match kind {
        Kind::Input => true,
        Kind::Neg | Kind::Add | Kind::Sub | Kind::Mul | Kind::Div | Kind::Mod => true,
        Kind::Conv => narrows(from, to),
        _ => false,
    }
}

/// Whether the operation is an OUT, or can stop.
fn must_stay(op: &Op) -> bool
    ensures { result ≡ must_stay_of op.now }
{
    match op.kind {
        Kind::Out => true,
        _ => can_stop(op.kind, op.from, op.ty),
    }
}

/// Puts a number last in a queue that has room for it.
fn append(queue: &mut Vec<u32>, n: u32)
    requires { length queue.old.items < vec_capacity queue.old }
    ensures items { queue.new.items ≡ queue.old.items ++ n ∷ [] }
    ensures capacity { vec_capacity queue.old ≤ vec_capacity queue.new }
{
    if queue.push(n).is_err() {
        unreachable!()
    }
}

/// Marks operation `n` and puts it last in the queue, unless it is marked. The queue has room for all operations.
fn mark(marks: &mut [bool], queue: &mut Vec<u32>, n: u32)
    requires place { n < length marks.old }
    requires queue { Queues marks.old queue.old.items }
    requires room { length marks.old ≤ vec_capacity queue.old }
    ensures grows { Grows (λ k. k ≡ n) marks.old queue.old.items marks.new queue.new.items }
    ensures marked { marked_of marks.new n ≡ true }
    ensures room { length marks.new ≤ vec_capacity queue.new }
{
    if !marks[n as usize] {
        append(queue, n);
        marks[n as usize] = true;
    }
}

/// Marks what an operation reads as its operand `j`, which is operation `n`.
fn mark_operand(marks: &mut [bool], queue: &mut Vec<u32>, op: &Op, j: u32, n: u32)
    requires names { named op.now j ≡ n }
    requires there { is_some (reads_as op.now.kind op.now.from j) ≡ true → n < length marks.old }
    requires queue { Queues marks.old queue.old.items }
    requires room { length marks.old ≤ vec_capacity queue.old }
    ensures grows { Grows (Takes op.now) marks.old queue.old.items marks.new queue.new.items }
    ensures marked { is_some (reads_as op.now.kind op.now.from j) ≡ true → marked_of marks.new n ≡ true }
    ensures room { length marks.new ≤ vec_capacity queue.new }
{
    if reads_operation(op.kind, j) {
        mark(marks, queue, n);
    }
}

/// Marks what an operation reads.
fn mark_operands(marks: &mut [bool], queue: &mut Vec<u32>, op: &Op)
    requires there { (k : ℕ) → Takes op.now k → k < length marks.old }
    requires queue { Queues marks.old queue.old.items }
    requires room { length marks.old ≤ vec_capacity queue.old }
    ensures grows { Grows (Takes op.now) marks.old queue.old.items marks.new queue.new.items }
    ensures marked { (k : ℕ) → Takes op.now k → marked_of marks.new k ≡ true }
    ensures room { length marks.new ≤ vec_capacity queue.new }
{
    mark_operand(marks, queue, op, 0, op.a);
    mark_operand(marks, queue, op, 1, op.b);
    mark_operand(marks, queue, op, 2, op.c);
}

/// The other operation of the cell where operation `q` is a LOAD or a STORE, and else `q`.
fn other_of_cell(graph: &Graph, q: u32) -> u32
    requires graph { IsGraph graph.now }
    requires there { q < length graph.now.operations }
    ensures there { result < length graph.now.operations }
    ensures sound { (result ≡ q) ⊎ OfOneCell graph.now q result }
    ensures complete { (k : ℕ) → OfOneCell graph.now q k → k ≡ result }
{
    // A LOAD and a STORE have the number of their cell.
    entries_are_found_by_one_walk();
    entries_keep_their_rules();
    let op = graph.operation(q);
    match op.kind {
        Kind::Load => graph.cell(op.imm.unsigned_abs() as u32).store,
        Kind::Store => graph.cell(op.imm.unsigned_abs() as u32).load,
        _ => q,
    }
}

/// Marks what operation `q`, which is marked, cannot be kept without.
fn mark_following(graph: &Graph, marks: &mut [bool], queue: &mut Vec<u32>, q: u32)
    requires graph { IsGraph graph.now }
    requires many { length marks.old ≡ length graph.now.operations }
    requires queue { Queues marks.old queue.old.items }
    requires room { length marks.old ≤ vec_capacity queue.old }
    requires here { marked_of marks.old q ≡ true }
    ensures grows { Grows (Follows graph.now q) marks.old queue.old.items marks.new queue.new.items }
    ensures marked { (k : ℕ) → Follows graph.now q k → marked_of marks.new k ≡ true }
    ensures room { length marks.new ≤ vec_capacity queue.new }
{
    // What an operation reads is an earlier one.
    operands_are_there();
    let op = graph.operation(q);
    mark_operands(marks, queue, &op);
    let other = other_of_cell(graph, q);
    mark(marks, queue, other);
}

/// Marks operation `n`, where it must stay.
fn mark_if_it_stays(marks: &mut [bool], queue: &mut Vec<u32>, op: &Op, n: u32)
    requires place { n < length marks.old }
    requires queue { Queues marks.old queue.old.items }
    requires room { length marks.old ≤ vec_capacity queue.old }
    ensures grows { Grows (λ k. (k ≡ n) × (must_stay_of op.now ≡ true)) marks.old queue.old.items marks.new queue.new.items }
    ensures marked { must_stay_of op.now ≡ true → marked_of marks.new n ≡ true }
    ensures room { length marks.new ≤ vec_capacity queue.new }
{
    if must_stay(op) {
        mark(marks, queue, n);
    }
}

/// Marks all that must stay.
fn mark_what_stays(graph: &Graph, marks: &mut [bool], queue: &mut Vec<u32>)
    requires none { marks.old ≡ replicate (length graph.now.operations) false }
    requires empty { queue.old.items ≡ [] }
    requires room { length graph.now.operations ≤ vec_capacity queue.old }
    ensures many { length marks.new ≡ length graph.now.operations }
    ensures stays { (i : ℕ) (op : Operation) → slice_get graph.now.operations i ≡ Some op → must_stay_of op ≡ true → marked_of marks.new i ≡ true }
    ensures needed { (i : ℕ) → marked_of marks.new i ≡ true → Needed graph.now i }
    ensures queue { Queues marks.new queue.new.items }
    ensures room { length marks.new ≤ vec_capacity queue.new }
{
    'operations: for i in 0..graph.len() {
        mark_if_it_stays(marks, queue, &graph.operation(i), i);
    }
}

/// Marks what the operations in the queue cannot be kept without, from the first to the last of it.
fn mark_what_follows(graph: &Graph, marks: &mut [bool], queue: &mut Vec<u32>)
    requires many { length marks.old ≡ length graph.now.operations }
    requires queue { Queues marks.old queue.old.items }
    requires room { length marks.old ≤ vec_capacity queue.old }
    requires graph { IsGraph graph.now }
    ensures many { length marks.new ≡ length graph.now.operations }
    ensures kept { (k : ℕ) → marked_of marks.old k ≡ true → marked_of marks.new k ≡ true }
    ensures closed { (q k : ℕ) → Follows graph.now q k → marked_of marks.new q ≡ true → marked_of marks.new k ≡ true }
    ensures sound { ((k : ℕ) → marked_of marks.old k ≡ true → Needed graph.now k) → (k : ℕ) → marked_of marks.new k ≡ true → Needed graph.now k }
{
    let mut next = 0;
    'queue: while next < queue.len() {
        let q = queue[next];
        mark_following(graph, marks, queue, q);
        next += 1;
    }
}

/// Marks the operations that are needed.
fn mark_what_is_needed(graph: &Graph, marks: &mut [bool], queue: &mut Vec<u32>)
    requires graph { IsGraph graph.now }
    requires none { marks.old ≡ replicate (length graph.now.operations) false }
    requires empty { queue.old.items ≡ [] }
    requires room { length graph.now.operations ≤ vec_capacity queue.old }
    ensures { AreNeeded graph.now marks.new }
{
    mark_what_stays(graph, marks, queue);
    mark_what_follows(graph, marks, queue);
}

/// The places of the operations that are needed.
pub(crate) fn needed(alloc: Global, graph: &Graph) -> Result<Places, Memory>
    ensures needed { IfOk result (λ places. AreNeeded graph.now places.kept.items) }
    ensures numbered { IfOk result (λ places. IsNumbered places.kept.items places) }
{
    let count = graph.len() as usize;
    let mut marks = vec![in alloc; false; count]?;
    let mut queue = Vec::with_capacity(alloc, count)?;
    mark_what_is_needed(graph, &mut marks, &mut queue);
    numbered(alloc, marks)
}
