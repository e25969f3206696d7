//! Whether what was made twice is the same.

ghost use Rattle.std.specs.Prelude.{◌≡◌, IfErr, IfOk};
ghost use Rattle.vcp_inputs.specs.declared.refusal.NoInput.TheVariants as input;

use crate::refusal::NoInput;
use flat_stmt::flatten;
use op_graph::{Graph, Op};
use std::alloc::Global;
use vcp_base::{Memory, Text};
use vcp_typed::Typed;

/// A typed program, taken where the one that was made beside it has the same operations before any of these is left out. Else, and for
/// want of memory, it isn't taken.
pub(crate) fn taken_beside(alloc: Global, program: Typed, other: &Typed) -> Result<Typed, NoInput>
    ensures taken { IfOk result (λ typed. typed ≡ program) }
    ensures memory { IfErr result (λ why. why ≡ input.Memory) }
{
    let graph = match flatten(alloc, &program) {
        Ok(graph) => graph,
        Err(Memory) => return Err(NoInput::Memory),
    };
    match flatten(alloc, other) {
        Ok(beside) => if are_alike(&graph, &beside) {
            Ok(program)
        } else {
            Err(NoInput::Memory)
        },
        Err(Memory) => Err(NoInput::Memory),
    }
}

/// Whether two graphs have the same lists.
pub fn are_alike(graph: &Graph, other: &Graph) -> bool {
    graph.profile() == other.profile()
        && are_same_operations(graph.operations(), other.operations())
        && are_equal(graph.all_inputs(), other.all_inputs())
        && are_equal(graph.all_outputs(), other.all_outputs())
        && are_equal(graph.loads(), other.loads())
        && are_equal(graph.stores(), other.stores())
        && are_equal(graph.all_turn_nodes(), other.all_turn_nodes())
        && are_same_names(graph.all_names(), other.all_names())
}

// Whether two lists are equal.
fn are_equal<T: PartialEq>(list: &[T], other: &[T]) -> bool {
    list == other
}

// Whether two lists of operations are the same.
fn are_same_operations(operations: &[Op], others: &[Op]) -> bool {
    if operations.len() != others.len() {
        return false;
    }
    'operations: for i in 0..operations.len() {
        if !are_same(&operations[i], &others[i]) {
            return false;
        }
    }
    true
}

// Whether two operations are the same, with the places that they come from.
fn are_same(op: &Op, other: &Op) -> bool {
    op.kind == other.kind
        && op.from == other.from
        && op.ty == other.ty
        && op.a == other.a
        && op.b == other.b
        && op.c == other.c
        && op.imm == other.imm
        && op.spot.line == other.spot.line
        && op.spot.col == other.spot.col
        && op.turn == other.turn
}

// Whether two lists of names are the same.
fn are_same_names(names: &[Text], others: &[Text]) -> bool {
    if names.len() != others.len() {
        return false;
    }
    'names: for i in 0..names.len() {
        if names[i].bytes() != others[i].bytes() {
            return false;
        }
    }
    true
}
