//! Operations that read constants alone become constants.

ghost use Rattle.std.specs.Prelude.{◌≡◌, IfOk, Some, slice_get, []};
ghost use Rattle.graph_passes.specs.Folding.{computes as computes_of, constant as constant_of, fixed_operand as fixed_operand_of};
ghost use Rattle.graph_passes.specs.Folding.{fixed_value as fixed_value_of, folded_op as folded_op_of, folded_after, folded, NoneFolds};
ghost use Rattle.graph_passes.specs.SameRun.{MeansAs};

use crate::outcomes::value_given;
use op_graph::{Graph, Op};
use std::alloc::Global;
use vcp_base::{Kind, Memory, operands};

/// Replaces each operation that reads CONSTs alone and does not stop by the CONST of its value, with
/// its spot and its turn. INPUT, LOAD, STORE and OUT stay, and so does what stops: it stops in the run.
///
/// No operation is left that would be replaced. Where memory is wanting the graph is given up. Over every
/// list of rows the folded graph has the same rows of outputs and the same end: why it stopped, at which
/// place and in which turn node. It has the same code, names, inputs, output columns and turn nodes, and no
/// more operations.
pub fn fold(alloc: Global, graph: Graph) -> Result<Graph, Memory>
    ensures folded { IfOk result (λ g. g ≡ folded graph) }
    ensures means { IfOk result (λ g. MeansAs graph g) }
    ensures none_left { IfOk result (λ g. NoneFolds g) }
{
    let operations = folded_operations(alloc, graph.operations())?;
    Ok(graph.with_operations(operations))
}

/// The operations of a graph, each folded over those before it.
fn folded_operations(alloc: Global, operations: &[Op]) -> Result<Vec<Op>, Memory>
    ensures { IfOk result (λ left. left.items ≡ folded_after [] operations.now) }
{
    let mut left = Vec::new(alloc);
    'operations: for op in operations {
        let folded = folded_op(&left, *op);
        left.push(folded)?;
    }
    Ok(left)
}

/// An operation after those before it, or the CONST of its value.
fn folded_op(before: &[Op], op: Op) -> Op
    ensures { result ≡ folded_op_of before.now op }
{
    match fixed_value(before, &op) {
        None => op,
        Some(v) => Op {
            kind: Kind::Const,
            from: op.ty,
            ty: op.ty,
            a: 0,
            b: 0,
            c: 0,
            imm: v,
            spot: op.spot,
            turn: op.turn,
        },
    }
}

/// The value of an operation that reads CONSTs alone and does not stop.
fn fixed_value(before: &[Op], op: &Op) -> Option<i64>
    ensures { result ≡ fixed_value_of before.now op.now }
{
    if !computes(op.kind) {
        return None;
    }
    let a = fixed_operand(before, op.kind, 0, op.a)?;
    let b = fixed_operand(before, op.kind, 1, op.b)?;
    let c = fixed_operand(before, op.kind, 2, op.c)?;
    value_given(op, a, b, c)
}

/// Whether the kind has operands, and reads and writes no cell and no output.
fn computes(kind: Kind) -> bool
    ensures { result ≡ computes_of kind }
{
    match kind {
        Kind::Input | Kind::Const | Kind::Load | Kind::Store | Kind::Out => false,
        _ => true,
    }
}

/// The value of operand `j`, which reads operation `n`, where that is a CONST; 0 where there is no
/// such operand.
fn fixed_operand(before: &[Op], kind: Kind, j: u32, n: u32) -> Option<i64>
    ensures { result ≡ fixed_operand_of before.now kind j n }
{
    if j < operands(kind) {
        constant(before, n)
    } else {
        Some(0)
    }
}

/// The value of operation `n`, where that is a CONST.
fn constant(before: &[Op], n: u32) -> Option<i64>
    ensures { result ≡ constant_of (slice_get before.now n) }
{
    if n as usize >= before.len() {
        return None;
    }
    let op = &before[n as usize];
    match op.kind {
        Kind::Const => Some(op.imm),
        _ => None,
    }
}
