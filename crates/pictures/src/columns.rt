//! The columns of operations: by their depth.

ghost use Rattle.std.specs.Prelude.{◌≡◌, ◌<◌, ◌≤◌, ◌^◌, max, cond, ℕ, false, length, slice_get, slice_index_or, IfOk};
ghost use Rattle.pictures.specs.Constants.{is_constant as is_constant_of};
ghost use Rattle.pictures.specs.Depths.{one_deeper, depth_of, depths_of as depths_of_all, AreBelowTheirNumber, deepest as deepest_of};
ghost use Rattle.pictures.specs.Depths.{column_of as column_by};

use op_graph::{Graph, Op, reads_operation};
use std::alloc::Global;
use vcp_base::{Kind, Memory};

/// The greater of two numbers.
pub(crate) fn greater(a: u32, b: u32) -> u32
    ensures value { result ≡ max a b }
    ensures first { a ≤ result }
    ensures second { b ≤ result }
    ensures most { (n : ℕ) → a ≤ n → b ≤ n → result ≤ n }
{
    if a < b { b } else { a }
}

/// The greatest of these depths, and 0 where there are none.
pub(crate) fn deepest(depths: &[u32]) -> u32
    ensures { result ≡ deepest_of depths.now }
{
    let mut greatest = 0;
    'depths: for i in 0..depths.len() {
        greatest = greater(greatest, depths[i]);
    }
    greatest
}

/// The depth behind operation `n`, where `reads` says that it is read: one more than its own.
fn behind(depths: &[u32], n: u32, reads: bool) -> u32
    requires few { length depths.now < 2 ^ 17 }
    requires low { AreBelowTheirNumber depths.now }
    ensures value { result ≡ cond reads (one_deeper (slice_get depths.now n)) 0 }
    ensures few { result ≤ length depths.now }
{
    if !reads {
        return 0;
    }
    if n as usize >= depths.len() {
        return 0;
    }
    depths[n as usize] + 1
}

/// The depth of an operation behind those before it: one more than the greatest of its operands.
fn depth(depths: &[u32], op: &Op) -> u32
    requires few { length depths.now < 2 ^ 17 }
    requires low { AreBelowTheirNumber depths.now }
    ensures value { result ≡ depth_of depths.now op.now }
    ensures few { result ≤ length depths.now }
{
    let first = behind(depths, op.a, reads_operation(op.kind, 0));
    let second = behind(depths, op.b, reads_operation(op.kind, 1));
    let third = behind(depths, op.c, reads_operation(op.kind, 2));
    let deeper = greater(second, third);
    greater(first, deeper)
}

/// The depth of each operation.
pub(crate) fn depths_of(alloc: Global, graph: &Graph) -> Result<Vec<u32>, Memory>
    ensures value { IfOk result (λ depths. depths.items ≡ depths_of_all graph.now.operations) }
    ensures many { IfOk result (λ depths. length depths.items ≡ length graph.now.operations) }
    ensures low { IfOk result (λ depths. AreBelowTheirNumber depths.items) }
{
    let mut depths = Vec::new(alloc);
    'operations: for i in 0..graph.len() {
        let depth = depth(depths.as_slice(), &graph.operation(i));
        depths.push(depth)?;
    }
    Ok(depths)
}

/// The depth of operation `n` among these, and 0 where it isn't there.
pub(crate) fn depth_at(depths: &[u32], n: u32) -> u32
    requires { AreBelowTheirNumber depths.now }
    ensures value { result ≡ slice_index_or depths.now n 0 }
    ensures few { result ≤ length depths.now }
{
    if n as usize >= depths.len() {
        return 0;
    }
    depths[n as usize]
}

/// The column of an operation of this depth: the last one for what leaves the cycle, and one behind all others, `end`, for a constant, which
/// isn't drawn there.
pub(crate) fn column_of(kind: Kind, depth: u32, last: u32, end: u32) -> u32
    requires depth { depth ≤ end }
    requires last { last ≤ end }
    ensures few { result ≤ end }
    ensures drawn { is_constant_of kind ≡ false → result ≡ column_by kind depth last }
{
    match kind {
        Kind::Out | Kind::Store => last,
        Kind::Const => end,
        _ => depth,
    }
}
