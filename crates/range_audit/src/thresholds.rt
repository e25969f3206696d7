//! Numbers at which the range of a cell may come to rest: those that comparisons read, and their neighbours.

ghost use Rattle.std.specs.Prelude.{◌<◌, ◌≤◌, length};

use crate::effort::Effort;
use op_graph::Graph;
use std::alloc::Global;
use vcp_base::{Kind, Ty, greatest, least};

/// Appends the number of operation `n` and its neighbours, where the operation is a CONST.
fn push_number(numbers: &mut Vec<i64>, graph: &Graph, n: u32, effort: &mut Effort) {
    if n >= graph.len() {
        return;
    }
    let op = graph.operation(n);
    let near = [op.imm.saturating_sub(1), op.imm, op.imm.saturating_add(1)];
    if op.kind == Kind::Const && numbers.extend_from_slice(&near).is_err() {
        effort.lack();
    }
}

/// The numbers that the comparisons of a graph read, and their neighbours, in order; not all of them where memory is lacking.
pub(crate) fn thresholds(alloc: Global, graph: &Graph, effort: &mut Effort) -> Vec<i64> {
    let mut numbers = Vec::new(alloc);
    'operations: for i in 0..graph.len() {
        let op = graph.operation(i);
        if matches!(op.kind, Kind::Eq | Kind::Lt) {
            push_number(&mut numbers, graph, op.a, effort);
            push_number(&mut numbers, graph, op.b, effort);
        }
    }
    if numbers.sort().is_err() {
        effort.lack();
    }
    numbers
}

/// How many of these numbers, which are in order, are below `v`.
fn count_below(numbers: &[i64], v: i64) -> usize
    ensures { result ≤ length numbers.now }
{
    let mut low = 0;
    let mut high = numbers.len();
    'halves: while low < high {
        let middle = low + (high - low) / 2;
        if numbers[middle] < v {
            low = middle + 1;
        } else {
            high = middle;
        }
    }
    low
}

/// The least of these numbers that is no less than `v`, or the one so many behind it; the greatest value of the type where there is none
/// within it.
pub(crate) fn next_above(numbers: &[i64], v: i64, skip: usize, ty: Ty) -> i64 {
    let most = greatest(ty);
    let place = count_below(numbers, v).saturating_add(skip);
    match numbers.get(place) {
        Some(next) => if *next < most { *next } else { most },
        None => most,
    }
}

/// The greatest of these numbers that is no more than `v`, or the one so many before it; the least value of the type where there is
/// none within it.
pub(crate) fn next_below(numbers: &[i64], v: i64, skip: usize, ty: Ty) -> i64 {
    let fewest = least(ty);
    let count = count_below(numbers, v.saturating_add(1));
    if count <= skip {
        return fewest;
    }
    let next = numbers[count - skip - 1];
    if fewest < next { next } else { fewest }
}
