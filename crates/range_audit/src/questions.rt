//! Which condition is taken apart, where a number that is stored leaves its range.

use crate::boxes::Boxes;
use op_graph::{Graph, Op};
use range_walk::Range;
use vcp_base::{Kind, Ty};

/// How many operations are gone through from one that is stored to a condition.
const STEPS: u32 = 64;

/// No operation.
const NONE: u32 = u32::MAX;

/// The range at a place; all values where there is none.
pub(crate) fn range_or(ranges: &[Range], i: usize) -> Range {
    match ranges.get(i) {
        Some(range) => *range,
        None => Range::of_type(Ty::Lint),
    }
}

/// What an operation depends on next: of a SEL the condition where that is open, which is that it has more than one value, else what is taken;
/// of another operation the first operand that is open, else the second.
fn depends_on(ranges: &[Range], op: &Op) -> u32 {
    let first = range_or(ranges, op.a as usize);
    let open = first.low < first.high;
    match op.kind {
        Kind::Input | Kind::Const | Kind::Load => NONE,
        Kind::Sel => {
            if open {
                op.a
            } else if first.low == 0 {
                op.b
            } else {
                op.c
            }
        }
        _ => { if open { op.a } else { op.b } }
    }
}

/// An open condition on which the value of operation `i` depends: one by which a SEL takes, or else a BOOL that is read; no operation where
/// none is found.
pub(crate) fn open_condition(graph: &Graph, ranges: &[Range], i: u32) -> u32 {
    let mut at = i;
    'steps: for _ in 0..STEPS {
        if at >= graph.len() {
            return NONE;
        }
        let op = graph.operation(at);
        let next = depends_on(ranges, &op);
        if next == NONE {
            let range = range_or(ranges, at as usize);
            let is_condition = matches!(op.ty, Ty::Bool) && range.low < range.high;
            return if is_condition { at } else { NONE };
        }
        if op.kind == Kind::Sel && op.a == next {
            return next;
        }
        at = next;
    }
    NONE
}

/// The box in which the cell that operation `n` stores has its value; one of no cells where there is none.
pub(crate) fn box_of<'a>(graph: &Graph, ranges: &[Range], boxes: &'a Boxes, n: u32) -> &'a [Range] {
    let value = range_or(ranges, n as usize);
    let place = if n < graph.len() {
        graph.operation(n).imm.unsigned_abs() as usize
    } else {
        0
    };
    'boxes: for k in 0..boxes.len() {
        let cells = boxes.at(k);
        if boxes.len() == 1 || value.is_inside(range_or(cells, place)) {
            return cells;
        }
    }
    &[]
}

/// The range of cell `k` in a box, where the cell is a number; else all values.
pub(crate) fn wanted_at(graph: &Graph, cells: &[Range], k: usize) -> Range {
    match graph.loads().get(k) {
        Some(load) if !matches!(load.ty, Ty::Bool) => range_or(cells, k),
        _ => Range::of_type(Ty::Lint),
    }
}
