//! Words of the cycle before, as operands: what has to be added for each is taken from a run without faults.

ghost use Rattle.std.specs.Prelude.{◌≡◌, ◌<◌, ◌+◌, ◌-◌, length, slice_get};
ghost use Rattle.std.specs.Option.{option_to_list};
ghost use Rattle.vcp_base.specs.Limits.{most_cycles};
ghost use Rattle.fault_sites.specs.Late.{late_addend, late_one};
ghost use Rattle.fault_sites.specs.Late.{may_be_late as may_be_late_of, read_word as read_word_of};
ghost use Rattle.fault_sites.specs.RunCycle.{as_cycle};

use crate::cycle_values::CycleValues;
use crate::flips::expected_word;
use crate::graph_values::{at, operand};
use coded_unit::Word;
use fault_script::Act;
use op_graph::{Graph, Op, named};
use signature_table::store_of;
use vcp_base::{Kind, operand_type, within};

/// Whether operand `j` may be the word of the cycle before of operation `r`, which is `source`: its type goes there, and it isn't what a LOAD reads anyway.
pub fn may_be_late(graph: &Graph, op: &Op, j: u32, r: u32, source: &Op) -> bool
    ensures { result ≡ may_be_late_of graph.now op.now j r source.now }
{
    if !within(source.ty, operand_type(op.kind, j, op.from)) {
        return false;
    }
    match op.kind {
        Kind::Load => match store_of(graph, op) {
            Some(store) => store != r,
            None => true,
        },
        _ => true,
    }
}

/// What operand `j` is: of a LOAD the word of its cell's STORE of the cycle before.
fn read_word(c: &CycleValues<'_>, op: &Op, j: u32) -> Word
    requires later { 0 < c.now.cycle }
    requires few { c.now.cycle < most_cycles }
    ensures { result ≡ read_word_of (as_cycle c.now) op.now j }
{
    let v = operand(c.cells, c.values, op, j);
    match op.kind {
        Kind::Load => match store_of(c.graph, op) {
            Some(store) => expected_word(c.table, c.cycle - 1, store, v),
            None => Word::ZERO,
        },
        _ => expected_word(c.table, c.cycle, named(op, j), v),
    }
}

/// By how much the word of operation `r` in the cycle before is more than operand `j`.
fn addend(c: &CycleValues<'_>, op: &Op, j: u32, r: u32) -> i128
    requires later { 0 < c.now.cycle }
    requires few { c.now.cycle < most_cycles }
    ensures { result ≡ late_addend (as_cycle c.now) op.now j r }
{
    let past = expected_word(c.table, c.cycle - 1, r, at(c.past, r as u64));
    past.get() - read_word(c, op, j).get()
}

/// Operand `j` as the word of the cycle before of operation `k` or the `i`th behind it, where that may stand for it and a line may have it: what is
/// added isn't 0, which would be no fault, and at most 2^62 in size.
pub(crate) fn late_of(c: &CycleValues<'_>, op: &Op, j: u32, k: u32, i: u32) -> Option<Act>
    requires later { 0 < c.now.cycle }
    requires few { c.now.cycle < most_cycles }
    requires there { i < length c.now.graph.now.operations - k }
    ensures { late_one (as_cycle c.now) op.now j (k + i) (slice_get c.now.graph.now.operations (k + i)) ≡ option_to_list result }
{
    // Operations are numbered in 32 bits.
    let _operations = c.graph.len();
    let r = k + i;
    let source = c.graph.operation(r);
    if !may_be_late(c.graph, op, j, r, &source) {
        return None;
    }
    let e = addend(c, op, j, r);
    if 0 < e.unsigned_abs() && -(1 << 62) <= e && e <= 1 << 62 {
        Some(Act::OperandAdd { j, e: e as i64 })
    } else {
        None
    }
}
