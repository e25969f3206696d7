//! Ranges of the operations of a cycle, of all or of the first ones, made narrower by what each operation gives and reads.

ghost use Rattle.std.specs.Prelude.{◌≡◌, ◌<◌, ◌≤◌, ℤ, true, List, length, take, nat_lt};
ghost use Rattle.vcp_base.specs.Kinds.{operands as operands_of};
ghost use Rattle.vcp_base.specs.Values.{at};
ghost use Rattle.op_graph.specs.GraphRun.{operand};
ghost use Rattle.range_walk.specs.Intervals.{IsIn, Fit};
ghost use Rattle.range_walk.specs.Walking.{OperandIs, OperandsAre, Narrows, Reads, ReadsCell};

use crate::operand_ranges::{Operands, narrowed};
use crate::operations::operation_at;
use crate::range::{Range, earlier_range};
use crate::told::{has_operand, read_operands, tell};
use op_graph::{Graph, Op};
use vcp_base::Kind;

/// How often the operations are gone through at most, each time from the last to the first and back.
const PASSES: u32 = 3;

/// Makes the range of operation `n`, whose value is in `r`, narrower.
pub fn put(ranges: &mut [Range], n: u32, r: Range)
    requires { n < length ranges.old }
    ensures many { length ranges.new ≡ length ranges.old }
    ensures fits { (vs : List ℤ) → n < length vs → Fit ranges.old vs → IsIn r (at vs n) → Fit ranges.new vs }
{
    let before = earlier_range(ranges, n);
    ranges[n as usize] = before.shared(r);
}

/// The first ranges.
pub fn first_ranges(ranges: &[Range], i: u32) -> &[Range]
    requires { i ≤ length ranges.now }
    ensures first { result.now ≡ take i ranges.now }
    ensures fits { (vs : List ℤ) → Fit ranges.now vs → Fit result.now vs }
{
    &ranges[..i as usize]
}

/// Whether the kind reads operation `n` as its operand `j`: a LOAD reads its cell.
fn reads_earlier(kind: Kind, j: u32) -> bool
    ensures has { result ≡ true → nat_lt j (operands_of kind) ≡ true }
    ensures other { result ≡ true → ReadsCell kind → ⊥ }
{
    match kind {
        Kind::Load => false,
        _ => has_operand(kind, j),
    }
}

/// Makes the range of what an operation reads as its operand `j`, which is operation `n`, narrower, where what is read is in `r`.
fn put_operand(cells: &[Range], ranges: &mut [Range], op: &Op, j: u32, n: u32, r: Range)
    requires { nat_lt j (operands_of op.now.kind) ≡ true → OperandIs (length cells.now) (length ranges.old) op.now.kind op.now.imm n }
    ensures many { length ranges.new ≡ length ranges.old }
    ensures fits { (held vs : List ℤ) → length ranges.old ≤ length vs → Fit ranges.old vs → IsIn r (operand held vs op.now j n) → Fit ranges.new vs }
{
    let reads = reads_earlier(op.kind, j);
    if reads {
        put(ranges, n, r);
    }
}

/// Makes the ranges of what an operation reads narrower, where its operands are in `o`.
fn put_operands(cells: &[Range], ranges: &mut [Range], op: &Op, o: Operands)
    requires { OperandsAre (length cells.now) (length ranges.old) op.now }
    ensures many { length ranges.new ≡ length ranges.old }
    ensures fits { (held vs : List ℤ) → length ranges.old ≤ length vs → Fit ranges.old vs → Reads held vs op.now o → Fit ranges.new vs }
{
    put_operand(cells, ranges, op, 0, op.a, o.first);
    put_operand(cells, ranges, op, 1, op.b, o.second);
    put_operand(cells, ranges, op, 2, op.c, o.third);
}

/// Makes the ranges of what operation `i` reads narrower by its own.
fn settle_operands(graph: &Graph, cells: &[Range], ranges: &mut [Range], i: u32)
    requires there { i < length ranges.old }
    requires many { length ranges.old ≤ length graph.now.operations }
    requires cells { length cells.now ≡ length graph.now.stores }
    ensures many { length ranges.new ≡ length ranges.old }
    ensures fits { Narrows graph.now.operations cells.now ranges.old ranges.new }
{
    let op = operation_at(graph, i);
    let r = earlier_range(ranges, i);
    let before = read_operands(cells, ranges, &op);
    let after = narrowed(op.kind, r, before);
    put_operands(cells, ranges, &op, after);
}

/// Makes the range of operation `i` narrower by what it reads, and then what it reads by its own.
fn settle(graph: &Graph, cells: &[Range], ranges: &mut [Range], i: u32)
    requires there { i < length ranges.old }
    requires many { length ranges.old ≤ length graph.now.operations }
    requires cells { length cells.now ≡ length graph.now.stores }
    ensures many { length ranges.new ≡ length ranges.old }
    ensures fits { Narrows graph.now.operations cells.now ranges.old ranges.new }
{
    let first = first_ranges(ranges, i);
    let told = tell(graph, cells, first, i);
    put(ranges, i, told.range);
    settle_operands(graph, cells, ranges, i);
}

/// How many operations have ranges.
pub fn count_of(graph: &Graph, ranges: &[Range]) -> u32
    requires { length ranges.now ≤ length graph.now.operations }
    ensures { result ≡ length ranges.now }
{
    let _most = graph.len();
    ranges.len() as u32
}

/// The place of step `k` of so many: from the last place back, or from the first on.
fn place_of(k: u32, count: u32, back: bool) -> u32
    requires { k < count }
    ensures { result < count }
{
    if back { count - 1 - k } else { k }
}

/// Does so for each operation: from the last to the first, or from the first to the last.
fn go_through(graph: &Graph, cells: &[Range], ranges: &mut [Range], back: bool)
    requires many { length ranges.old ≤ length graph.now.operations }
    requires cells { length cells.now ≡ length graph.now.stores }
    ensures many { length ranges.new ≡ length ranges.old }
    ensures fits { Narrows graph.now.operations cells.now ranges.old ranges.new }
{
    let count = count_of(graph, ranges);
    'operations: for k in 0..count {
        let i = place_of(k, count, back);
        settle(graph, cells, ranges, i);
    }
}

/// The sum of the sizes of the ranges, which is less where one is made narrower: the difference of the ends, and one more where 0 isn't left out.
fn sizes(ranges: &[Range]) -> i128 {
    let mut sum: i128 = 0;
    'ranges: for i in 0..ranges.len() {
        let r = ranges[i];
        let wide = r.high as i128 - r.low as i128;
        sum = sum.saturating_add(if r.nonzero { wide } else { wide + 1 });
    }
    sum
}

/// Makes the ranges of the operations of a cycle, at whose beginning the cells are in these ranges, narrower by one another: of all, or of
/// the first ones.
pub fn narrow(graph: &Graph, cells: &[Range], ranges: &mut [Range])
    requires many { length ranges.old ≤ length graph.now.operations }
    requires cells { length cells.now ≡ length graph.now.stores }
    ensures many { length ranges.new ≡ length ranges.old }
    ensures fits { Narrows graph.now.operations cells.now ranges.old ranges.new }
{
    'passes: for _ in 0..PASSES {
        let before = sizes(ranges);
        go_through(graph, cells, ranges, true);
        go_through(graph, cells, ranges, false);
        let after = sizes(ranges);
        let same = after == before;
        if same {
            return;
        }
    }
}
