//! What is found of one operation, where its operands are in ranges.

ghost use Rattle.std.specs.Prelude.{◌≡◌, ℤ, List, Some, true, false, length, slice_get, ◌<◌, ◌≤◌, nat_lt, unsigned_abs};
ghost use Rattle.vcp_base.specs.Kinds.{operands as operands_of, divides_by_zero, value as value_of};
ghost use Rattle.op_graph.specs.declared.op.Op.{Op as Operation};
ghost use Rattle.op_graph.specs.GraphRun.{operand, read};
ghost use Rattle.op_graph.specs.Rules.{is_input};
ghost use Rattle.range_walk.specs.Intervals.{IsIn, IsWithin, Fit, Hold};
ghost use Rattle.range_walk.specs.Walking.{Given, Tells, OperandIs, OperandsAre, Reads};

use crate::choices::case_range;
use crate::operand_ranges::Operands;
use crate::operations::operation_at;
use crate::range::{Bounds, Range, Stops, earlier_range, range_at};
use crate::values::{chosen, twice_bounds, value_bounds};
use op_graph::{Graph, Op};
use vcp_base::{Kind, operands};

/// What is found of an operation: the range of its values, and why it may stop.
#[derive(Clone, Copy)]
pub struct Told {
    /// The range of its values.
    pub range: Range,
    /// Why it may stop.
    pub stops: Stops,
}

/// Whether the kind divides, and a divisor in the range may be 0.
fn may_divide_by_zero(kind: Kind, b: Range) -> bool
    ensures { result ≡ false → (y : ℤ) → IsIn b y → divides_by_zero kind y ≡ false }
{
    match kind {
        Kind::Div | Kind::Mod => !b.excludes(0),
        _ => false,
    }
}

/// Whether an operation of the kind has operand `j`.
pub(crate) fn has_operand(kind: Kind, j: u32) -> bool
    ensures { result ≡ nat_lt j (operands_of kind) }
{
    j < operands(kind)
}

/// Whether an operation reads one operation as both its operands.
fn reads_one_twice(op: &Op) -> bool
    ensures { result ≡ true → (held vs : List ℤ) → operand held vs op.now 0 op.now.a ≡ operand held vs op.now 1 op.now.b }
{
    op.a == op.b && has_operand(op.kind, 1)
}

/// Bounds of the value of an operation that computes it, whose divisor isn't 0.
fn bounds_of(op: &Op, o: Operands) -> Bounds
    ensures { (held vs : List ℤ) → Reads held vs op.now o → divides_by_zero op.now.kind (operand held vs op.now 1 op.now.b) ≡ false
        → IsWithin result (value_of op.now.kind op.now.imm (operand held vs op.now 0 op.now.a) (operand held vs op.now 1 op.now.b)
        (operand held vs op.now 2 op.now.c)) }
{
    let twice = reads_one_twice(op);
    if twice {
        return twice_bounds(op, o.first, o.second, o.third);
    }
    value_bounds(op, o.first, o.second, o.third)
}

/// What is found of an operation that computes its value, within these bounds, and whose divisor is in `b`.
fn told_by(op: &Op, bounds: Bounds, b: Range) -> Told
    requires { is_input op.now.kind ≡ false }
    ensures { (held row vs : List ℤ) → IsIn b (operand held vs op.now 1 op.now.b)
        → (divides_by_zero op.now.kind (operand held vs op.now 1 op.now.b) ≡ false
        → IsWithin bounds (value_of op.now.kind op.now.imm (operand held vs op.now 0 op.now.a) (operand held vs op.now 1 op.now.b)
        (operand held vs op.now 2 op.now.c))) → Tells held row vs op.now result }
{
    let of_type = Range::of_type(op.ty);
    let fits = bounds.are_of_type(op.ty);
    let div_zero = may_divide_by_zero(op.kind, b);
    let range = of_type.met(bounds);
    Told {
        range,
        stops: Stops {
            range: !fits,
            div_zero,
        },
    }
}

/// What is found of an operation, over operands in these ranges.
fn told_of(op: &Op, o: Operands) -> Told
    ensures { (held row vs : List ℤ) → Reads held vs op.now o → Tells held row vs op.now result }
{
    match op.kind {
        Kind::Input => Told {
            range: Range::of_type(op.ty),
            stops: Stops {
                range: false,
                div_zero: false,
            },
        },
        _ => {
            let bounds = bounds_of(op, o);
            told_by(op, bounds, o.second)
        }
    }
}

/// The place of the cell that a LOAD reads, or of the input of an INPUT.
pub(crate) fn own_place(op: &Op) -> usize
    ensures { result ≡ unsigned_abs op.now.imm }
{
    op.imm.unsigned_abs() as usize
}

/// The range of what an operation reads as operation `n`, or for LOAD as its cell.
fn read_range(cells: &[Range], known: &[Range], op: &Op, n: u32) -> Range
    requires { OperandIs (length cells.now) (length known.now) op.now.kind op.now.imm n }
    ensures { (held vs : List ℤ) → Hold cells.now held → Fit known.now vs → length known.now ≤ length vs → IsIn result (read held vs op.now.kind op.now.imm n) }
{
    match op.kind {
        Kind::Load => {
            let place = own_place(op);
            range_at(cells, place)
        }
        _ => earlier_range(known, n),
    }
}

/// The range of what an operation reads as its operand `j`, which is operation `n`, or for LOAD its cell; 0 where it has no such operand.
fn operand_range(cells: &[Range], known: &[Range], op: &Op, j: u32, n: u32) -> Range
    requires { nat_lt j (operands_of op.now.kind) ≡ true → OperandIs (length cells.now) (length known.now) op.now.kind op.now.imm n }
    ensures { (held vs : List ℤ) → Hold cells.now held → Fit known.now vs → length known.now ≤ length vs → IsIn result (operand held vs op.now j n) }
{
    let has = has_operand(op.kind, j);
    if has {
        return read_range(cells, known, op, n);
    }
    Range::only(0)
}

/// The ranges of what an operation reads as its operands.
pub(crate) fn read_operands(cells: &[Range], known: &[Range], op: &Op) -> Operands
    requires { OperandsAre (length cells.now) (length known.now) op.now }
    ensures { (held vs : List ℤ) → Hold cells.now held → Fit known.now vs → length known.now ≤ length vs → Reads held vs op.now result }
{
    let first = operand_range(cells, known, op, 0, op.a);
    let second = operand_range(cells, known, op, 1, op.b);
    let third = operand_range(cells, known, op, 2, op.c);
    Operands::new(first, second, third)
}

/// What is found of a SEL, by what its condition says of what it takes.
fn choice(graph: &Graph, known: &[Range], op: &Op) -> Told
    requires many { length known.now ≤ length graph.now.operations }
    requires kind { op.now.kind ≡ Kind.Sel }
    requires first { op.now.a < length known.now }
    requires second { op.now.b < length known.now }
    requires third { op.now.c < length known.now }
    ensures { (held row vs : List ℤ) → Given graph.now.operations held row vs → Fit known.now vs → length known.now ≤ length vs
        → Tells held row vs op.now result }
{
    let a = earlier_range(known, op.a);
    let b = earlier_range(known, op.b);
    let no = case_range(graph, known, op.a, false, op.b);
    let yes = case_range(graph, known, op.a, true, op.c);
    let value = chosen(a, no, yes);
    told_by(op, value.bounds(), b)
}

/// What is found of operation `i`, where the cells are in these ranges, and so are the operations before it.
pub fn tell(graph: &Graph, cells: &[Range], known: &[Range], i: u32) -> Told
    requires there { i < length graph.now.operations }
    requires many { length known.now ≡ i }
    requires cells { length cells.now ≡ length graph.now.stores }
    ensures { (held row vs : List ℤ) (op : Operation) → slice_get graph.now.operations i ≡ Some op → Hold cells.now held
        → Given graph.now.operations held row vs
        → Fit known.now vs → length vs ≡ i → Tells held row vs op result }
{
    let op = operation_at(graph, i);
    match op.kind {
        Kind::Sel => choice(graph, known, &op),
        _ => {
            let o = read_operands(cells, known, &op);
            told_of(&op, o)
        }
    }
}
