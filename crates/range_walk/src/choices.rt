//! What a condition tells of the values that it compares, where a SEL takes one of them by it.

ghost use Rattle.std.specs.Prelude.{◌≡◌, ◌<◌, ◌≤◌, ℤ, Bool, neg_ℤ, true, false, List, length};
ghost use Rattle.vcp_base.specs.Kinds.{divides_by_zero, value as value_of};
ghost use Rattle.vcp_base.specs.Values.{at};
ghost use Rattle.range_walk.specs.Intervals.{IsIn, Fit};
ghost use Rattle.range_walk.specs.Walking.{Given, Taken, Said, Parts, Compares};

use crate::operand_ranges::{Operands, narrowed, said_range};
use crate::operations::operation_at;
use crate::range::{Range, both_hold, earlier_range};
use crate::values::negated;
use op_graph::{Graph, Op};
use vcp_base::{Kind, Ty};

/// How many conditions deep is looked, each time into the first of the two that one joins.
const DEPTH: u32 = 8;

/// How many deep into the second of them. So few conditions are looked into of many that share their parts.
const SECOND_DEPTH: u32 = 2;

/// The range of operation `n`, which is in `r`, where of the operations that `op` reads the first is in `a` and the second in `b`, and what it
/// gives of them is in `value`.
fn compared(op: &Op, value: Range, a: Range, b: Range, n: u32, r: Range) -> Range
    ensures { (vs : List ℤ) → IsIn a (at vs op.now.a) → IsIn b (at vs op.now.b)
        → IsIn value (value_of op.now.kind op.now.imm (at vs op.now.a) (at vs op.now.b) (at vs op.now.b))
        → divides_by_zero op.now.kind (at vs op.now.b) ≡ false → IsIn r (at vs n) → IsIn result (at vs n) }
{
    let o = narrowed(op.kind, value, Operands::new(a, b, b));
    if n == op.a {
        return o.first;
    }
    if n == op.b {
        return o.second;
    }
    r
}

/// Whether the kind compares two values, and isn't LOAD.
fn is_comparison(kind: Kind) -> bool
    ensures { result ≡ true → Compares kind }
{
    match kind {
        Kind::Lt | Kind::Eq => true,
        _ => false,
    }
}

/// The range of operation `n` where the comparison `c` is `truth`; of what is no comparison nothing is said.
fn by_comparison(graph: &Graph, known: &[Range], c: u32, truth: bool, n: u32) -> Range
    requires condition { c < length known.now }
    requires there { n < length known.now }
    requires many { length known.now ≤ length graph.now.operations }
    ensures { (held row vs : List ℤ) → Given graph.now.operations held row vs → Fit known.now vs → length known.now ≤ length vs → Said truth (at vs c)
        → IsIn result (at vs n) }
{
    let op = operation_at(graph, c);
    let r = earlier_range(known, n);
    let pair = is_comparison(op.kind);
    if pair {
        let a = earlier_range(known, op.a);
        let b = earlier_range(known, op.b);
        let value = said_range(Range::of_type(Ty::Bool), truth);
        return compared(&op, value, a, b, n, r);
    }
    r
}

/// Whether the first operation takes what operation `n` gives where its condition is 0, and the second one is the negative of that.
fn is_size_of(op: &Op, other: &Op, n: u32) -> bool
    ensures takes { result ≡ true → op.now.b ≡ n }
    ensures kind { result ≡ true → other.now.kind ≡ Kind.Neg }
    ensures of { result ≡ true → other.now.a ≡ n }
{
    match other.kind {
        Kind::Neg => op.b == n && other.a == n,
        _ => false,
    }
}

/// The range of x, which is in `no` where a value in `r` is x, and in `yes` where it is -x.
fn of_either_sign(r: Range, no: Range, yes: Range) -> Range
    ensures same { (x : ℤ) → IsIn r x → IsIn no x → IsIn result x }
    ensures opposite { (x : ℤ) → IsIn r (neg_ℤ x) → IsIn yes x → IsIn result x }
{
    let opposite = negated(r);
    let positive = no.shared(r);
    let negative = yes.met(opposite);
    positive.joined(negative)
}

/// The range of operation `n` where operation `m` is in `value`: where that is `n`, or a SEL that takes what `n` gives or its negative, as ABS does.
fn made_of(graph: &Graph, known: &[Range], m: u32, value: Range, n: u32) -> Range
    requires made { m < length known.now }
    requires there { n < length known.now }
    requires many { length known.now ≤ length graph.now.operations }
    ensures { (held row vs : List ℤ) → Given graph.now.operations held row vs → Fit known.now vs → length known.now ≤ length vs
        → IsIn value (at vs m) → IsIn result (at vs n) }
{
    if n == m {
        return value;
    }
    let r = earlier_range(known, n);
    let op = operation_at(graph, m);
    match op.kind {
        Kind::Sel => {
            let other = operation_at(graph, op.c);
            let condition = earlier_range(known, op.a);
            let is_truth = condition.is_truth();
            let is_size = is_size_of(&op, &other, n);
            let found = both_hold(is_truth, is_size);
            if found {
                let no = by_comparison(graph, known, op.a, false, n);
                let yes = by_comparison(graph, known, op.a, true, n);
                return of_either_sign(value, no, yes);
            }
            r
        }
        _ => r,
    }
}

/// The range of operation `n` where comparison `c` is `truth`, by what the two values that it compares were made of.
fn through_comparison(graph: &Graph, known: &[Range], c: u32, truth: bool, n: u32) -> Range
    requires condition { c < length known.now }
    requires there { n < length known.now }
    requires many { length known.now ≤ length graph.now.operations }
    ensures { (held row vs : List ℤ) → Given graph.now.operations held row vs → Fit known.now vs → length known.now ≤ length vs → Said truth (at vs c)
        → IsIn result (at vs n) }
{
    let op = operation_at(graph, c);
    let pair = is_comparison(op.kind);
    if pair {
        let a = by_comparison(graph, known, c, truth, op.a);
        let b = by_comparison(graph, known, c, truth, op.b);
        let first = made_of(graph, known, op.a, a, n);
        let second = made_of(graph, known, op.b, b, n);
        return first.shared(second);
    }
    earlier_range(known, n)
}

/// The range of a value that is in both ranges, or in one of the two.
fn connected(both: bool, first: Range, second: Range) -> Range
    ensures { (v : ℤ) → Parts both (IsIn first v) (IsIn second v) → IsIn result v }
{
    if both {
        return first.shared(second);
    }
    first.joined(second)
}

/// The range of operation `n` where condition `c` is `truth`, by the conditions that `c` joins, so many deep.
fn case_within(graph: &Graph, known: &[Range], c: u32, truth: bool, n: u32, depth: u32) -> Range
    requires condition { c < length known.now }
    requires there { n < length known.now }
    requires many { length known.now ≤ length graph.now.operations }
    ensures { (held row vs : List ℤ) → Given graph.now.operations held row vs → Fit known.now vs → length known.now ≤ length vs → Said truth (at vs c)
        → IsIn result (at vs n) }
{
    if depth == 0 {
        return through_comparison(graph, known, c, truth, n);
    }
    let op = operation_at(graph, c);
    let less = depth - 1;
    match op.kind {
        Kind::Not => {
            let denied = earlier_range(known, op.a);
            if denied.is_truth() {
                return case_within(graph, known, op.a, !truth, n, less);
            }
            earlier_range(known, n)
        }
        Kind::And => {
            let first = case_within(graph, known, op.a, truth, n, less);
            let second = case_within(graph, known, op.b, truth, n, less.min(SECOND_DEPTH));
            connected(truth, first, second)
        }
        Kind::Or => {
            let one = case_within(graph, known, op.a, truth, n, less);
            let other = case_within(graph, known, op.b, truth, n, less.min(SECOND_DEPTH));
            connected(!truth, one, other)
        }
        _ => through_comparison(graph, known, c, truth, n),
    }
}

/// The range of operation `n` in the case that condition `c` is `truth`.
pub(crate) fn case_range(graph: &Graph, known: &[Range], c: u32, truth: bool, n: u32) -> Range
    requires condition { c < length known.now }
    requires there { n < length known.now }
    requires many { length known.now ≤ length graph.now.operations }
    ensures { (held row vs : List ℤ) → Given graph.now.operations held row vs → Fit known.now vs → length known.now ≤ length vs → Taken truth (at vs c)
        → IsIn result (at vs n) }
{
    let r = earlier_range(known, n);
    let is_one = r.is_only(r.low);
    if is_one {
        return r;
    }
    let condition = earlier_range(known, c);
    let is_truth = condition.is_truth();
    if is_truth {
        return case_within(graph, known, c, truth, n, DEPTH);
    }
    r
}
