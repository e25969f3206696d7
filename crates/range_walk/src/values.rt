//! Bounds of the values of each kind, where the operands are in ranges.

ghost use Rattle.std.specs.Prelude.{FitsSigned, ◌≡◌, ◌≢◌, ℤ, Bool, true, false, not, ◌&&◌, ◌||◌, cond, pos, negsuc, ◌≤ℤ◌, ◌+ℤ◌, ◌-ℤ◌, ◌*ℤ◌, neg_ℤ};
ghost use Rattle.std.specs.Prelude.{int_div, int_rem, int_lt};
ghost use Rattle.std.specs.Int.{w64};
ghost use Rattle.vcp_base.specs.Kinds.{value as value_of, divides_by_zero, same, truth};
ghost use Rattle.range_walk.specs.Intervals.{IsIn, IsWithin};

use crate::range::{Bounds, Range, both_hold, either_holds};
use op_graph::Op;
use vcp_base::Kind;

/// Bounds of a truth that is known to be 1, or known to be 0, or not known.
fn truth_bounds(yes: bool, no: bool) -> Bounds
    ensures { (b : Bool) → (yes ≡ true → b ≡ true) → (no ≡ true → b ≡ false) → IsWithin result (truth b) }
{
    if yes {
        return Bounds::only(1);
    }
    if no {
        return Bounds::only(0);
    }
    Bounds::between(0, 1)
}

/// The product of two integers of 64 bits.
fn times(x: i64, y: i64) -> i128
    ensures { result ≡ x *ℤ y }
{
    x as i128 * y as i128
}

/// The quotient of two integers of 64 bits, cut towards zero; 0 where the divisor is 0.
fn divided(x: i64, k: i64) -> i128
    ensures { k ≢ pos 0 → result ≡ int_div x k }
{
    if k == 0 { 0 } else { x as i128 / k as i128 }
}

/// Bounds of -x.
pub(crate) fn negated(a: Range) -> Bounds
    ensures { (x : ℤ) → IsIn a x → IsWithin result (neg_ℤ x) }
{
    Bounds {
        low: -(a.high as i128),
        high: -(a.low as i128),
        nonzero: a.nonzero,
    }
}

/// Bounds of x + y.
fn sum(a: Range, b: Range) -> Bounds
    ensures { (x y : ℤ) → IsIn a x → IsIn b y → IsWithin result (x +ℤ y) }
{
    Bounds::between(
        a.low as i128 + b.low as i128,
        a.high as i128 + b.high as i128,
    )
}

/// Bounds of x - y.
pub(crate) fn difference(a: Range, b: Range) -> Bounds
    ensures { (x y : ℤ) → IsIn a x → IsIn b y → IsWithin result (x -ℤ y) }
{
    Bounds::between(
        a.low as i128 - b.high as i128,
        a.high as i128 - b.low as i128,
    )
}

/// Bounds of x*y: the least and the greatest of the products of the ends, as it is not known which signs meet.
pub(crate) fn product(a: Range, b: Range) -> Bounds
    ensures { (x y : ℤ) → IsIn a x → IsIn b y → IsWithin result (x *ℤ y) }
{
    let low_low = times(a.low, b.low);
    let low_high = times(a.low, b.high);
    let high_low = times(a.high, b.low);
    let high_high = times(a.high, b.high);
    Bounds {
        low: low_low.min(low_high).min(high_low.min(high_high)),
        high: low_low.max(low_high).max(high_low.max(high_high)),
        nonzero: both_hold(a.nonzero, b.nonzero),
    }
}

/// The greatest size of a value of the range.
fn size(a: Range) -> i128
    ensures low { (x : ℤ) → IsIn a x → neg_ℤ result ≤ℤ x }
    ensures high { (x : ℤ) → IsIn a x → x ≤ℤ result }
    ensures most { result ≤ℤ pos 9223372036854775808 }
    ensures least { negsuc 9223372036854775807 ≤ℤ result }
{
    (a.high as i128).max(-(a.low as i128))
}

/// Bounds of x/k, where k isn't 0.
fn quotient_by(a: Range, k: i64) -> Bounds
    ensures { (x : ℤ) → IsIn a x → k ≢ pos 0 → IsWithin result (int_div x k) }
{
    let first = divided(a.low, k);
    let second = divided(a.high, k);
    Bounds::between(first.min(second), first.max(second))
}

/// Bounds of x/y, where y is above 0.
fn quotient_by_positive(a: Range) -> Bounds
    ensures { (x y : ℤ) → IsIn a x → pos 1 ≤ℤ y → IsWithin result (int_div x y) }
{
    Bounds::between(a.low.min(0) as i128, a.high.max(0) as i128)
}

/// Bounds of x/y.
fn quotient_by_any(a: Range) -> Bounds
    ensures { (x y : ℤ) → IsIn a x → IsWithin result (int_div x y) }
{
    let high = size(a);
    Bounds::between(-high, high)
}

/// Bounds of x/y, where y isn't 0.
pub(crate) fn quotient(a: Range, b: Range) -> Bounds
    ensures { (x y : ℤ) → IsIn a x → IsIn b y → y ≢ pos 0 → IsWithin result (int_div x y) }
{
    let divisor = b.without_zero();
    let k = divisor.low;
    let is_one = divisor.is_only(k);
    if is_one {
        return quotient_by(a, k);
    }
    if 0 < k {
        return quotient_by_positive(a);
    }
    quotient_by_any(a)
}

/// Bounds of the remainder of x/y, where y isn't 0: it is smaller than y in size, no larger than x, and has the sign of x.
pub(crate) fn rest(a: Range, b: Range) -> Bounds
    ensures { (x y : ℤ) → IsIn a x → IsIn b y → y ≢ pos 0 → IsWithin result (int_rem x y) }
{
    let below = size(b);
    Bounds::between(
        (a.low.min(0) as i128).max(1 - below),
        (a.high.max(0) as i128).min(below - 1),
    )
}

/// Bounds of x + y, an integer of 64 bits, where the two are within bounds.
pub(crate) fn sum_within(first: Bounds, second: Bounds) -> Bounds
    ensures { (x y : ℤ) → IsWithin first x → IsWithin second y → FitsSigned w64 (x +ℤ y) → IsWithin result (x +ℤ y) }
{
    Bounds::between(
        first.low.saturating_add(second.low),
        first.high.saturating_add(second.high),
    )
}

/// Whether no integer is in both ranges, as far as that is seen.
pub(crate) fn are_apart(a: Range, b: Range) -> bool
    ensures { result ≡ true → (x : ℤ) → IsIn a x → IsIn b x → ⊥ }
{
    let both = a.shared(b);
    both.is_empty()
}

/// Whether both ranges have one value, which is the same.
fn are_one(a: Range, b: Range) -> bool
    ensures { result ≡ true → (x y : ℤ) → IsIn a x → IsIn b y → x ≡ y }
{
    let first = a.is_only(a.low);
    let second = b.is_only(a.low);
    both_hold(first, second)
}

/// Bounds of whether x is less than y.
fn less(a: Range, b: Range) -> Bounds
    ensures { (x y : ℤ) → IsIn a x → IsIn b y → IsWithin result (truth (int_lt x y)) }
{
    let yes = a.high < b.low;
    let no = b.high <= a.low;
    truth_bounds(yes, no)
}

/// Bounds of whether both are 1.
fn both(a: Range, b: Range) -> Bounds
    ensures { (x y : ℤ) → IsIn a x → IsIn b y → IsWithin result (truth (same x (pos 1) && same y (pos 1))) }
{
    let a_is = a.is_only(1);
    let b_is = b.is_only(1);
    let a_is_not = a.excludes(1);
    let b_is_not = b.excludes(1);
    let yes = both_hold(a_is, b_is);
    let no = either_holds(a_is_not, b_is_not);
    truth_bounds(yes, no)
}

/// Bounds of whether one of the two is 1.
fn either(a: Range, b: Range) -> Bounds
    ensures { (x y : ℤ) → IsIn a x → IsIn b y → IsWithin result (truth (same x (pos 1) || same y (pos 1))) }
{
    let a_is = a.is_only(1);
    let b_is = b.is_only(1);
    let a_is_not = a.excludes(1);
    let b_is_not = b.excludes(1);
    let yes = either_holds(a_is, b_is);
    let no = both_hold(a_is_not, b_is_not);
    truth_bounds(yes, no)
}

/// The range of y where x is 0, else of z: y is in `b` in the first case, and z in `c` in the second. A case doesn't come where no value is
/// in its range.
pub(crate) fn chosen(a: Range, b: Range, c: Range) -> Range
    ensures { (x y z : ℤ) → IsIn a x → (x ≡ pos 0 → IsIn b y) → (x ≢ pos 0 → IsIn c z) → IsIn result (cond (same x (pos 0)) y z) }
{
    let is_zero = a.is_only(0);
    if is_zero {
        return b;
    }
    let is_one = a.excludes(0);
    if is_one {
        return c;
    }
    b.joined(c)
}

/// Bounds of the value of an operation over operands in these ranges, whose divisor isn't 0.
pub(crate) fn value_bounds(op: &Op, a: Range, b: Range, c: Range) -> Bounds
    ensures { (x y z : ℤ) → IsIn a x → IsIn b y → IsIn c z → divides_by_zero op.now.kind y ≡ false → IsWithin result (value_of op.now.kind op.now.imm x y z) }
{
    match op.kind {
        Kind::Input | Kind::Const => Bounds::only(op.imm as i128),
        Kind::Load => a.bounds(),
        Kind::Store => a.bounds(),
        Kind::Out => a.bounds(),
        Kind::Conv => a.bounds(),
        Kind::Neg => negated(a),
        Kind::Not => difference(Range::only(1), a),
        Kind::Add => sum(a, b),
        Kind::Sub => difference(a, b),
        Kind::Mul => product(a, b),
        Kind::Div => quotient(a, b),
        Kind::Mod => rest(a, b),
        Kind::Eq => truth_bounds(are_one(a, b), are_apart(a, b)),
        Kind::Lt => less(a, b),
        Kind::And => both(a, b),
        Kind::Or => either(a, b),
        Kind::Xor => truth_bounds(are_apart(a, b), are_one(a, b)),
        Kind::Sel => {
            let value = chosen(a, b, c);
            value.bounds()
        }
    }
}

/// Bounds of the value of an operation both of whose operands are the same value.
pub(crate) fn twice_bounds(op: &Op, a: Range, b: Range, c: Range) -> Bounds
    ensures { (x z : ℤ) → IsIn a x → IsIn b x → IsIn c z → divides_by_zero op.now.kind x ≡ false → IsWithin result (value_of op.now.kind op.now.imm x x z) }
{
    match op.kind {
        Kind::Sub => Bounds::only(0),
        Kind::Eq => Bounds::only(1),
        Kind::Lt => Bounds::only(0),
        Kind::Xor => Bounds::only(0),
        _ => value_bounds(op, a, b, c),
    }
}
