//! What the range of an operation's value tells of its operands.

ghost use Rattle.std.specs.Prelude.{◌≡◌, ℤ, pos, true, false, ◌&&◌, ◌||◌, ◌-ℤ◌, ◌*ℤ◌, cond, int_div, int_lt};
ghost use Rattle.vcp_base.specs.Kinds.{divides_by_zero, same, truth as truth_of, value as value_of};
ghost use Rattle.range_walk.specs.Intervals.{IsIn};
ghost use Rattle.range_walk.specs.Walking.{AreIn, Joins, Said};

use crate::range::{Bounds, Range, both_hold};
use crate::values::{are_apart, difference, product, quotient, rest, sum_within};
use vcp_base::Kind;

/// The ranges of what an operation reads as its operands.
#[derive(Clone, Copy)]
pub(crate) struct Operands {
    pub(crate) first: Range,
    pub(crate) second: Range,
    pub(crate) third: Range,
}

impl Operands {
    /// These three.
    pub(crate) fn new(first: Range, second: Range, third: Range) -> Operands
        ensures { (x y z : ℤ) → IsIn first x → IsIn second y → IsIn third z → AreIn result x y z }
    {
        Operands {
            first,
            second,
            third,
        }
    }
}

/// The ranges of operands, the first of which is in `r` too.
fn copied(r: Range, o: Operands) -> Operands
    ensures { (x y z : ℤ) → IsIn r x → AreIn o x y z → AreIn result x y z }
{
    Operands::new(o.first.shared(r), o.second, o.third)
}

/// The range of a condition that is `truth`.
pub(crate) fn said_range(a: Range, truth: bool) -> Range
    ensures { (x : ℤ) → IsIn a x → Said truth x → IsIn result x }
{
    if truth {
        return Range::only(1);
    }
    a.without_value(1)
}

/// The range of x, where 1 - x is in `r`.
fn denied(r: Range, a: Range) -> Range
    ensures { (x : ℤ) → IsIn r (pos 1 -ℤ x) → IsIn a x → IsIn result x }
{
    let one = Range::only(1);
    let bounds = difference(one, r);
    a.met(bounds)
}

/// Whether each value of a condition in the range says `truth`.
fn says(r: Range, truth: bool) -> bool
    ensures { result ≡ true → (v : ℤ) → IsIn r v → Said truth v }
{
    if truth {
        return r.is_only(1);
    }
    r.excludes(1)
}

/// The range of x, a condition that is joined with y to one in `r`, which says `truth` where both do, and only there.
fn joined(truth: bool, r: Range, a: Range, b: Range) -> Range
    ensures { (v x y : ℤ) → Joins truth v x y → IsIn r v → IsIn a x → IsIn b y → IsIn result x }
{
    let both = says(r, truth);
    if both {
        return said_range(a, truth);
    }
    let not_both = says(r, !truth);
    let other = says(b, truth);
    let out = both_hold(not_both, other);
    if out {
        return said_range(a, !truth);
    }
    a
}

/// The range of x, where that the two are equal is in `r`.
fn equal_to(r: Range, a: Range, b: Range) -> Range
    ensures { (x y : ℤ) → IsIn r (truth_of (same x y)) → IsIn a x → IsIn b y → IsIn result x }
{
    let yes = r.is_only(1);
    if yes {
        return a.shared(b);
    }
    let no = r.excludes(1);
    if no {
        return a.without(b);
    }
    a
}

/// The ranges of two values, where that the first is less than the second is in `r`.
fn ordered(r: Range, o: Operands) -> Operands
    ensures { (x y z : ℤ) → IsIn r (truth_of (int_lt x y)) → AreIn o x y z → AreIn result x y z }
{
    let (a, b) = (o.first, o.second);
    let yes = r.is_only(1);
    if yes {
        let less = Bounds::between(a.low as i128, b.high as i128 - 1);
        let more = Bounds::between(a.low as i128 + 1, b.high as i128);
        return Operands::new(a.met(less), b.met(more), o.third);
    }
    let no = r.excludes(1);
    if no {
        let both = Bounds::between(b.low as i128, a.high as i128);
        return Operands::new(a.met(both), b.met(both), o.third);
    }
    o
}

/// The ranges of a condition and of the two values of which it takes one, where what is taken is in `r`.
fn taken(r: Range, o: Operands) -> Operands
    ensures { (x y z : ℤ) → IsIn r (cond (same x (pos 0)) y z) → AreIn o x y z → AreIn result x y z }
{
    let (a, b, c) = (o.first, o.second, o.third);
    let no = a.is_only(0);
    if no {
        return Operands::new(a, b.shared(r), c);
    }
    let yes = a.excludes(0);
    if yes {
        return Operands::new(a, b, c.shared(r));
    }
    let not_first = are_apart(r, b);
    if not_first {
        return Operands::new(a.without_zero(), b, c);
    }
    let not_second = are_apart(r, c);
    if not_second {
        return Operands::new(Range::only(0), b, c);
    }
    o
}

/// The range of x, where x*y is in `r`: it is the quotient of the product by y, where y isn't 0.
fn factor(r: Range, a: Range, b: Range) -> Range
    ensures { (x y : ℤ) → IsIn r (x *ℤ y) → IsIn a x → IsIn b y → IsIn result x }
{
    let some = b.excludes(0);
    if some {
        let bounds = quotient(r, b);
        return a.met(bounds);
    }
    a
}

/// The range of x, where x/y is in `r`: it is y times the quotient, and the remainder.
fn dividend(r: Range, a: Range, b: Range) -> Range
    ensures { (x y : ℤ) → IsIn r (int_div x y) → IsIn a x → IsIn b y → IsIn result x }
{
    let some = b.excludes(0);
    if some {
        let multiple = product(r, b);
        let remainder = rest(a, b);
        let bounds = sum_within(multiple, remainder);
        return a.met(bounds);
    }
    a
}

/// The ranges of an operation's operands, which are in `o`, where its value is in `r`. A divisor of an operation that gave a value isn't 0.
pub(crate) fn narrowed(kind: Kind, r: Range, o: Operands) -> Operands
    ensures { (imm x y z : ℤ) → IsIn r (value_of kind imm x y z) → AreIn o x y z → divides_by_zero kind y ≡ false → AreIn result x y z }
{
    let (a, b, c) = (o.first, o.second, o.third);
    match kind {
        Kind::Store | Kind::Out | Kind::Conv => copied(r, o),
        Kind::Not => Operands::new(denied(r, a), b, c),
        Kind::And => Operands::new(joined(true, r, a, b), joined(true, r, b, a), c),
        Kind::Or => Operands::new(joined(false, r, a, b), joined(false, r, b, a), c),
        Kind::Eq => Operands::new(equal_to(r, a, b), equal_to(r, b, a), c),
        Kind::Lt => ordered(r, o),
        Kind::Sel => taken(r, o),
        Kind::Mul => Operands::new(factor(r, a, b), factor(r, b, a), c),
        Kind::Div => Operands::new(dividend(r, a, b), b.without_zero(), c),
        Kind::Mod => Operands::new(a, b.without_zero(), c),
        _ => o,
    }
}
