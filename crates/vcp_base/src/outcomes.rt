//! What an operation gives over the values of its operands.

ghost use Rattle.std.specs.Prelude.{◌≡◌, ◌^◌, true, false, cond, ◌&&◌, ◌||◌, not, nat_lt, Err, IfOk, IfErr, FitsSigned};
ghost use Rattle.std.specs.Prelude.{pos, negsuc, ◌≤ℤ◌, int_div, int_rem, int_lt, neg_ℤ, ◌+ℤ◌, ◌-ℤ◌, ◌*ℤ◌};
ghost use Rattle.std.specs.Int.{w64};
ghost use Rattle.vcp_base.specs.Kinds.{takes as takes_of, operands as operands_of};
ghost use Rattle.vcp_base.specs.Kinds.{same, truth as truth_of, outcome as outcome_of, outcome_at};
ghost use Rattle.vcp_base.specs.Types.{fits as fits_of};
ghost use Rattle.vcp_base.specs.declared.kind.StopKind.TheVariants.{DivZero, Operand};

use crate::kind::{Kind, StopKind, operand_type, operands};
use crate::ty::{Ty, fits};

/// The value of an operation of the kind, on values of type `from`, to one of type `ty`, with its own
/// number `imm`, at these values of its operands; or why it stops.
///
/// `Operand` where an operand is outside its type, else `DivZero` where the divisor is 0, else `Range`
/// where the value is outside `ty`.
#[inline(always)]
pub fn outcome(
    kind: Kind,
    from: Ty,
    ty: Ty,
    imm: i64,
    a: i128,
    b: i128,
    c: i128,
) -> Result<i128, StopKind>
    ensures value { result ≡ outcome_of kind from ty imm a b c }
    ensures width { IfOk result (λ v. FitsSigned w64 v) }
    ensures low { IfOk result (λ v. negsuc (2 ^ 63) ≤ℤ v) }
    ensures high { IfOk result (λ v. v ≤ℤ pos (2 ^ 63)) }
{
    let a = taken(kind, 0, from, a)?;
    let b = taken(kind, 1, from, b)?;
    let c = taken(kind, 2, from, c)?;
    let v = short_outcome(kind, from, ty, imm, a, b, c)?;
    Ok(v as i128)
}

/// `v`, where it may be the value of operand `j`, else `Operand`. Where the kind has no operand `j`,
/// anything may, and 0 stands for it.
#[inline(always)]
fn taken(kind: Kind, j: u32, from: Ty, v: i128) -> Result<i64, StopKind>
    ensures ok { IfOk result (λ w. (takes_of kind j from v ≡ true) × (nat_lt j (operands_of kind) ≡ true → w ≡ v)) }
    ensures width { IfOk result (λ w. FitsSigned w64 w) }
    ensures err { IfErr result (λ e. (e ≡ Operand) × (takes_of kind j from v ≡ false)) }
{
    if j >= operands(kind) {
        return Ok(0);
    }
    if fits(operand_type(kind, j, from), v) {
        Ok(v as i64)
    } else {
        Err(StopKind::Operand)
    }
}

/// 1 for true, 0 for false.
#[inline(always)]
fn truth(b: bool) -> i128
    ensures { result ≡ truth_of b }
{
    if b { 1 } else { 0 }
}

/// What `outcome` gives, over values of 64 bits. It branches once on the kind.
#[inline(always)]
pub fn short_outcome(
    kind: Kind,
    from: Ty,
    ty: Ty,
    imm: i64,
    a: i64,
    b: i64,
    c: i64,
) -> Result<i64, StopKind>
    ensures { result ≡ outcome_of kind from ty imm a b c }
{
    match kind {
        Kind::Input => told(ty, true, imm as i128),
        Kind::Const => told(ty, true, imm as i128),
        Kind::Load => told(ty, is_in(from, a), same_value(a)),
        Kind::Store => told(ty, is_in(from, a), same_value(a)),
        Kind::Out => told(ty, is_in(from, a), same_value(a)),
        Kind::Conv => told(ty, is_in(from, a), same_value(a)),
        Kind::Neg => told(ty, is_in(from, a), negated(a)),
        Kind::Not => told(ty, is_in(Ty::Bool, a), difference(1, a)),
        Kind::Add => told(ty, are_in(from, a, b), sum(a, b)),
        Kind::Sub => told(ty, are_in(from, a, b), difference(a, b)),
        Kind::Mul => told(ty, are_in(from, a, b), product(a, b)),
        Kind::Div => divided(ty, are_in(from, a, b), b, quotient(a, b)),
        Kind::Mod => divided(ty, are_in(from, a, b), b, rest(a, b)),
        Kind::Eq => told(ty, are_in(from, a, b), equal(a, b)),
        Kind::Lt => told(ty, are_in(from, a, b), less(a, b)),
        Kind::And => told(ty, are_in(Ty::Bool, a, b), both(a, b)),
        Kind::Or => told(ty, are_in(Ty::Bool, a, b), either(a, b)),
        Kind::Xor => told(ty, are_in(Ty::Bool, a, b), differing(a, b)),
        Kind::Sel => told(ty, choice_is_in(from, a, b, c), chosen(a, b, c)),
    }
}

/// What an operation gives whose operands fit or not, and whose value is `v` where they do.
#[inline(always)]
fn told(ty: Ty, fit: bool, v: i128) -> Result<i64, StopKind>
    ensures { result ≡ outcome_at ty fit v }
{
    if !fit {
        return Err(StopKind::Operand);
    }
    if fits(ty, v) {
        Ok(v as i64)
    } else {
        Err(StopKind::Range)
    }
}

/// The same of a kind that divides, by `b`.
#[inline(always)]
fn divided(ty: Ty, fit: bool, b: i64, v: i128) -> Result<i64, StopKind>
    ensures { result ≡ cond fit (cond (same b (pos 0)) (Err DivZero) (outcome_at ty true v)) (Err Operand) }
{
    if !fit {
        return Err(StopKind::Operand);
    }
    if b == 0 {
        return Err(StopKind::DivZero);
    }
    told(ty, true, v)
}

/// Whether `v` is a value of the type.
#[inline(always)]
fn is_in(ty: Ty, v: i64) -> bool
    ensures { result ≡ fits_of ty v }
{
    match ty {
        Ty::Bool => 0 <= v && v <= 1,
        Ty::Int => -32768 <= v && v <= 32767,
        Ty::Dint => -2147483648 <= v && v <= 2147483647,
        Ty::Lint => true,
    }
}

/// Whether both are values of the type.
#[inline(always)]
fn are_in(ty: Ty, v: i64, w: i64) -> bool
    ensures { result ≡ (fits_of ty v && fits_of ty w) }
{
    is_in(ty, v) && is_in(ty, w)
}

/// The quotient, cut towards zero, of 64 bits where it has no more; 0 where the divisor is 0.
#[inline(always)]
fn quotient(a: i64, b: i64) -> i128
    ensures { same b (pos 0) ≡ false → result ≡ int_div a b }
{
    if b == 0 {
        0
    } else if b == -1 {
        negated(a)
    } else {
        (a / b) as i128
    }
}

/// The remainder of that division.
#[inline(always)]
fn rest(a: i64, b: i64) -> i128
    ensures { same b (pos 0) ≡ false → result ≡ int_rem a b }
{
    if b == 0 || b == -1 {
        0
    } else {
        (a % b) as i128
    }
}

/// The second where the first is 0, else the third.
#[inline(always)]
fn chosen(a: i64, b: i64, c: i64) -> i128
    ensures { result ≡ cond (same a (pos 0)) b c }
{
    if a == 0 { b as i128 } else { c as i128 }
}

/// Whether what a SEL reads are values of their types.
#[inline(always)]
fn choice_is_in(from: Ty, a: i64, b: i64, c: i64) -> bool
    ensures { result ≡ (fits_of Ty.Bool a && (fits_of from b && fits_of from c)) }
{
    is_in(Ty::Bool, a) && are_in(from, b, c)
}

/// The value itself.
#[inline(always)]
fn same_value(a: i64) -> i128
    ensures { result ≡ a }
{
    a as i128
}

/// The value with the other sign.
#[inline(always)]
fn negated(a: i64) -> i128
    ensures { result ≡ neg_ℤ a }
{
    -(a as i128)
}

/// The sum.
#[inline(always)]
fn sum(a: i64, b: i64) -> i128
    ensures { result ≡ a +ℤ b }
{
    a as i128 + b as i128
}

/// The difference.
#[inline(always)]
fn difference(a: i64, b: i64) -> i128
    ensures { result ≡ a -ℤ b }
{
    a as i128 - b as i128
}

/// The product.
#[inline(always)]
fn product(a: i64, b: i64) -> i128
    ensures { result ≡ a *ℤ b }
{
    a as i128 * b as i128
}

/// 1 where both are equal, else 0.
#[inline(always)]
fn equal(a: i64, b: i64) -> i128
    ensures { result ≡ truth_of (same a b) }
{
    truth(a == b)
}

/// 1 where the first is less, else 0.
#[inline(always)]
fn less(a: i64, b: i64) -> i128
    ensures { result ≡ truth_of (int_lt a b) }
{
    truth(a < b)
}

/// 1 where both are 1, else 0.
#[inline(always)]
fn both(a: i64, b: i64) -> i128
    ensures { result ≡ truth_of (same a (pos 1) && same b (pos 1)) }
{
    truth(a == 1 && b == 1)
}

/// 1 where one of the two is 1, else 0.
#[inline(always)]
fn either(a: i64, b: i64) -> i128
    ensures { result ≡ truth_of (same a (pos 1) || same b (pos 1)) }
{
    truth(a == 1 || b == 1)
}

/// 1 where the two differ, else 0.
#[inline(always)]
fn differing(a: i64, b: i64) -> i128
    ensures { result ≡ truth_of (not (same a b)) }
{
    truth(a != b)
}
