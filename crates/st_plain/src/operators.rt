//! The values of operators and functions.

ghost use Rattle.std.specs.Prelude.{◌≡◌, true, false, [], ◌∷◌, pos, int_rem};
ghost use Rattle.vcp_base.specs.Kinds.{same, truth as truth_of};
ghost use Rattle.vcp_base.specs.Types.{fits as fits_of};
ghost use Rattle.vcp_typed.specs.Meaning.{in_range as in_range_of, operate as operate_of, sign as sign_of, apply as apply_of};
ghost use Rattle.st_tree.specs.declared.expr.UnOp.TheVariants as un;
ghost use Rattle.vcp_base.specs.declared.ty.Ty.TheVariants as type_of;
ghost use Rattle.vcp_base.specs.declared.kind.StopKind.TheVariants as why;
ghost use Rattle.st_tree.specs.declared.expr.BinOp.TheVariants as bin;
ghost use Rattle.st_plain.specs.Outcomes.{outside};

use crate::stop::Stop;
use st_tree::{BinOp, UnOp};
use vcp_base::{Spot, StopKind, Ty, fits};
use vcp_typed::Fun;

/// 1 for true, 0 for false.
fn truth(b: bool) -> i64
    ensures { result ≡ truth_of b }
{
    if b { 1 } else { 0 }
}

/// The value where it is one of the type; else a stop.
fn in_range(ty: Ty, spot: Spot, v: i128) -> Result<i64, Stop>
    ensures { outside result ≡ in_range_of ty spot [] v }
{
    if fits(ty, v) {
        Ok(v as i64)
    } else {
        Err(Stop {
            kind: StopKind::Range,
            spot,
        })
    }
}

/// The stop of a division by 0.
fn division_by_zero(spot: Spot) -> Stop
    ensures kind { result.kind ≡ why.DivZero }
    ensures spot { result.spot ≡ spot }
{
    Stop {
        kind: StopKind::DivZero,
        spot,
    }
}

/// The quotient, cut towards zero.
fn quotient(ty: Ty, spot: Spot, a: i64, b: i64) -> Result<i64, Stop>
    ensures { outside result ≡ operate_of bin.Div ty spot [] a b }
{
    if b == 0 {
        return Err(division_by_zero(spot));
    }
    in_range(ty, spot, a as i128 / b as i128)
}

/// What the quotient leaves, with the sign of the dividend.
fn remainder(ty: Ty, spot: Spot, a: i64, b: i64) -> Result<i64, Stop>
    ensures { outside result ≡ operate_of bin.Mod ty spot [] a b }
{
    if b == 0 {
        return Err(division_by_zero(spot));
    }
    in_range(ty, spot, rest(a, b))
}

/// The remainder of that division, on 64 bits. By -1 nothing is left, and the quotient may have more bits.
fn rest(a: i64, b: i64) -> i128
    ensures { same b (pos 0) ≡ false → result ≡ int_rem a b }
{
    if b == 0 || b == -1 {
        0
    } else {
        (a % b) as i128
    }
}

/// The value of an operator between operands of the type. In `i128` no operator overflows.
pub fn operate(op: BinOp, ty: Ty, spot: Spot, a: i64, b: i64) -> Result<i64, Stop>
    ensures { outside result ≡ operate_of op ty spot [] a b }
{
    let x = a as i128;
    let y = b as i128;
    match op {
        BinOp::Mul => in_range(ty, spot, x * y),
        BinOp::Div => quotient(ty, spot, a, b),
        BinOp::Mod => remainder(ty, spot, a, b),
        BinOp::Add => in_range(ty, spot, x + y),
        BinOp::Sub => in_range(ty, spot, x - y),
        BinOp::Lt => Ok(truth(a < b)),
        BinOp::Gt => Ok(truth(b < a)),
        BinOp::Le => Ok(truth(a <= b)),
        BinOp::Ge => Ok(truth(b <= a)),
        BinOp::Eq => Ok(truth(a == b)),
        BinOp::Ne | BinOp::Xor => Ok(truth(a != b)),
        BinOp::And => Ok(truth(a == 1 && b == 1)),
        BinOp::Or => Ok(truth(a == 1 || b == 1)),
    }
}

/// The value of an operator before its operand; NOT has one of BOOL.
pub fn sign(op: UnOp, ty: Ty, spot: Spot, a: i64) -> Result<i64, Stop>
    requires { op ≡ un.Not → fits_of type_of.Bool a ≡ true }
    ensures { outside result ≡ sign_of op ty spot [] a }
{
    match op {
        UnOp::Neg => in_range(ty, spot, -(a as i128)),
        UnOp::Not => Ok(1 - a),
    }
}

/// The value of a function of at most three arguments; those that it hasn't count for nothing.
pub fn apply(fun: Fun, ty: Ty, spot: Spot, a: i64, b: i64, c: i64) -> Result<i64, Stop>
    ensures { outside result ≡ apply_of fun ty spot [] (a ∷ b ∷ c ∷ []) }
{
    match fun {
        Fun::Abs => in_range(ty, spot, a.unsigned_abs() as i128),
        Fun::Min => Ok(a.min(b)),
        Fun::Max => Ok(a.max(b)),
        Fun::Limit => Ok(b.max(a).min(c)),
        Fun::Sel => Ok(if a == 0 { b } else { c }),
        Fun::IntToDint | Fun::BoolToInt => Ok(a),
        Fun::IntToLint | Fun::DintToLint => Ok(a),
        Fun::DintToInt | Fun::LintToInt => in_range(Ty::Int, spot, a as i128),
        Fun::LintToDint => in_range(Ty::Dint, spot, a as i128),
    }
}
