//! The types of operators.

ghost use Rattle.std.specs.Prelude.{◌≡◌, IfOk, option_map};
ghost use Rattle.vcp_typed.specs.Rules.{joined as joined_of, both_bool as both_bool_of, joined_or_bool as joined_or_bool_of};
ghost use Rattle.vcp_typed.specs.Rules.{common as common_of, signed as signed_of};
ghost use Rattle.vcp_typed.specs.TExprViews.{texpr_tree};
ghost use Rattle.vcp_typed.specs.Checked.{ty_of as type_of_value};
ghost use Rattle.st_types.specs.ExprTyping.{widened as widened_of};

use st_tree::{BinOp, UnOp};
use std::alloc::Global;
use vcp_base::{Memory, Ty};
use vcp_typed::{TExpr, ty_of};

/// The type to which two types of numbers widen.
pub(crate) fn joined(a: Ty, b: Ty) -> Option<Ty>
    ensures { result ≡ joined_of a b }
{
    match (a, b) {
        (Ty::Int, Ty::Int) => Some(Ty::Int),
        (Ty::Int, Ty::Dint) => Some(Ty::Dint),
        (Ty::Int, Ty::Lint) => Some(Ty::Lint),
        (Ty::Dint, Ty::Int | Ty::Dint) => Some(Ty::Dint),
        (Ty::Dint, Ty::Lint) => Some(Ty::Lint),
        (Ty::Lint, Ty::Int | Ty::Dint | Ty::Lint) => Some(Ty::Lint),
        (Ty::Int | Ty::Dint | Ty::Lint, Ty::Bool) => None,
        (Ty::Bool, _) => None,
    }
}

// BOOL, of two BOOL.
fn both_bool(a: Ty, b: Ty) -> Option<Ty>
    ensures { result ≡ both_bool_of a b }
{
    match (a, b) {
        (Ty::Bool, Ty::Bool) => Some(Ty::Bool),
        (Ty::Bool, Ty::Int | Ty::Dint | Ty::Lint) => None,
        (Ty::Int | Ty::Dint | Ty::Lint, _) => None,
    }
}

/// The common type of two numbers or of two BOOL.
pub(crate) fn joined_or_bool(a: Ty, b: Ty) -> Option<Ty>
    ensures { result ≡ joined_or_bool_of a b }
{
    match a {
        Ty::Bool => both_bool(a, b),
        Ty::Int | Ty::Dint | Ty::Lint => joined(a, b),
    }
}

/// The common type of an operator's operands, where it takes operands of these types.
pub fn common(op: BinOp, a: Ty, b: Ty) -> Option<Ty>
    ensures { result ≡ common_of op a b }
{
    match op {
        BinOp::Mul | BinOp::Div | BinOp::Mod | BinOp::Add | BinOp::Sub => joined(a, b),
        BinOp::Lt | BinOp::Gt | BinOp::Le | BinOp::Ge => joined(a, b),
        BinOp::Eq | BinOp::Ne => joined_or_bool(a, b),
        BinOp::And | BinOp::Xor | BinOp::Or => both_bool(a, b),
    }
}

/// The type of a value with an operator before it, where the operator takes an operand of this type.
pub(crate) fn signed(op: UnOp, ty: Ty) -> Option<Ty>
    ensures { result ≡ signed_of op ty }
{
    match (op, ty) {
        (UnOp::Neg, Ty::Int) => Some(Ty::Int),
        (UnOp::Neg, Ty::Dint) => Some(Ty::Dint),
        (UnOp::Neg, Ty::Lint) => Some(Ty::Lint),
        (UnOp::Neg, Ty::Bool) => None,
        (UnOp::Not, Ty::Bool) => Some(Ty::Bool),
        (UnOp::Not, Ty::Int | Ty::Dint | Ty::Lint) => None,
    }
}

/// The type of a checked expression, where there is one.
pub(crate) fn type_of(e: &Option<TExpr>) -> Option<Ty>
    ensures { result ≡ option_map type_of_value (option_map texpr_tree e.now) }
{
    match e {
        None => None,
        Some(e) => Some(ty_of(e)),
    }
}

/// The expression, whose type is `from`, where one of type `ty` is wanted: widened where `from` widens to that one.
pub fn widened_from(alloc: Global, ty: Ty, from: Ty, e: TExpr) -> Result<TExpr, Memory>
    ensures { IfOk result (λ r. texpr_tree r ≡ widened_of ty from (texpr_tree e)) }
{
    match (from, ty) {
        (Ty::Int, Ty::Dint | Ty::Lint) | (Ty::Dint, Ty::Lint) => match e {
            // A literal becomes one of the wider type.
            TExpr::Lit { value, spot, .. } => Ok(TExpr::Lit { ty, value, spot }),
            _ => TExpr::widen(alloc, ty, e),
        },
        _ => Ok(e),
    }
}

/// The expression where one of type `ty` is wanted, by its own type.
pub(crate) fn widened(alloc: Global, ty: Ty, e: TExpr) -> Result<TExpr, Memory>
    ensures { IfOk result
        (λ r. texpr_tree r ≡ widened_of ty (type_of_value (texpr_tree e)) (texpr_tree e)) }
{
    let from = ty_of(&e);
    widened_from(alloc, ty, from, e)
}
