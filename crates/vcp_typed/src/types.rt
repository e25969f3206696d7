//! The types of values.

ghost use Rattle.std.specs.Prelude.{◌≡◌};
ghost use Rattle.vcp_typed.specs.Checked.{ty_of as type_of_value};
ghost use Rattle.vcp_typed.specs.Rules.{result as result_of};
ghost use Rattle.vcp_typed.specs.TExprViews.{texpr_tree};

use crate::expr::TExpr;
use st_tree::BinOp;
use vcp_base::Ty;

/// The type of an operator's value, where its operands have this one.
pub fn result(op: BinOp, ty: Ty) -> Ty
    ensures { result ≡ result_of op ty }
{
    match op {
        BinOp::Mul | BinOp::Div | BinOp::Mod | BinOp::Add | BinOp::Sub => ty,
        _ => Ty::Bool,
    }
}

/// The type of an expression's value.
pub fn ty_of(e: &TExpr) -> Ty
    ensures { result ≡ type_of_value (texpr_tree e.now) }
{
    match e {
        TExpr::Lit { ty, .. } => *ty,
        TExpr::Get { ty, .. } => *ty,
        TExpr::Widen { ty, .. } => *ty,
        TExpr::Unary { ty, .. } => *ty,
        TExpr::Binary { op, ty, .. } => result(*op, *ty),
        TExpr::Call { ty, .. } => *ty,
    }
}
