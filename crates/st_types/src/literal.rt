//! The types of literals.

ghost use Rattle.std.specs.Prelude.{◌≡◌, Some};
ghost use Rattle.st_tree.specs.ExprViews.{expr_tree};
ghost use Rattle.st_types.specs.ExprTyping.{sized as sized_of, literal_type as type_of_literal, negated as negated_of};

use st_tree::{Expr, UnOp};
use vcp_base::{Spot, Ty, fits};

/// A literal without a type, and its spot.
#[derive(Clone, Copy, Drop)]
pub struct Untyped {
    pub value: i64,
    pub spot: Spot,
}

/// The least type of numbers that a value is in.
pub(crate) fn sized(value: i64) -> Ty
    ensures { Some result ≡ sized_of value }
{
    if fits(Ty::Int, i128::from(value)) {
        Ty::Int
    } else if fits(Ty::Dint, i128::from(value)) {
        Ty::Dint
    } else {
        Ty::Lint
    }
}

/// The type of a literal: as it is written, or by its value; none where it is outside.
pub fn literal_type(ty: Option<Ty>, value: i64) -> Option<Ty>
    ensures { result ≡ type_of_literal ty value }
{
    match ty {
        None => Some(sized(value)),
        Some(t) => {
            if fits(t, i128::from(value)) {
                Some(t)
            } else {
                None
            }
        }
    }
}

/// The literal without a type directly behind a `-`.
pub(crate) fn negated(op: UnOp, arg: &Expr) -> Option<Untyped>
    ensures { result ≡ negated_of op (expr_tree arg.now) }
{
    match op {
        UnOp::Not => None,
        UnOp::Neg => match arg {
            Expr::Lit { ty, value, spot } => match ty {
                None => Some(Untyped {
                    value: *value,
                    spot: *spot,
                }),
                Some(_) => None,
            },
            Expr::Name { .. } | Expr::Unary { .. } | Expr::Binary { .. } | Expr::Call { .. } =>
                None,
        },
    }
}
