//! What operation an operator between operands becomes.

ghost use Rattle.std.specs.Prelude.{◌≡◌};
ghost use Rattle.flat_expr.specs.Forms.{manner_of, kind_of, left, right};

use st_tree::BinOp;
use vcp_base::Kind;

/// How the operation gives the operator's value.
#[derive(Clone, Copy)]
pub(crate) enum Manner {
    /// It can stop, so its operands are masked: the divisor, where it has one, by 1.
    Masked { one: bool },
    /// It gives the value itself.
    Alone,
    /// The value is NOT of what it gives.
    Denied,
}

/// How the operator's value is given.
pub(crate) fn manner_of(op: BinOp) -> Manner
    ensures { result ≡ manner_of op }
{
    match op {
        BinOp::Div | BinOp::Mod => Manner::Masked { one: true },
        BinOp::Mul | BinOp::Add | BinOp::Sub => Manner::Masked { one: false },
        BinOp::Le | BinOp::Ge | BinOp::Ne => Manner::Denied,
        _ => Manner::Alone,
    }
}

/// The kind of the operation. An order is told by `<` alone.
pub(crate) fn operation_kind(op: BinOp) -> Kind
    ensures { result ≡ kind_of op }
{
    match op {
        BinOp::Mul => Kind::Mul,
        BinOp::Div => Kind::Div,
        BinOp::Mod => Kind::Mod,
        BinOp::Add => Kind::Add,
        BinOp::Sub => Kind::Sub,
        BinOp::Lt | BinOp::Gt | BinOp::Le | BinOp::Ge => Kind::Lt,
        BinOp::Eq | BinOp::Ne => Kind::Eq,
        BinOp::And => Kind::And,
        BinOp::Or => Kind::Or,
        BinOp::Xor => Kind::Xor,
    }
}

/// The operands as the operation reads them: `>` and `<=` exchange theirs.
pub(crate) fn in_order(op: BinOp, a: u32, b: u32) -> (u32, u32)
    ensures left { result.0 ≡ left op a b }
    ensures right { result.1 ≡ right op a b }
{
    match op {
        BinOp::Gt | BinOp::Le => (b, a),
        _ => (a, b),
    }
}
