//! How strongly operators bind.

ghost use Rattle.std.specs.Prelude.{◌≡◌, ◌≤◌};
ghost use Rattle.st_tree.specs.Operators.{level};

use crate::BinOp;

/// The level of an operator, 1 to 7: the greater, the more strongly it binds.
pub fn level_of(op: BinOp) -> u8
    ensures value { result ≡ level op }
    ensures most { result ≤ 7 }
{
    match op {
        BinOp::Or => 1,
        BinOp::Xor => 2,
        BinOp::And => 3,
        BinOp::Eq | BinOp::Ne => 4,
        BinOp::Lt | BinOp::Gt | BinOp::Le | BinOp::Ge => 5,
        BinOp::Add | BinOp::Sub => 6,
        BinOp::Mul | BinOp::Div | BinOp::Mod => 7,
    }
}
