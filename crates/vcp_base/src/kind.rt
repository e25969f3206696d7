//! The kinds of elementary operations, and why one stops.

ghost use Rattle.std.specs.Prelude.{◌≡◌, pos, negsuc, ◌≤ℤ◌};
ghost use Rattle.vcp_base.specs.Kinds.{operands as operands_of, operand_type as operand_type_of, multiplier as multiplier_of};

use crate::ty::Ty;

/// What an elementary operation does. The variants are in the order of their codes, from 0.
#[derive(Clone, Copy, PartialEq, Eq)]
pub enum Kind {
    /// The value of an input in this cycle.
    Input,
    /// A constant.
    Const,
    /// The value that a cell holds.
    Load,
    /// The value that a cell holds from the next cycle on.
    Store,
    /// The value of an output.
    Out,
    /// The same value in another type.
    Conv,
    /// Arithmetic negation.
    Neg,
    /// Logical negation: 1 minus the operand.
    Not,
    /// The sum.
    Add,
    /// The first operand minus the second.
    Sub,
    /// The product.
    Mul,
    /// The first operand divided by the second, cut towards zero.
    Div,
    /// The remainder of that division, with the sign of the first operand.
    Mod,
    /// 1 where both operands are equal, else 0.
    Eq,
    /// 1 where the first operand is less than the second, else 0.
    Lt,
    /// 1 where both operands are 1, else 0.
    And,
    /// 1 where an operand is 1, else 0.
    Or,
    /// 1 where the operands differ, else 0.
    Xor,
    /// The second operand where the first is 0, else the third.
    Sel,
}

/// Why an operation, and with it the run, stops.
#[derive(Clone, Copy, PartialEq, Eq)]
pub enum StopKind {
    /// The result is outside its type.
    Range,
    /// The divisor is 0.
    DivZero,
    /// An operand is outside its type.
    Operand,
}

/// How many operands an operation of the kind has, 0 to 3.
pub fn operands(kind: Kind) -> u32
    ensures { result ≡ operands_of kind }
{
    match kind {
        Kind::Input | Kind::Const => 0,
        Kind::Load | Kind::Store | Kind::Out | Kind::Conv | Kind::Neg | Kind::Not => 1,
        Kind::Sel => 3,
        _ => 2,
    }
}

/// The type of operand `j`, counted from 0, of an operation on values of type `from`. It is BOOL for NOT,
/// AND, OR, XOR and the first operand of SEL, and else `from`.
pub fn operand_type(kind: Kind, j: u32, from: Ty) -> Ty
    ensures { result ≡ operand_type_of kind j from }
{
    match kind {
        Kind::Not | Kind::And | Kind::Or | Kind::Xor => Ty::Bool,
        Kind::Sel => if j == 0 { Ty::Bool } else { from },
        _ => from,
    }
}

/// The factor by which the residue of operand `j`, counted from 0, enters the residue of the
/// answer, -2 to 20; 0 where the kind has no operand `j`.
pub fn multiplier(kind: Kind, j: u32) -> i32
    ensures value { result ≡ multiplier_of kind j }
    ensures low { negsuc 1 ≤ℤ result }
    ensures high { result ≤ℤ pos 20 }
{
    let (first, second, third) = match kind {
        Kind::Input | Kind::Const => (0, 0, 0),
        Kind::Load | Kind::Store | Kind::Out | Kind::Conv => (1, 0, 0),
        Kind::Neg => (-1, 0, 0),
        Kind::Not => (-2, 0, 0),
        Kind::Add => (1, 1, 0),
        Kind::Sub => (1, -1, 0),
        Kind::Mul => (2, 3, 0),
        Kind::Div => (4, 5, 0),
        Kind::Mod => (6, 7, 0),
        Kind::Eq => (8, 9, 0),
        Kind::Lt => (10, 11, 0),
        Kind::And => (12, 13, 0),
        Kind::Or => (14, 15, 0),
        Kind::Xor => (16, 17, 0),
        Kind::Sel => (18, 19, 20),
    };
    match j {
        0 => first,
        1 => second,
        2 => third,
        _ => 0,
    }
}
