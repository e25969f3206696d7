//! Instructions.

use st_tree::BinOp;
use vcp_base::{Spot, Ty};

/// What an instruction works on, with its type.
#[derive(Clone, Copy)]
pub enum Operand {
    /// A variable, by the number of its slot.
    Variable { slot: u32, ty: Ty },
    /// A literal, by its value.
    Number { ty: Ty, value: i64 },
}

/// What an instruction does with the current result. `negated` is the N of its operator.
#[derive(Clone, Copy)]
pub enum Action {
    /// LD and LDN: the operand becomes the result.
    Load {
        negated: bool,
        operand: Operand,
    },
    /// ST and STN: a variable gets the result.
    Store {
        negated: bool,
        slot: u32,
        ty: Ty,
    },
    /// S and R: where the result is TRUE, a variable becomes TRUE or FALSE.
    Put {
        to: bool,
        slot: u32,
        ty: Ty,
    },
    /// NOT: the result is negated.
    Complement,
    /// Logic, arithmetic and comparisons: the result on the left, the operand on the right.
    Combine {
        op: BinOp,
        negated: bool,
        operand: Operand,
    },
}

/// An instruction, with the spots of its operator and of its operand. One without an operand has its operator's twice.
#[derive(Clone, Copy)]
pub struct Instruction {
    pub action: Action,
    pub spot: Spot,
    pub at: Spot,
}
