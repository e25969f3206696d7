//! Calls of a unit, and its answers.

use crate::word::Word;
use vcp_base::{Kind, Profile, Residue, Ty};

/// One elementary operation, with all that a unit gets of it.
///
/// An operand that the kind does not have is `Word::ZERO` by custom; no answer depends on it. The fields stand so that no bytes lie between them.
#[derive(Clone, Copy)]
pub struct Call {
    /// The number of the operation in its program, from 0.
    pub op: u32,
    /// The number of the cycle, from 0.
    pub cycle: u32,
    /// The stamp of the cycle, at most 1,000,000,000.
    pub stamp: u32,
    /// The code of its words.
    pub profile: Profile,
    /// What the operation does, and so how many operands it has.
    pub kind: Kind,
    /// The type of the operands; the kinds of logic, and the first operand of SEL, take BOOL.
    pub from: Ty,
    /// The type of the answer's value.
    pub ty: Ty,
    /// The first operand, where the kind has one.
    pub a: Word,
    /// The second operand, where the kind has two.
    pub b: Word,
    /// The third operand, which SEL alone has.
    pub c: Word,
    /// The value of an INPUT or a CONST; no other kind reads it.
    pub imm: i64,
    /// The correction, below the constant of the code: what the answer's signature has beyond the
    /// operands' signatures, each times its multiplier.
    pub corr: Residue,
}

/// What a unit answers to a call.
#[derive(Clone, Copy, PartialEq, Eq)]
pub enum Answer {
    /// The word of the value and its residue.
    Word(Word),
    /// The value is outside the type `ty` of the call.
    Range,
    /// The divisor is 0.
    DivZero,
    /// An operand is outside its type.
    Operand,
}
