//! Scripted faults.

use vcp_base::Kind;

/// What a fault does to one operation in one cycle. Operands count from 0.
#[derive(Clone, Copy)]
pub enum Act {
    /// The word of an operand has a number added.
    OperandAdd {
        /// The operand.
        j: u32,
        /// The number, at most 2^62 in size.
        e: i64,
    },
    /// An operand is the word of another operation of the same cycle.
    OperandFrom {
        /// The operand.
        j: u32,
        /// The register, which is the number of the operation that answered it.
        r: u32,
    },
    /// An operand is the word that it was in the cycle before.
    OperandStale {
        /// The operand.
        j: u32,
    },
    /// The word that is answered has a number added.
    ResultAdd {
        /// The number, at most 2^62 in size.
        e: i64,
    },
    /// The call is done as one of another kind, with the correction of its own.
    Operator {
        /// The other kind.
        kind: Kind,
    },
    /// The operation is not done: it keeps its answer of the cycle before.
    Skip,
}

/// A fault of a script.
#[derive(Clone, Copy)]
pub struct Fault {
    /// The number of its line, counted from 1.
    pub line: u32,
    /// The cycle in which it is, counted from 0.
    pub cycle: u32,
    /// The operation at which it is.
    pub op: u32,
    /// What it does there.
    pub act: Act,
}
