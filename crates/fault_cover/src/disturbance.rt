//! What is amiss at an operation.

use fault_script::Act;

/// What is amiss at an operation, in whatever cycle. Operands and readings count from 0. Where a number is added of which nothing is known, it is
/// any but a multiple of the constant of the graph's code.
#[derive(Clone, Copy)]
pub enum Disturbance {
    /// A number of which nothing is known is added to the result.
    AddToResult,
    /// Such a number is added to an operand's word, for this reading alone.
    AddToOperand {
        /// The operand.
        j: u32,
    },
    /// Such a number is added to the operation's word between two of its readings: the later ones all read it so.
    AddToRest {
        /// How many readings come before.
        right: u32,
    },
    /// An operand is the word that an operation answered in the cycle before.
    Late {
        /// The operand.
        j: u32,
        /// The operation.
        r: u32,
    },
    /// A fault of a script does this.
    Does(Act),
}
