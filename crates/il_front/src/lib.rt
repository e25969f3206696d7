//! Instruction List: the typed program of a text of instructions, or its first fault.
//!
//! The head of the text declares the variables as in Structured Text. Behind it each line is one instruction on a current
//! result, the accumulator, as in IEC 61131-3, Instruction List.
#![tactic(auto)]

mod fault;
mod head;
mod instruction;
mod judging;
mod laws;
mod line;
mod operand;
mod operator;
mod places;
mod reading;
mod statements;
mod types;

pub use fault::IlFault;
pub use instruction::{Action, Instruction, Operand};
pub use laws::{accumulator_runs, il_answers_are_one};
pub use operator::Operator;
pub use reading::{MOST_IL_BYTES, read_il};
