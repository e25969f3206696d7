//! The flattening of expressions: the operations that give what an expression means.
//!
//! A flattening is seen by contracts as its state: the program's slots, the graph so far, the
//! operation that has each slot's value, the path condition and the present turn. Under a path
//! condition an operation that may stop works on masked operands, so that it can't stop in a cycle in
//! which the condition is 0.
#![tactic(auto)]

mod ending;
mod flat;
mod op_form;

pub use flat::{Flat, laws_of_states};
