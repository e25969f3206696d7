//! The flattening of programs: the graph that means the program.
#![tactic(auto)]

mod branch;
mod condition;
mod program;
mod stmt;

pub use program::flatten;
