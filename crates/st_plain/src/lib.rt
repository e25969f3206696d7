//! The plain evaluator: what a checked program means, cycle by cycle, on plain values.
#![tactic(auto)]

mod expr;
mod laws;
mod operators;
mod plain;
mod slots;
mod stmt;
mod stop;

pub use laws::cycles_give_the_run;
pub use plain::Plain;
pub use stop::Stop;
