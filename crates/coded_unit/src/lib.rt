//! Coded words, and the units that work on them.
//!
//! A coded word is `A*v + r`: a value `v` and a residue `r` below `A`, the constant of its code. A
//! call names one elementary operation with its operands; `table::answer` gives the right answer to
//! it, and a `Unit` does calls, rightly or not, and tells what it did.
#![tactic(auto)]

mod bad_unit;
mod beside;
mod call;
mod call_log;
mod cpu_unit;
mod laws;
mod log_unit;
pub mod table;
mod unit;
mod word;

pub use bad_unit::BadUnit;
pub use call::{Answer, Call};
pub use cpu_unit::CpuUnit;
pub use laws::{
    right_answers_keep_the_step_law, shifted_words_keep_their_parts, words_split_in_one_way,
};
pub use log_unit::LogUnit;
pub use unit::Unit;
pub use word::{Word, remainder};
