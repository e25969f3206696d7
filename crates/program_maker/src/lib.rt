//! The maker of programs: a source of a thousand statements, and a thousand rows to run it on.
//!
//! Every number from 0 to 4294967295 has its program. Statements and rows are drawn by a generator that
//! begins with the number, so that a program is made again by its number alone.
#![tactic(auto)]

mod draws;
mod made;
mod rows;
mod source;
mod writer;

pub use made::{Made, make};
