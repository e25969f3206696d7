//! The writer: the canonical text of a program.
//!
//! Contracts here speak of a text as lexemes, which are the bytes of a token or of a gap, written one
//! behind the other.
#![tactic(auto)]

mod expr;
mod program;
mod stmt;
mod writer;

pub use expr::operator_text;
pub use program::write_program;
