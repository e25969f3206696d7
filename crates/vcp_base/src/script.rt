//! The lines and the words of scripts.
//!
//! A script is a text whose lines end at LF, and a CR before it is dropped; the last line needs no LF, and
//! keeps a CR at its end. Empty lines and those that begin with `#` are skipped. Words are between spaces
//! and tabs. Nothing of this takes memory.

mod integers;
mod lines;
mod words;

pub use integers::{integer, is_addend};
pub use lines::{first_line, first_read, is_skipped};
pub use words::WordsLeft;
