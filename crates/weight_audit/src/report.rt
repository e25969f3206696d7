//! The lines of an audit: for each output and each number of cycle borders how many operations are
//! reached, how many of them are blind, and which.

mod counts;
mod laws;
mod lines;
mod writing;

pub use counts::is_blind;
pub use laws::an_audit_has_one_text;
pub use lines::{blind_line, reached_line};
pub use writing::write_audit;
