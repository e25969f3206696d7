//! The lines that say which operations of a graph may stop, and between which ends the values of operations are.

mod counts;
mod lines;
mod variables;
mod writing;

pub use counts::count_named;
pub use writing::write_ranges;
