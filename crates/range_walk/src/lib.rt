//! The ranges of the values that the operations of a cycle have, where each cell is in a range.
//!
//! A walk over the operations, in their order, tells the range of each from those of its operands, and why it may stop. The ranges are
//! made narrower by one another: what an operation gives says what it read. A table may say between which ends inputs are (`assumed`).
#![tactic(auto)]

mod assumed;
mod choices;
mod inputs;
mod narrowing;
mod operand_ranges;
mod operations;
mod range;
mod ranges;
mod told;
mod typed;
mod values;
mod walking;

pub use assumed::ranges_of_table;
pub use narrowing::{count_of, first_ranges, narrow, put};
pub use range::{Range, Stops, both_hold, earlier_range, either_holds, range_at};
pub use ranges::Ranges;
pub use told::{Told, tell};
pub use walking::walk;
