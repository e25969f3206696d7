//! Tables of verdicts: which faults of a campaign are seen, counted by what they do, where they are, at which output they show, and how
//! late.
//!
//! `read_verdicts` reads what a campaign printed for the groups of a script, or tells the first line that doesn't belong to it, and
//! `write_sum` writes the tables of a campaign, which may be in parts. `endings_of` tells the groups apart of which no output tells, and
//! `write_sum_apart` writes a table of that, too, and names those whose difference is still in a cell.
#![tactic(auto)]

mod counts;
mod ended;
mod endings;
mod endless;
mod fault;
mod names;
mod parts;
mod reading;
mod remark;
mod rows;
mod standing;
mod tables;
mod text_sink;
mod unseen;
mod verdicts;
mod words;
mod writing;

pub use counts::{shows_unseen, totals_in, totals_of_all, totals_of_parts, totals_over};
pub use endings::{Endings, EndingsOfParts, endings_of, endings_of_parts};
pub use endless::{SameEnding, answers_over_rows_are_a_right_run, group_ending, words_left};
pub use fault::VerdictsFault;
pub use names::then_operation;
pub use parts::{MOST_PARTS, Part, Parts};
pub use reading::read_verdicts;
pub use remark::is_for;
pub use rows::then_delay;
pub use tables::Table;
pub use verdicts::Verdicts;
pub use writing::{write_sum, write_sum_apart};
