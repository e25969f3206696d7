//! What becomes of a group of faults of which no output shows anything: it is never reached, its difference dies out, or it is in a cell when the run
//! ends.
//!
//! The specs have the answers of a whole run under acts over an honest unit, as a function of the rows, and the words that the cells hold at its end.

mod answering;
mod cycle;
mod ending;
mod laws;
mod run;

pub use ending::{SameEnding, group_ending};
pub use laws::answers_over_rows_are_a_right_run;
pub use run::words_left;
