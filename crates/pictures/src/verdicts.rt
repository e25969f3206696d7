//! The picture of a graph by the verdicts of a campaign: each operation in the colour of the worst that came of the faults that
//! are there.
//!
//! The verdicts of an operation are those of its row in the tables of `verdict_tables`, and the picture is one of
//! `pictures`, with a legend that tells how many verdicts there are of each sort.

mod laws;
mod looks;
mod picture;

pub use laws::{a_picture_is_well_formed, each_operation_has_its_worst_verdict};
pub use picture::write_faults;
