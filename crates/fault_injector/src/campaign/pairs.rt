//! A campaign of faults on a pair of channels: each group of a script is carried out in the first channel, and the second shows
//! whether the pair holds it.

mod group_run;
mod lines;
mod run;
mod verdict;

pub use group_run::run_group;
pub use lines::{PairTotals, group_line, pair_totals_line};
pub use run::run_pairs;
pub use verdict::PairVerdict;
