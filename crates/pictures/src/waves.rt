//! A run as a timing diagram: what a run printed is read back, and drawn in SVG.
//!
//! A text is a run where its records, as `csv` gives them, are the lines that a run prints: the header,
//! a row for each cycle, and the last line. A picture has a lane for each column, in stretches: a level, a
//! number that holds, or a ramp, in which it changes by the same amount with each cycle.

mod cycles;
mod ending;
mod fault;
mod header;
mod lanes;
mod laws;
mod layout;
mod lines;
mod picture;
mod row_table;
mod run;
mod shapes;
mod stretches;
mod times;
mod values;

pub use ending::{Ending, Mark};
pub use fault::RunTextFault;
pub use laws::{a_printed_run_is_read_back, a_run_is_drawn_whole, last_lines_are_known};
pub use layout::Layout;
pub use picture::write_waves;
pub use run::{Run, read_run};
pub use times::{Period, TimeUnit, period_named};
