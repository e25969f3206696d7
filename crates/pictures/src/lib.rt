//! The picture of a graph: a box for each operation, in columns by depth, and a line from each operand
//! to its reader.
//!
//! A `Looks` says how a box looks. By weights, an operation from which no path leads to an output within
//! the horizon is grey, and one whose differences cancel on their paths to an output is red, with that
//! output and the number of cycle borders. The picture is written piece by piece; as a text for Graphviz, too (`dot`), and by the verdicts of a
//! campaign (`verdicts`).
#![tactic(auto)]

mod boxes;
mod colours;
mod columns;
mod constants;
mod dot;
mod laws;
mod layout;
mod legend;
mod looks;
mod names;
mod picture;
mod rows;
mod verdicts;
mod waves;
mod wires;

pub use colours::{Colour, colour_of};
pub use dot::{a_text_draws_all, write_dot};
pub use laws::a_graph_is_drawn_whole;
pub use layout::{BoxPlace, GraphLayout, layout_of};
pub use legend::Sample;
pub use looks::{Look, Looks, Worst};
pub use names::{is_constant, own_piece};
pub use picture::{write_looks, write_picture};
pub use verdicts::{a_picture_is_well_formed, each_operation_has_its_worst_verdict, write_faults};
pub use waves::{
    Ending, Layout, Mark, Period, Run, RunTextFault, TimeUnit, a_printed_run_is_read_back,
    a_run_is_drawn_whole, last_lines_are_known, period_named, read_run, write_waves,
};
