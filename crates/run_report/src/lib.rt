//! The printed lines of a run and of its summary, and those that list and trace the operations of a
//! graph.
//!
//! Each call writes one line to a sink and takes no memory. After `Failed`, which comes only where
//! the sink's count of faults rose, a part of the line is written. The calls that begin with `then_` go
//! on with a line that is gathered.
#![tactic(auto)]

mod graph_stop;
mod lines;
mod operations;
mod summary;
mod variables;

pub use graph_stop::{graph_stop_line, then_turns_round};
pub use lines::{
    end_line, header_line, refused_line, row_line, stop_line, then_cause, then_refused,
};
pub use operations::{list_line, then_source, trace_line};
pub use summary::summary_line;
pub use variables::{output_name, variable_name};
