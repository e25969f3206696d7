//! Running a graph on the coded machine over rows of inputs: one loop, whatever the graph comes from and whatever is done with the
//! outputs of a released cycle.

mod fault;
mod laws;
mod released;
mod run;

pub use fault::RunFault;
pub use laws::rows_before_a_wrong_answer_follow_the_graph;
pub use released::ReleasedRows;
pub use run::run_rows;
