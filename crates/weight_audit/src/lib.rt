//! Path weights: by how much a difference at an operation shows at an output, some cycles later.
//!
//! A difference of the residue at an operation travels along the data paths of the graph, and each
//! operation that it enters multiplies it. Where paths meet, what they carry is added up, and where
//! that sum is 0, every difference made there cancels: the place is blind.
//!
//! `write_audit` writes the lines of an audit (`report`): for each output and each number of cycle borders how many operations are reached, how
//! many of them are blind, and which.
#![tactic(auto)]

mod kept;
mod laws;
mod marks;
mod numbers;
mod report;
pub mod weigh;

pub use kept::{AuditFault, Weights};
pub use laws::{differences_are_superposed, differences_come_as_weights, each_graph_has_an_audit};
pub use report::{an_audit_has_one_text, blind_line, is_blind, reached_line, write_audit};
