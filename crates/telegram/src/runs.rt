//! Runs over a wire: what its senders send, cycle by cycle, and what comes of the telegrams that its
//! receiver is handed.
//!
//! `run_wire` has a unit code each value that is sent, takes the telegrams as the script hands them, and
//! writes a line for each.

mod lines;
mod run;
mod sends;
mod wire_end;

pub use run::run_wire;
pub use wire_end::{WireEnd, WireRunFault};
