//! The whole program: the commands, and the top call over files, a unit and sinks that are handed in.
#![tactic(auto)]

mod audit;
mod channels;
mod demo;
mod ending;
mod every_row;
mod fault;
mod format;
mod image;
mod image_rows;
mod image_run;
mod inject;
mod laws;
mod listing;
mod loading;
mod opening;
mod plain_run;
mod printed;
mod program_rows;
mod program_run;
mod run;
mod single_run;
mod source;
mod telling;
mod top;
mod tracing;
mod widen;
mod wire;

pub use laws::{
    a_performed_command, one_task, stale_operands_are_seen, wires_deliver, written_images_are_taken,
};
pub use top::vcp;
