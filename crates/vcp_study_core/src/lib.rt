//! The commands that study an image or a run: pictures, which operations can stop, what becomes of faults in every run, and scripts of faults; and those
//! that translate instruction lists.
//! And the top call.
#![tactic(auto)]

mod command;
mod cover;
mod fault;
mod graph;
mod list_text;
mod lists;
mod loading;
mod part_words;
mod parts;
mod ranges;
mod rough_text;
mod same_graphs;
mod script;
mod sites;
mod studies;
mod sum;
mod telling;
mod top;
mod waves;
mod words;

pub use command::{AloneStudy, Drawing, ImageStudy, ListStudy, StudyCommand};
pub use part_words::{Named, PartWords};
pub use top::vcp_study;
pub use words::command_of;
