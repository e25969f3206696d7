//! The files that commands read, each of which is accepted or rejected, and the lines of these faults; and what
//! commands mean: what is answered, how a command ends, and the causes of statuses.
#![tactic(auto)]

mod alike;
mod diagnostics;
mod images;
mod listings;
mod meaning;
mod reading;
mod refusal;
mod rows;
mod scripts;
mod sources;
mod telling;
mod weights;
mod whole;
mod wires;
mod words;

pub use alike::are_alike;
pub use images::{Image, load_image};
pub use listings::{listed_program, load_il};
pub use meaning::{endings_have_causes, graph_of, image_for, lists_are_told};
pub use reading::read_file;
pub use refusal::{NoInput, Refusal};
pub use rows::{load_rows, rows_name};
pub use scripts::load_script;
pub use sources::{HowOften, load_program, load_typed, program_of, typed_of};
pub use telling::{input_status, tell_input, tell_of, tell_place, tell_refusal};
pub use weights::weights_of;
pub use whole::{graph_columns, whole_rows};
pub use wires::load_wire;
pub use words::{
    Code, Command, CommandWords, DEFAULT_CODE, ImageRun, ImageText, ProgramRun, RowsWord,
    SingleRun, SourceText, command_of, usage,
};
