//! The command words: which words are a command, and what each command is about.

mod command;
mod words;
mod words_left;

pub use command::{
    Code, Command, DEFAULT_CODE, ImageRun, ImageText, ProgramRun, RowsWord, SingleRun, SourceText,
};
pub use words::{command_of, usage};
pub use words_left::CommandWords;
