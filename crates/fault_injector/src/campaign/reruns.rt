//! Reruns: the verdict on a group of faults from the answers to just the calls that the group reaches.
//!
//! The specs say which operations a group touches in which cycles, which calls a rerun makes there, and
//! which verdict is read off the answers. The laws say that an operation that isn't touched has the answer
//! that a whole run with the group has there, and so that the verdict that is read is the defined one.

mod again;
mod kept;
mod laws;
mod marks;
mod passing;
mod reading;
mod reference;
mod rerun;
mod room;
mod standing;

pub use laws::{
    groups_are_rerun_one_after_another, nothing_differs_where_nothing_is_touched,
    reruns_ask_at_touched_operations, reruns_of_right_answers_are_right_runs,
    right_references_stand_for_the_graphs_run, touched_operations_are_told_by_what_they_read,
    untouched_outputs_differ_in_nothing, verdicts_read_off_right_answers_are_defined,
};
pub use reference::{CycleAnswers, Reference};
pub use rerun::verdict;
