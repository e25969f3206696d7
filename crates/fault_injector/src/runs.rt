//! Runs under faults.
//!
//! `Scripted` is a unit around a unit: it does each call by the unit inside, except those that the faults of
//! its group are about, which it changes as the script says. The laws say which words a run under acts has,
//! and which of its outputs are accepted.

mod kept_words;
mod laws;
mod run_laws;
mod scripted;
mod taking;

pub use kept_words::KeptWords;
pub use laws::acts_keep_the_step_law;
pub use run_laws::{
    accepted_outputs_are_released, ends_under_acts_are_read_off_the_answers,
    one_fault_runs_by_its_act, runs_under_acts_keep_the_run_law, scripted_runs_are_right_runs,
};
pub use scripted::{Carried, Scripted, answered, carried_of, changed, is_skip};
pub use taking::{Past, taken};
