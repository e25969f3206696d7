//! The verdicts on faults: how a run with a group of faults differs from the run without them.
//!
//! A verdict is printed in a line, and behind those of a script are their totals.
#![tactic(auto)]

mod campaign;
mod lines;
mod runs;
mod verdicts;

pub use campaign::{
    CampaignFault, CycleAnswers, PairTotals, PairVerdict, Reference, group_line,
    groups_are_rerun_one_after_another, nothing_differs_where_nothing_is_touched, pair_totals_line,
    reruns_ask_at_touched_operations, reruns_of_right_answers_are_right_runs,
    right_references_stand_for_the_graphs_run, run_campaign, run_group, run_pairs,
    touched_operations_are_told_by_what_they_read, untouched_outputs_differ_in_nothing, verdict,
    verdicts_read_off_right_answers_are_defined,
};
pub use lines::{Totals, then_totals, then_verdict, totals_line, verdict_line};
pub use runs::{
    Carried, KeptWords, Past, Scripted, accepted_outputs_are_released, acts_keep_the_step_law,
    answered, carried_of, changed, ends_under_acts_are_read_off_the_answers, is_skip,
    one_fault_runs_by_its_act, runs_under_acts_keep_the_run_law, scripted_runs_are_right_runs,
    taken,
};
pub use verdicts::Verdict;
