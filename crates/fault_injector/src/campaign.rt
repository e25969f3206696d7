//! A campaign of faults: for each group of a script the line of its verdict, and then their totals; on one machine, or on a pair of channels
//! (`pairs`).

mod fault;
mod pairs;
mod reruns;
mod run;

pub use fault::CampaignFault;
pub use pairs::{PairTotals, PairVerdict, group_line, pair_totals_line, run_group, run_pairs};
pub use reruns::{
    CycleAnswers, Reference, groups_are_rerun_one_after_another,
    nothing_differs_where_nothing_is_touched, reruns_ask_at_touched_operations,
    reruns_of_right_answers_are_right_runs, right_references_stand_for_the_graphs_run,
    touched_operations_are_told_by_what_they_read, untouched_outputs_differ_in_nothing, verdict,
    verdicts_read_off_right_answers_are_defined,
};
pub use run::run_campaign;
