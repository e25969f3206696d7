//! The coded machine: registers, coded memory and checker of a graph of operations.
//!
//! A machine carries the operations of its graph through a unit, cycle by cycle, as calls on coded
//! words, and releases a row of outputs only where each output's word has the residue that its
//! operation and the cycle must give.
#![tactic(auto)]

mod calling;
mod cycle_end;
mod laws;
mod machine;
mod releasing;
mod rows;

pub use calling::{Operands, Setting, call_after, cell_at, is_word, word_at};
pub use cycle_end::{CycleEnd, end_of_answers};
pub use laws::{
    cycles_by_hand_are_whole, honest_runs_follow_the_graph, right_answers_stand_for_values,
    runs_follow_their_answers,
};
pub use machine::Machine;
pub use releasing::{first_words, store_words};
pub use rows::{ReleasedRows, RunFault, rows_before_a_wrong_answer_follow_the_graph, run_rows};
