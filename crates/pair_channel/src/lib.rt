//! A pair of channels: two machines that run one graph, and release a row of outputs only where both release it and agree.
//!
//! The channels have one graph and two tables of signatures. What the code of one leaves unseen, as a difference of words that is a
//! multiple of its constant, the values of the other show.
//!
//! `run_pair` runs a pair over rows of inputs and writes what is printed of it.
#![tactic(auto)]

mod beside;
mod both;
mod laws;
mod lines;
mod pair;
mod pair_end;
mod run;

pub use beside::run_beside;
pub use laws::{
    counts_bound_a_pair, one_honest_channel_holds_the_pair, pairs_by_hand_are_whole,
    pairs_follow_their_answers,
};
pub use lines::{differ_line, parted_line};
pub use pair::Pair;
pub use pair_end::PairEnd;
pub use run::run_pair;
