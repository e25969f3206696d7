//! The passes over a graph that keep what it means and make it smaller.
#![tactic(auto)]

mod folding;
mod laws;
mod needed;
mod outcomes;
mod part;
mod pruning;
mod reducing;
mod sharing;

pub use folding::fold;
pub use laws::{
    closed_parts_are_graphs, closed_parts_mean_the_same, what_is_needed_means_the_same,
    what_is_shared_means_the_same,
};
pub use needed::can_stop;
pub use pruning::prune;
pub use reducing::reduce;
pub use sharing::share;
