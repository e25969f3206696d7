//! Which operations of a graph can stop, and between which bounds their values lie, whatever the rows.
//!
//! Rounds of walks (`range_walk`) widen the ranges of the cells, until a cycle that begins in them ends in them. Where an operation is
//! named, the values of one cell are distinguished, with ranges of all cells for each of them, and whole cycles are gone through by cases.
//! `write_ranges` writes what was found (`report`).
#![tactic(auto)]

mod asking;
mod audit;
mod boxes;
mod cases;
mod cells;
mod effort;
mod families;
mod laws;
mod naming;
mod questions;
mod report;
mod thresholds;

pub use audit::{ranges_of, ranges_within};
pub use laws::{
    all_rows_are_in_no_ranges, what_names_nothing_never_stops,
    what_names_nothing_never_stops_within,
};
pub use report::{count_named, write_ranges};
