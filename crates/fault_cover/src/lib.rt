//! Cover: what becomes of a fault in every run.
//!
//! The difference of a fault at an output has no value of the program in it: it is the weight of the data paths times the fault's own difference, which
//! is made of multipliers, signatures and the step. So what becomes of a fault is reported from the graph and the numbers of its code alone, for all
//! rows that fit, all cycles and, where a number is added, all numbers.
//!
//! `survey_of` finds what faults are judged by, `tell` tells of one, and `write_cover` writes what is reported of all faults of a class.
#![tactic(auto)]

mod candidates;
mod class;
mod counting;
mod disturbance;
mod effect;
mod faults;
mod inverse;
mod items;
mod laws;
mod left;
mod lines;
mod nearest;
mod rests;
mod starts;
mod survey;
mod tally;
mod telling;
mod writing;

pub use class::{CoverClass, CoverClasses};
pub use disturbance::Disturbance;
pub use effect::Effect;
pub use laws::{
    additions_are_acts, one_thing_is_told, the_first_act_comes_alone,
    untouched_operations_are_the_same, what_is_told_is_certain,
};
pub use lines::{classes_name, classes_named};
pub use survey::{Survey, survey_of};
pub use telling::tell;
pub use writing::{Uncovered, write_cover};
