//! Scripts of the single faults of a class: each fault that a graph can have there in so many cycles, once, in order.
//!
//! For two classes the run of the graph on plain integers is needed, with the value of each operation. A script begins with the digest of the image
//! that it is for, and is written whole or in parts (`scripts`).
#![tactic(auto)]

mod acts;
mod budget;
mod class;
mod counts;
mod cycle_values;
mod digest;
mod flips;
mod graph_values;
mod late;
mod laws;
mod lines;
mod named;
mod next_word;
mod nowhere;
mod part;
mod reading;
mod rests;
mod run_acts;
mod run_class;
mod run_sites;
mod scripts;
mod site;
mod telling;
mod values;
mod words_read;
mod writing;

pub use acts::{KINDS, from_of, operator_of};
pub use class::{Class, Classes};
pub use counts::count_sites;
pub use digest::image_digest;
pub use late::may_be_late;
pub use laws::{
    a_flip_turns_one_bit, a_line_is_read_back, a_script_is_read_back,
    a_script_of_a_run_is_read_back, each_fault_of_a_class_has_a_site, each_flip_stands_once,
    each_reading_is_there, each_run_site_stands_once, each_site_fits, each_site_stands_once,
    parts_are_the_whole,
};
pub use lines::{classes_name, classes_named, then_rest, then_site, verb};
pub use named::{
    Acts, MOST_NAMED_BYTES, Meant, Refused, Span, Why, a_script_by_names_is_read_back, check,
    meaning, operation_named, write_script,
};
pub use next_word::next_is;
pub use part::Part;
pub use reading::Reading;
pub use rests::is_out;
pub use run_class::RunClass;
pub use run_sites::run_class_named;
pub use scripts::{
    Chosen, Unwritten, write_chosen_rests, write_chosen_run_sites, write_chosen_sites,
};
pub use site::Site;
pub use values::power;
pub use words_read::{WordReadings, readings};
pub use writing::write_sites;
