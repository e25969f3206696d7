//! Scripts of faults: which operand, which operation or which answer is disturbed, in which cycle.
//!
//! A script is a text, a line a fault. The faults of a group, between the lines `begin` and `end`, are
//! carried out in one run, and a fault outside is a group of one. `read_script` gives the groups of a text,
//! each of which fits the graph that they are for, or tells its first refused line.
#![tactic(auto)]

mod act;
mod fitting;
mod forms;
mod group;
mod laws;
mod numbers;
mod reader;
mod reading;
mod script;
mod script_fault;

pub use act::{Act, Fault};
pub use fitting::{is_alike, is_sited, is_timely};
pub use group::Group;
pub use laws::{differences_add_up, one_fault_makes_its_difference};
pub use numbers::{cycle_number, index_number, kind_named};
pub use reader::read_script;
pub use reading::MOST_FAULTS;
pub use script::Script;
pub use script_fault::ScriptFault;
