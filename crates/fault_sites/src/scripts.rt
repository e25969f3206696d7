//! Scripts of all single faults of a class that an image can have, or of all that the words of a run decide, as `inject` takes them, whole or in parts;
//! and how many there are.

mod chosen;
mod number;
mod of_class;
mod of_rests;
mod of_run;
mod unwritten;

pub use chosen::Chosen;
pub use of_class::write_chosen_sites;
pub use of_rests::write_chosen_rests;
pub use of_run::write_chosen_run_sites;
pub use unwritten::Unwritten;
