//! Scripts of faults by names: lines that name an operation by its variable or by its place in the source, and what they are as a script.
//!
//! Each line that isn't skipped names one or more faults. `check` tells the first line that is refused, and `write_script` writes the script
//! of the lines, each behind a remark that repeats it. Nothing of this takes memory.

mod cutting;
mod doing;
mod fitting;
mod laws;
mod meant;
mod operations;
mod reading;
mod refused;
mod when;
mod writing;

pub use laws::a_script_by_names_is_read_back;
pub use meant::{Acts, Meant, meaning};
pub use operations::operation_named;
pub use reading::{MOST_NAMED_BYTES, check};
pub use refused::{Refused, Why};
pub use when::Span;
pub use writing::write_script;
