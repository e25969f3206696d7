//! The ranges in which inputs are assumed to be: a table with a record for each input of which it tells one.

mod cells;
mod so_far;
mod table;

pub use table::ranges_of_table;
