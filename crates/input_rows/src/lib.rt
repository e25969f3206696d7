//! The rows of a recorded input: those of a file, one record a cycle, or a number of cycles without
//! inputs.
//!
//! A file's records are those that `csv` gives, the first of them the header. Rows are taken one by
//! one, in the order of the columns, or all kept in a list. `Records` gives the records of any such
//! text.
#![tactic(auto)]

mod all_rows;
mod cells;
mod fault;
mod header;
mod laws;
mod layout;
mod records;
mod row_list;
mod row_reader;
mod rows;
mod source;
mod table;
mod twice;
mod wanted;

pub use fault::RowFault;
pub use laws::order_has_each_place;
pub use records::{Records, field};
pub use row_list::{RowList, collect_rows};
pub use row_reader::RowReader;
pub use rows::Rows;
pub use source::{RowsSource, open_rows};
