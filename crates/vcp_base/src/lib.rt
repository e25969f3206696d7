//! What every crate uses: types, kinds of operations, texts, lists, and numbers in decimal digits.
//!
//! A list type is seen by contracts as a list. `len` and `at` read it, `push` appends one item, and
//! after `Memory` the list is unchanged.
#![tactic(auto)]

mod appending;
mod blanks;
mod code;
mod columns;
mod digits;
mod integers;
mod kind;
mod limits;
mod list;
mod memory;
mod names;
mod outcomes;
mod row;
mod script;
mod spellings;
mod spot;
mod steps;
mod text;
mod turns;
mod ty;
mod words;

pub use appending::append;
pub use blanks::without_first_blanks;
pub use code::{Profile, Residue, admits, modulus};
pub use columns::{Column, Columns};
pub use digits::numeral;
pub use integers::number_in;
pub use kind::{Kind, StopKind, multiplier, operand_type, operands};
pub use limits::{
    MOST_CELLS, MOST_CYCLES, MOST_DEPTH, MOST_HORIZON, MOST_IMAGE_BYTES, MOST_NAME_BYTES,
    MOST_NAMES, MOST_OPERATIONS, MOST_ROWS_BYTES, MOST_SIZE, MOST_SOURCE_BYTES, MOST_STAMP,
    MOST_STEP, MOST_TURN_NODES, SEEDS,
};
pub use list::{CopyList, List};
pub use memory::Memory;
pub use names::{is_letter, is_letter_or_digit, is_name};
pub use outcomes::{outcome, short_outcome};
pub use row::Row;
pub use script::{WordsLeft, first_line, first_read, integer, is_addend, is_skipped};
pub use spellings::{kind_code, kind_name, kind_of_code, stop_name, ty_code, ty_name, ty_of_code};
pub use spot::Spot;
pub use steps::Steps;
pub use text::{Text, is_same_name, same_bytes, same_name};
pub use turns::{Turn, Turns};
pub use ty::{Ty, fits, greatest, is_bool, is_number, least, same_type, within};
pub use words::Words;
