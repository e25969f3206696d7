//! The fields of an image file and its entries but operations: what may be there, how it is spelled,
//! and which fault other bytes have; read one after another, and written at the end of bytes.

mod entries;
mod fault;
mod names;
mod reading;
mod writing;

pub use entries::{cell_of, input_of, output_of, turn_of};
pub use fault::{FieldFault, ReadError};
pub use names::{Keys, name_of};
pub use reading::{Reader, are_bytes, ty_named};
pub use writing::Writer;
