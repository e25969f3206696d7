//! Why bytes are no image, or could not be read.

use vcp_base::Residue;

/// The first fault of the bytes. `left` counts the bytes from the fault's first byte on.
#[derive(Clone, Copy)]
pub enum FieldFault {
    /// A byte of the magic differs.
    Magic {
        left: usize,
    },
    /// Another version.
    Version {
        left: usize,
    },
    /// A byte is missing.
    Short,
    /// A field breaks its rule.
    Field {
        left: usize,
    },
    /// An operand breaks its rule.
    Operand {
        left: usize,
    },
    /// A correction is not the expected one.
    Table {
        left: usize,
        stored: Residue,
        expected: Residue,
    },
    /// Bytes are left after the last field.
    Rest {
        left: usize,
    },
}

/// Why the bytes were not read.
#[derive(Clone, Copy)]
pub enum ReadError {
    /// An allocation failed.
    Memory,
    /// The bytes are no image.
    FieldFault(FieldFault),
}
