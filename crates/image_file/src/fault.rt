//! Why bytes are no image, with the place of the fault.

use vcp_base::Residue;

/// Why bytes are no image, and at which offset, from 0. `stored` and `expected` are residues of the code.
#[derive(Clone, Copy)]
pub enum ImageFault {
    /// A byte of the magic differs.
    Magic {
        at: u32,
    },
    /// Another version.
    Version {
        at: u32,
    },
    /// A byte is missing, at the end of the bytes.
    Short {
        at: u32,
    },
    /// A field breaks its rule.
    Field {
        at: u32,
    },
    /// An operand breaks its rule.
    Operand {
        at: u32,
    },
    /// A correction is not the expected one.
    Table {
        at: u32,
        stored: Residue,
        expected: Residue,
    },
    /// Bytes are left after the last field.
    Rest {
        at: u32,
    },
    /// An allocation failed.
    Memory,
}
