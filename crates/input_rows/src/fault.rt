//! Why rows are refused.

ghost use Rattle.std.specs.Prelude.{◌≡◌};
ghost use Rattle.input_rows.specs.declared.fault.RowFault.TheVariants as fault;

use vcp_base::Memory;

/// Why rows are refused. Records count from 1, the header's; columns count from 1, in a record's own
/// order.
#[derive(Clone, Copy)]
pub enum RowFault {
    /// The first record isn't there, or it isn't each column's name once and nothing else.
    Header,
    /// The record has more or fewer fields than there are columns.
    Width {
        /// The number of the record.
        row: u32,
    },
    /// The first cell of the record that spells no value of its column's type.
    Cell {
        /// The number of the record.
        row: u32,
        /// The number of the column.
        column: u32,
    },
    /// A file without columns to read, or cycles where there are columns.
    Form,
    /// There is a record for the cycle 1,000,000, where cycles count from 0.
    Cycles,
    /// The rows end before the cycle through which they are wanted.
    Cycle,
    /// There was no memory. It is merged with no other cause.
    Memory,
}

impl From<Memory> for RowFault {
    ghost from_gives = { λ _ f. f ≡ fault.Memory };

    fn from(_: Memory) -> RowFault {
        RowFault::Memory
    }
}
