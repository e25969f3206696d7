//! Why a text is no run.

ghost use Rattle.std.specs.Prelude.{◌≡◌};
ghost use Rattle.pictures.specs.declared.waves.fault.RunTextFault.TheVariants as fault;

use vcp_base::Memory;

/// Why a text is no run. Records count from 1, the header's; columns count from 1.
#[derive(Clone, Copy)]
pub enum RunTextFault {
    /// The first record isn't there, or doesn't begin with `cycle`.
    Header,
    /// The header has more than 1,024 names.
    Names,
    /// The record is neither the row of the cycle whose row may be there, nor a last line.
    Line {
        /// The number of the record.
        record: u32,
    },
    /// The row has more or fewer values than there are names.
    Width {
        /// The number of the record.
        record: u32,
    },
    /// The first cell of the row that isn't a value as rows print it.
    Cell {
        /// The number of the record.
        record: u32,
        /// The number of the column.
        column: u32,
    },
    /// There is a row for the cycle 1,000,000, where cycles count from 0.
    Cycles,
    /// The records end before a last line.
    End,
    /// A record is behind the last line.
    Rest {
        /// The number of the record.
        record: u32,
    },
    /// The last line isn't ended by LF: the text is cut there.
    Cut,
    /// There was no memory. It is merged with no other cause.
    Memory,
}

impl From<Memory> for RunTextFault {
    ghost from_gives = { λ _ f. f ≡ fault.Memory };

    fn from(_: Memory) -> RunTextFault {
        RunTextFault::Memory
    }
}
