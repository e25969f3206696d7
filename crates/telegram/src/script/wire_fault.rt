//! Why a script of a wire is refused.

/// Why a script of a wire is refused, with the number of the refused line, counted from 1.
#[derive(Clone, Copy)]
pub enum WireFault {
    /// The line is none of the forms, or it is no first line where that is wanted, or a second one.
    Form {
        /// The number of the line.
        line: u32,
    },
    /// A number is out of its range, or a cycle hasn't a value for each sender.
    Range {
        /// The number of the line.
        line: u32,
    },
    /// The telegram that is delivered wasn't sent.
    Unsent {
        /// The number of the line.
        line: u32,
    },
    /// There was no memory. It is merged with no other cause.
    Memory,
}
