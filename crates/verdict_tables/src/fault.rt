//! Why a text doesn't tell the verdicts of a script.

/// Why a text doesn't tell the verdicts of a script's groups, with the number of its first refused line, counted from 1.
#[derive(Clone, Copy)]
pub enum VerdictsFault {
    /// The line doesn't begin with the number of the line of the group whose verdict is to be there.
    Group {
        /// The number of the line.
        line: u32,
    },
    /// No verdict over the graph is printed so.
    Verdict {
        /// The number of the line.
        line: u32,
    },
    /// The text ends before this line, which is to have the verdict of a group, or the totals.
    End {
        /// The number of the line.
        line: u32,
    },
    /// The line isn't that of the totals of the verdicts before it.
    Totals {
        /// The number of the line.
        line: u32,
    },
    /// The line is behind the totals.
    Rest {
        /// The number of the line.
        line: u32,
    },
    /// There was no memory. It is merged with no other cause.
    Memory,
}
