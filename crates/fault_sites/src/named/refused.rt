//! Why a text of named faults is refused.

/// Why a line is refused.
#[derive(Clone, Copy)]
pub enum Why {
    /// The line is none of the forms.
    Form,
    /// No operation has the name.
    Unknown,
    /// More than one operation has the name.
    Several,
    /// The line would hold a value, which the values of a run decide.
    Held,
    /// The kind of the operation hasn't the operand, or the operation that is read instead isn't an earlier one.
    Site,
    /// The act takes a word of the cycle before, and is in cycle 0.
    Early,
    /// The other kind has another number of operands.
    Kind,
    /// With the faults of the line there are more than 10,000.
    Faults,
    /// The first line names another image.
    Image,
}

/// The first line that is refused.
#[derive(Clone, Copy)]
pub struct Refused {
    /// The number of the line, counted from 1.
    pub line: u32,
    /// Why it is refused.
    pub why: Why,
}
