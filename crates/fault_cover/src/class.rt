//! Classes of faults.

/// What the faults of a class do.
#[derive(Clone, Copy)]
pub enum CoverClass {
    /// A number of which nothing is known is added to the result, or to an operand.
    Add,
    /// Such a number is added to a word between two of its readings.
    Rest,
    /// An operand is the word that it was in the cycle before.
    Stale,
    /// The operation keeps its answer of the cycle before.
    Skip,
    /// An operand is the word of another earlier operation, whose type fits.
    From,
    /// An operand is the word of the cycle before of the operation itself or of a later one, whose type fits.
    Late,
    /// The call is done as one of another kind of as many operands.
    Operator,
}

/// One class, or all.
#[derive(Clone, Copy)]
pub enum CoverClasses {
    /// One class.
    One(CoverClass),
    /// All, in the order of `CoverClass`.
    All,
}
