//! Classes of single faults.

/// What the faults of a class do.
#[derive(Clone, Copy)]
pub enum Class {
    /// The result, or an operand, has plus or minus a power of two from 2^0 to 2^61 added.
    Bits,
    /// An operand is the word that it was in the cycle before.
    Stale,
    /// The operation keeps its answer of the cycle before.
    Skip,
    /// An operand is the word of another earlier operation, whose type fits.
    From,
    /// The call is done as one of another kind of as many operands.
    Operator,
}

/// One class, or all.
#[derive(Clone, Copy)]
pub enum Classes {
    /// One class.
    One(Class),
    /// All, in the order of `Class`.
    All,
}
