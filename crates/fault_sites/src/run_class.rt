//! Classes of single faults that the words of a run decide.

/// What the faults of such a class do.
#[derive(Clone, Copy)]
pub enum RunClass {
    /// One of the lowest 32 bits of a result's word is turned.
    Flips,
    /// An operand is the word that an operation answered in the cycle before: the one that reads it, or one behind it.
    Late,
}
