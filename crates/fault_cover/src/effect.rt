//! What a fault is reported as.

/// What becomes of a fault in every run, over all rows that fit and whatever is added.
#[derive(Clone, Copy)]
pub enum Effect {
    /// No wrong output is released, and no stop is passed: an output refuses what arrives at it.
    Refused {
        /// How many cycles behind the fault.
        borders: u32,
    },
    /// No output is ever touched.
    Nothing,
    /// What comes to the outputs that are reached first is nothing there: a wrong value may be released.
    Shows {
        /// How many cycles behind the fault.
        borders: u32,
        /// The first of these outputs.
        output: u32,
    },
    /// An operation that may stop is reached before any output is: a run may go on that would have stopped.
    RunsOn {
        /// How many cycles behind the fault.
        borders: u32,
        /// The first operation that may stop and is reached across so few.
        op: u32,
    },
    /// Something is reached, but across more cycle borders than the horizon.
    Beyond,
}
