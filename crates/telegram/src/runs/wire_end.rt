//! How a run over a wire ends.

/// How a run over a wire ended.
#[derive(Clone, Copy)]
pub enum WireEnd {
    /// With the script.
    Complete,
    /// At a sending to which the unit answered no word.
    Unsent {
        /// The cycle, counted from 0.
        cycle: u32,
        /// The sender.
        id: u32,
    },
}

/// Why a run over a wire was given up.
#[derive(Clone, Copy)]
pub enum WireRunFault {
    /// A line couldn't be written.
    Write,
    /// There was no memory for the words. Nothing was sent or written.
    Memory,
}
