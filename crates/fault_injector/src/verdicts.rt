//! Verdicts.

use vcp_base::{Residue, StopKind};

/// How a run with a fault differs from the run without it, in the first cycle in which one of these
/// holds: the run with the fault stops, an output is refused, the run without the fault stops, a
/// value differs. Cycles, outputs and operations count from 0.
#[derive(Clone, Copy)]
pub enum Verdict {
    /// It doesn't: both release the same values to the end, or to the same stop.
    Same,
    /// This output is released with another value.
    Wrong {
        /// The cycle.
        cycle: u32,
        /// The output.
        output: u32,
        /// The value with the fault.
        got: i64,
        /// The value without it.
        want: i64,
    },
    /// The run without the fault stops in this cycle, and the run with it goes on.
    RanOn {
        /// The cycle.
        cycle: u32,
    },
    /// This output is refused.
    Refused {
        /// The cycle.
        cycle: u32,
        /// The output.
        output: u32,
        /// The residue that it has.
        found: Residue,
        /// The expected one.
        expected: Residue,
    },
    /// The run with the fault stops at this operation, where the other doesn't.
    Stopped {
        /// The cycle.
        cycle: u32,
        /// The operation.
        op: u32,
        /// Why.
        kind: StopKind,
    },
}
