//! How a cycle of two channels ends.

use coded_machine::CycleEnd;
use vcp_base::StopKind;

/// How a cycle of two channels ends.
#[derive(Clone, Copy)]
pub enum PairEnd {
    /// Both channels released the same row of outputs.
    Released,
    /// Both channels stopped at operation `op`, counted from 0, for the same cause.
    Stopped {
        op: u32,
        kind: StopKind,
    },
    /// The channels ended the cycle differently, or at least one of them refused an output.
    Parted {
        first: CycleEnd,
        second: CycleEnd,
    },
    /// Both channels released their rows, and `output`, counted from 0, is the first in which these have
    /// different values.
    Differ {
        output: u32,
        first: i64,
        second: i64,
    },
}
