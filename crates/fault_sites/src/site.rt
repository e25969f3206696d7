//! Sites of faults.

use fault_script::Act;

/// An act at an operation in a cycle: a fault that has no line yet.
#[derive(Clone, Copy)]
pub struct Site {
    /// The cycle, counted from 0.
    pub cycle: u32,
    /// The number of the operation.
    pub op: u32,
    /// What is done there.
    pub act: Act,
}
