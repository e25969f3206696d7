//! Why and where a cycle stops.

use vcp_base::{Spot, StopKind};

/// A stop of a cycle.
#[derive(Clone, Copy)]
pub struct Stop {
    /// `Range` for a value outside its type, or `DivZero` for a division by 0.
    pub kind: StopKind,
    /// The place of the operator or of the function's name.
    pub spot: Spot,
}
