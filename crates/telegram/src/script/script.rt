//! Scripts of a wire.

use crate::Wire;
use crate::script::events::Events;

/// A wire, and what happens on it.
#[derive(Drop)]
pub struct WireScript {
    /// The wire.
    pub wire: Wire,
    /// What happens on it, in the order of the lines.
    pub events: Events,
}
