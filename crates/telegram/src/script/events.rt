//! Lists of events.

use crate::Event;
use vcp_base::List;

/// What happens on a wire, in order, seen as a list.
pub type Events = List<Event>;
