//! Scripts of a wire: which senders send which values, and which telegrams the receiver is handed.
//!
//! A script is a text: first a line with the numbers of the wire, then a line a cycle or a delivery.
//! `read_wire` gives the wire and the events of a text, or tells its first refused line.

mod events;
mod head;
mod lines;
mod numbers;
mod reader;
mod script;
mod wire_fault;

pub use events::Events;
pub use reader::read_wire;
pub use script::WireScript;
pub use wire_fault::WireFault;
