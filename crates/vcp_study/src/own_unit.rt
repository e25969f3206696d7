//! A unit of one's own, as an example: a device does the calls, and the processor judges its answers.
//!
//! `docs/UNITS.md` goes through it.

mod device;
mod judged_unit;
mod stuck_device;

pub use device::Device;
pub use judged_unit::JudgedUnit;
pub use stuck_device::StuckDevice;
