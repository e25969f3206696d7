//! Stamped telegrams: DINT values between controllers, in coded words.
//!
//! A telegram is the word of a value in the narrow code and the number of the cycle in which it was sent.
//! Given the number, the word's residue names the sender. A network may lose, repeat, delay, reorder,
//! misroute and alter telegrams: a receiver delivers a value exactly where the residue is that of the
//! sender that it hears, the number is above all that it delivered, and the telegram is young enough.
//! That all controllers count the same cycles is a premise.
//!
//! `read_wire` reads a script of what is sent and handed over (`script`), and `run_wire` carries it out and writes a line for each telegram
//! (`runs`).
#![tactic(auto)]

mod event;
mod laws;
mod receipt;
mod receiver;
mod runs;
mod script;
mod sending;
mod telegram;
mod wire;

pub use event::Event;
pub use laws::{
    deliveries_are_young, deliveries_rise, receipts_follow_the_equation,
    unaltered_come_from_their_sender,
};
pub use receipt::Receipt;
pub use receiver::Receiver;
pub use runs::{WireEnd, WireRunFault, run_wire};
pub use script::{Events, WireFault, WireScript, read_wire};
pub use sending::send;
pub use telegram::Telegram;
pub use wire::Wire;
