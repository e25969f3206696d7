//! What happens on a wire.

ghost use Rattle.std.specs.Prelude.{◌≡◌, ◌≤◌, ◌+◌, ℕ};
ghost use Rattle.telegram.specs.ScriptOf.{begun_after};

use vcp_base::Row;

/// What happens on a wire, as a line of a script says.
#[derive(Drop)]
pub enum Event {
    /// A cycle begins, in which each sender sends its value.
    Cycle {
        /// The senders' values, each a DINT.
        values: Row,
    },
    /// The receiver is handed what a sender sent in a cycle that has begun.
    Deliver {
        /// The number of the line, counted from 1.
        line: u32,
        /// The sender.
        id: u32,
        /// The cycle.
        number: u32,
        /// What is added to the word, at most 2^62 in size.
        alter: i64,
    },
}

impl Event {
    /// How many cycles begin with it: one, or none.
    pub(crate) fn cycles(&self) -> u32
        ensures after { (begun : ℕ) → begun_after begun self.now ≡ begun + result }
        ensures few { result ≤ 1 }
    {
        match self {
            Event::Cycle { .. } => 1,
            Event::Deliver { .. } => 0,
        }
    }
}
