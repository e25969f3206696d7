//! Telegrams.

use coded_unit::Word;

/// What a controller sends over the network in a cycle.
#[derive(Clone, Copy)]
pub struct Telegram {
    /// The number of the cycle in which it was sent, counted from 0.
    pub number: u32,
    /// The word of the value that was sent, in the narrow code.
    pub word: Word,
}
