//! What a receiver answers to a telegram.

use vcp_base::Residue;

/// What a receiver answers to a telegram: the value that it delivers, or the first cause why it
/// delivers none, in the order in which the causes are looked for.
#[derive(Clone, Copy)]
pub enum Receipt {
    /// The telegram is accepted.
    Delivered {
        /// The value of its word, a DINT.
        value: i64,
    },
    /// The cycle of its number hasn't begun.
    Early {
        /// How many cycles began.
        begun: u32,
    },
    /// The residue isn't that of the sender that is heard in the cycle of its number.
    Stray {
        /// The residue of the word.
        found: Residue,
        /// The residue of that sender in that cycle.
        expected: Residue,
    },
    /// Its number isn't above the last delivered one.
    Order {
        /// The number that was delivered last.
        last: u32,
    },
    /// It was sent more cycles ago than the receiver allows.
    Age {
        /// The present cycle.
        cycle: u32,
    },
    /// The value of its word is no DINT.
    Value,
}
