//! Wires.

/// The senders of a wire, and what hears one of them.
#[derive(Clone, Copy)]
pub struct Wire {
    /// How many senders there are, 1 to 16. They are numbered from 0.
    pub senders: u32,
    /// The sender that is heard.
    pub listen: u32,
    /// How many cycles before the present one a telegram that is delivered was sent at most, up to
    /// 999,999.
    pub age: u32,
    /// The seed of the signatures, below 2^30.
    pub seed: u32,
    /// The step of the stamps, 1 to 1000.
    pub step: u16,
}
