//! Readings of words.

/// An operation reads a word as one of its operands.
#[derive(Clone, Copy)]
pub struct Reading {
    /// The operation that reads.
    pub op: u32,
    /// Which operand, counted from 0.
    pub operand: u32,
    /// 0 in the cycle in which the word was answered, and 1 in the next.
    pub borders: u8,
    /// What is added to the word comes times this.
    pub multiplier: i32,
}
