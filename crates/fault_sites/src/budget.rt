//! How many groups are still to be written.

/// What is left of a part of the groups.
#[derive(Clone, Copy)]
pub(crate) struct Budget {
    /// How many groups stand before it.
    pub(crate) skip: u64,
    /// The most groups that it has.
    pub(crate) left: u64,
    /// The most fault lines that it has.
    pub(crate) room: u64,
}
