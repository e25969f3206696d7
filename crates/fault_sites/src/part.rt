//! Parts of sites.

/// A part of the sites, in their order.
#[derive(Clone, Copy)]
pub struct Part {
    /// How many sites come before it.
    pub skip: u64,
    /// The most sites that it has.
    pub left: u64,
}
