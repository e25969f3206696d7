//! Places in a source.

/// A place in a source.
#[derive(Clone, Copy)]
pub struct Spot {
    /// The line, from 1; 0 where there is no such place.
    pub line: u32,
    /// The column in bytes, from 1; 0 where there is no such place.
    pub col: u32,
}
