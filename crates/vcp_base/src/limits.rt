//! The most of everything that a text, a file, a program, a graph and a run may have.

/// The most bytes of a source or a fault script.
pub const MOST_SOURCE_BYTES: u64 = 1048576;

/// The most bytes of an image.
pub const MOST_IMAGE_BYTES: u64 = 16777216;

/// The most bytes of a name.
pub const MOST_NAME_BYTES: u32 = 1048576;

/// The most bytes of a rows file.
pub const MOST_ROWS_BYTES: u64 = 67108864;

/// The most names that a program declares, constants included, and the most names of a graph.
pub const MOST_NAMES: u32 = 1024;

/// The most cells of a graph.
pub const MOST_CELLS: u32 = 1024;

/// The greatest depth of a token.
pub const MOST_DEPTH: u32 = 64;

/// The greatest Size of a program.
pub const MOST_SIZE: u32 = 65536;

/// The most operations of a graph.
pub const MOST_OPERATIONS: u32 = 65536;

/// The most turn nodes of a graph.
pub const MOST_TURN_NODES: u32 = 65536;

/// The most cycles of a run, which are counted from 0.
pub const MOST_CYCLES: u32 = 1000000;

/// The most cycle borders of an audit.
pub const MOST_HORIZON: u32 = 1000;

/// How many seeds there are: they are the numbers below this one.
pub const SEEDS: u32 = 1073741824;

/// The greatest step of the stamps; the least is 1.
pub const MOST_STEP: u16 = 1000;

/// The greatest stamp of a cycle: that of the last cycle with the greatest step.
pub const MOST_STAMP: u32 = 1000000000;
