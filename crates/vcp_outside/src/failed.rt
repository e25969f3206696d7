//! The failure of a file or a sink.

/// A file or a sink failed. Its count of faults rose in that call.
#[derive(Clone, Copy)]
pub struct Failed;
