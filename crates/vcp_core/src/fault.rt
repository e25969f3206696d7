//! Why a command ends before all is written.

use std::fmt;
use thiserror::Error;
use vcp_inputs::NoInput;

/// Why a command ends before all is written.
#[derive(Drop, Error)]
pub enum Fault<'a> {
    /// There is nothing of what lines tell by this name: of a file, of ROWS or of what was made; or no
    /// row for the next cycle, and what earlier cycles gave was written.
    #[error("no input")]
    Input {
        /// The name.
        name: &'a [u8],
        /// Why there is nothing.
        input: NoInput,
    },
    /// The sink of the output failed.
    #[error("a sink failed")]
    Write,
    /// An allocation failed.
    #[error("an allocation failed")]
    Memory,
}

impl<'a> fmt::Debug for Fault<'a> {
    fn fmt<W: fmt::Write>(&self, f: &mut fmt::Formatter<W>) -> fmt::Result {
        fmt::Display::fmt(self, f)
    }
}
