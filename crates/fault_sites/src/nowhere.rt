//! A sink that keeps nothing.

ghost use Rattle.std.specs.Prelude.{None};

use vcp_outside::{Failed, Sink};

/// Takes all that is written, and keeps nothing of it: what would be written is looked at before it is. It takes no memory, and never fails.
#[derive(Drop)]
pub(crate) struct Nowhere {}

impl Sink for Nowhere {
    ghost seen = { λ _. record { written = None; faults = 0 } };

    fn write(&mut self, piece: &[u8]) -> Result<usize, Failed> {
        Ok(piece.len())
    }

    fn faults(&self) -> u64 {
        0
    }
}
