//! A sink that keeps what is written, as long as there is memory for it.

ghost use Rattle.std.specs.Prelude.{◌≡◌, ◌<◌, [], Some, Ok, IfOk, length};
ghost use Rattle.std.specs.Io.{WritesAtMost};
ghost use Rattle.std.specs.Io.KnownBytes.{WriteAppends};
ghost use Rattle.vcp_outside.specs.Counts.{HasCause};

use std::alloc::Global;
use std::marker::Model;
use vcp_outside::{Failed, Sink};

/// A sink that keeps what is written. A write fails only for want of memory.
#[derive(Drop)]
pub(crate) struct TextSink {
    bytes: Vec<u8>,
    faults: u64,
}

impl Model for TextSink {
    ghost use Rattle.verdict_tables.specs.TextSink.{TextInMemory};

    ghost Value = { TextInMemory };

    ghost view = { λ s. record { bytes = s.bytes.items; faults = s.faults } };
}

impl TextSink {
    /// An empty sink. It takes no memory.
    pub(crate) fn new(alloc: Global) -> TextSink
        ensures { result ≡ record { bytes = []; faults = 0 } }
    {
        TextSink {
            bytes: Vec::new(alloc),
            faults: 0,
        }
    }

    /// What was written.
    pub(crate) fn bytes(&self) -> &[u8]
        ensures { result.now ≡ self.now.bytes }
    {
        &self.bytes
    }
}

impl Sink for TextSink {
    ghost seen = { λ s. record { written = Some s.bytes; faults = s.faults } };

    fn write(&mut self, piece: &[u8]) -> Result<usize, Failed>
        ensures bound { WritesAtMost result piece.now }
        ensures some { IfOk result (λ n. 0 < length piece.now → 0 < n) }
        ensures empty { length piece.now ≡ 0 → result ≡ Ok 0 }
        ensures bytes { WriteAppends (Some self.old.bytes) (Some self.new.bytes) result piece.now }
        ensures cause { HasCause self.old.faults self.new.faults result }
    {
        if piece.is_empty() {
            return Ok(0);
        }
        match self.bytes.extend_from_slice(piece) {
            Ok(()) => Ok(piece.len()),
            Err(_) => {
                self.faults = self.faults.saturating_add(1);
                Err(Failed)
            }
        }
    }

    fn faults(&self) -> u64 {
        self.faults
    }
}
