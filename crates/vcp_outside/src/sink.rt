//! Sinks that are written to.

ghost use Rattle.std.specs.Prelude.{◌≡◌, ◌<◌, Ok, length, IfOk};
ghost use Rattle.std.specs.Io.{WritesAtMost};
ghost use Rattle.std.specs.Io.KnownBytes.{WriteAppends};
ghost use Rattle.vcp_outside.specs.Counts.{HasCause};
ghost use Rattle.vcp_outside.specs.Seen.{SinkSeen};

use crate::failed::Failed;

/// What takes bytes, in the order in which they are written. A call fails only where the count of faults rose
/// in it, and one that answers `Ok` leaves the count as it was. The count never falls, and stops at 2^64 - 1.
pub trait Sink {
    /// What is seen of it: the bytes that were written, where they are known, and the count of failed writes.
    ghost seen: { Self → SinkSeen };

    /// Takes a front of the piece: at least one byte, and none only of an empty piece, which never
    /// fails. After `Failed` nothing more is written.
    fn write(&mut self, piece: &[u8]) -> Result<usize, Failed>
        ensures bound { WritesAtMost result piece.now }
        ensures some { IfOk result (λ n. 0 < length piece.now → 0 < n) }
        ensures empty { length piece.now ≡ 0 → result ≡ Ok 0 }
        ensures bytes { WriteAppends (seen self.old).written (seen self.new).written result piece.now }
        ensures cause { HasCause (seen self.old).faults (seen self.new).faults result };

    /// How often a write failed so far, up to 2^64 - 1.
    fn faults(&self) -> u64
        ensures { result ≡ (seen self.now).faults };
}
