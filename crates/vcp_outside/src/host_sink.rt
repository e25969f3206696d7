//! A writer of the host as a sink.

ghost use Rattle.std.specs.Prelude.{◌≡◌, ◌<◌, ◌≤◌, None, Some, Ok, IfOk, IfSome, OnErr, length, take};
ghost use Rattle.std.specs.Io.{WritesAtMost};
ghost use Rattle.std.specs.Io.KnownBytes.{Appends};
ghost use Rattle.vcp_outside.specs.Counts.{HasCause, count_after};
ghost use Rattle.vcp_outside.specs.Written.{AppendsFront};

use crate::failed::Failed;
use crate::sink::Sink;
use std::io::Write;
use std::marker::Model;

/// A writer as a sink, which is flushed after each write. A write that takes no byte of some is a
/// fault; an empty piece doesn't reach the writer. As a `Sink` it tells no bytes. It is seen as the
/// bytes that the writer holds, where that is known of it, and the count of faults.
///
/// It gives its writer what a write takes, and where it fails no more than a front of the piece. The count
/// rises by one at each failure, up to its last value, and at nothing else.
#[derive(Drop)]
pub struct HostSink<W: Write> {
    writer: W,
    faults: u64,
}

impl<W: Write> Model for HostSink<W> {
    ghost use Rattle.vcp_outside.specs.HostSink.{SinkOnHost};

    ghost Value = { SinkOnHost };

    ghost view = { λ s. record { contents = W.contents s.writer; faults = s.faults } };
}

impl<W: Write> HostSink<W> {
    /// A sink over a writer, without a fault so far.
    pub fn new(writer: W) -> Self
        ensures { result ≡ record { contents = W.contents writer; faults = 0 } }
    {
        HostSink { writer, faults: 0 }
    }
}

// Writes some bytes of a piece and flushes them. No byte of a piece that has some is a failure.
fn write_some<W: Write>(writer: &mut W, piece: &[u8]) -> Option<usize>
    ensures within { IfSome result (λ n. n ≤ length piece.now) }
    ensures some { IfSome result (λ n. 0 < length piece.now → 0 < n) }
    ensures empty { length piece.now ≡ 0 → result ≡ Some 0 }
    ensures taken { IfSome result (λ n. Appends (W.contents writer.old) (W.contents writer.new) (take n piece.now)) }
    ensures front { AppendsFront (W.contents writer.old) (W.contents writer.new) piece.now }
{
    if piece.is_empty() {
        return Some(0);
    }
    match writer.write(piece) {
        Ok(0) | Err(_) => None,
        Ok(count) => match writer.flush() {
            Ok(()) => Some(count),
            Err(_) => None,
        },
    }
}

impl<W: Write> Sink for HostSink<W> {
    ghost seen = { λ s. record { written = None; faults = s.faults } };

    fn write(&mut self, piece: &[u8]) -> Result<usize, Failed>
        ensures bound { WritesAtMost result piece.now }
        ensures some { IfOk result (λ n. 0 < length piece.now → 0 < n) }
        ensures empty { length piece.now ≡ 0 → result ≡ Ok 0 }
        ensures cause { HasCause self.old.faults self.new.faults result }

        // The writer is given what is taken, and each failure counts.
        ensures taken { IfOk result (λ n. Appends self.old.contents self.new.contents (take n piece.now)) }
        ensures front { OnErr result (AppendsFront self.old.contents self.new.contents piece.now) }
        ensures faults { self.new.faults ≡ count_after result self.old.faults }
    {
        match write_some(&mut self.writer, piece) {
            Some(count) => Ok(count),
            None => {
                self.faults = self.faults.saturating_add(1);
                Err(Failed)
            }
        }
    }

    fn faults(&self) -> u64 {
        self.faults
    }
}
