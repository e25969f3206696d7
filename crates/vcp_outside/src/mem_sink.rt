//! A sink in memory.

ghost use Rattle.std.specs.Prelude.{◌≡◌, ◌-◌, ◌^◌, ◌<◌, ◌≤◌, ◌⊎◌, ◌↔◌, ◌++◌, [], Some, Ok, min, length, take, IsErr, IfOk, OnOk, OnErr};
ghost use Rattle.std.specs.Io.{WritesAtMost};
ghost use Rattle.std.specs.Io.KnownBytes.{WriteAppends};
ghost use Rattle.vcp_outside.specs.Counts.{HasCause, count_after};
ghost use Rattle.vcp_outside.specs.FailingCalls.{no_calls, one_more, NextFails, FailsAlso};
ghost use Rattle.vcp_outside.specs.MemSink.{room_left, IsFull, calls_after};

use crate::failed::Failed;
use crate::failing_calls::FailingCalls;
use crate::sink::Sink;
use std::alloc::Global;
use std::marker::Model;
use vcp_base::Memory;

/// A sink that keeps what is written, up to its room. It is seen as the bytes that were written, how many it
/// takes in all, its count of faults, and the writes of some bytes so far with those that are made to fail. A
/// call fails exactly where it was made to fail, or some bytes are written to a full sink; `faults` rises by
/// one at each of these.
#[derive(Drop)]
pub struct MemSink {
    bytes: Vec<u8>,
    room: usize,
    faults: u64,
    calls: FailingCalls,
}

impl Model for MemSink {
    ghost use Rattle.std.specs.Prelude.{◌≤◌, vec_len, vec_capacity};
    ghost use Rattle.vcp_outside.specs.MemSink.{SinkInMemory};

    ghost Value = { SinkInMemory };

    ghost view = { λ s. record { bytes = s.bytes.items; room = s.room; faults = s.faults; calls = s.calls } };

    ghost invariant = { λ s. (vec_len s.bytes ≤ s.room) × (s.room ≤ vec_capacity s.bytes) };
}

impl MemSink {
    /// An empty sink that takes `room` bytes in all, of which no call is made to fail. It takes the
    /// memory for its bytes at once; `Memory` where there is not so much.
    pub fn new(alloc: Global, room: u32) -> Result<MemSink, Memory>
        ensures { IfOk result (λ sink. sink ≡ record { bytes = []; room = room; faults = 0; calls = no_calls }) }
    {
        let room = room as usize;
        Ok(MemSink {
            bytes: Vec::with_capacity(alloc, room)?,
            room,
            faults: 0,
            calls: FailingCalls::new(alloc),
        })
    }

    /// Makes the call of a number fail, counted from 0 over the calls of `write` with some bytes: a
    /// write of no bytes never fails and isn't counted. Such a call writes nothing. After `Memory`
    /// nothing has changed.
    ///
    /// A number whose call was made already changes nothing.
    pub fn fail_call(&mut self, number: u64) -> Result<(), Memory>
        requires { number < 2 ^ 64 - 1 }
        ensures set { OnOk result (FailsAlso number self.old.calls self.new.calls) }
        ensures rest { OnOk result (self.new ≡ record self.old { calls = self.new.calls }) }
        ensures err { OnErr result (self.new ≡ self.old) }
    {
        self.calls.add(number)
    }

    /// What was written, at most as many bytes as the sink has room for.
    pub fn bytes(&self) -> &[u8]
        ensures value { result.now ≡ self.now.bytes }
        ensures within { length result.now ≤ self.now.room }
    {
        &self.bytes
    }
}

impl Sink for MemSink {
    ghost seen = { λ s. record { written = Some s.bytes; faults = s.faults } };

    fn write(&mut self, piece: &[u8]) -> Result<usize, Failed>
        ensures bound { WritesAtMost result piece.now }
        ensures some { IfOk result (λ n. 0 < length piece.now → 0 < n) }
        ensures empty { length piece.now ≡ 0 → result ≡ Ok 0 }
        ensures bytes { WriteAppends (Some self.old.bytes) (Some self.new.bytes) result piece.now }
        ensures cause { HasCause self.old.faults self.new.faults result }

        // It fails exactly for some bytes where it is made to fail or is full, and else takes all
        // that there is room for.
        ensures fails { IsErr result ↔ ((0 < length piece.now) × (NextFails self.old.calls ⊎ IsFull self.old)) }
        ensures count { IfOk result (λ n. n ≡ min (length piece.now) (room_left self.old)) }
        ensures ok { IfOk result (λ n. self.new ≡ record self.old {
          bytes = self.old.bytes ++ take n piece.now;
          calls = calls_after self.old.calls piece.now;
        }) }
        ensures err { OnErr result (self.new ≡ record self.old {
          faults = count_after result self.old.faults;
          calls = one_more self.old.calls;
        }) }
    {
        if piece.is_empty() {
            return Ok(0);
        }
        let left = self.room - self.bytes.len();
        if self.calls.next() || left == 0 {
            self.faults = self.faults.saturating_add(1);
            return Err(Failed);
        }
        let count = piece.len().min(left);
        match self.bytes.extend_from_slice(&piece[..count]) {
            Ok(()) => Ok(count),
            Err(_) => unreachable!(),
        }
    }

    fn faults(&self) -> u64 {
        self.faults
    }
}
