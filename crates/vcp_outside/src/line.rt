//! A line on its way to a sink.

ghost use Rattle.std.specs.Prelude.{◌≡◌, ◌+◌, ◌≤◌, true, ℕ, List, [], ◌∷◌, ◌++◌, Option, length, decimal, codes, IsErr, OnErr};
ghost use Rattle.std.specs.Fmt.{signed_decimal};
ghost use Rattle.vcp_outside.specs.Written.{Writes};
ghost use Rattle.vcp_outside.specs.Gathering.{IsGathered, GathersTo, EndsAt};

use crate::pending::Pending;
use crate::{Failed, Sink, write_all};
use itoa::Buffer;
use std::marker::Model;

/// How many bytes of a line are gathered before they are written.
pub const ROOM: usize = 256;

/// A line on its way to a sink, whose pieces are gathered in `ROOM` bytes on the stack. They are
/// written where the next piece doesn't fit behind them, and at the line's end; a piece of more than
/// `ROOM` bytes is written by itself. After a write that failed nothing more is written. A line is
/// seen as the bytes that are still to be written, and how the writes before them went.
///
/// What was written and what is pending are together what the line was given so far, in order.
#[derive(Drop)]
pub struct Line {
    pending: Pending,
    so_far: Result<(), Failed>,
}

impl Model for Line {
    ghost use Rattle.vcp_outside.specs.Gathering.{Gathered};

    ghost Value = { Gathered };

    ghost view = { λ l. record { pending = l.pending; so_far = l.so_far } };
}

// Goes on with a piece, unless an earlier write failed.
fn then<O: Sink>(out: &mut O, so_far: Result<(), Failed>, piece: &[u8]) -> Result<(), Failed>
    ensures writes { (start : Option (List ℕ)) (before : ℕ) (text : List ℕ) → Writes start (O.seen out.old).written before (O.seen out.old).faults text so_far
        → Writes start (O.seen out.new).written before (O.seen out.new).faults (text ++ piece.now) result }
    ensures after_failure { OnErr so_far (out.new ≡ out.old) }
    ensures stays_failed { IsErr so_far → IsErr result }
{
    match so_far {
        Ok(()) => write_all(out, piece),
        Err(Failed) => Err(Failed),
    }
}

impl Line {
    /// A line without bytes, of which nothing was written.
    pub fn new() -> Line
        ensures empty { result.pending ≡ [] }
        ensures begun { (written : Option (List ℕ)) (faults : ℕ) → IsGathered written written faults faults [] result }
    {
        Line {
            pending: Pending::new(),
            so_far: Ok(()),
        }
    }

    // Writes what is pending.
    fn flush<O: Sink>(&mut self, out: &mut O)
        ensures empty { self.new.pending ≡ [] }
        ensures gathers { GathersTo (O.seen out.old) (O.seen out.new) self.old self.new [] }
        ensures after_failure { OnErr self.old.so_far (out.new ≡ out.old) }
        ensures stays_failed { IsErr self.old.so_far → IsErr self.new.so_far }
    {
        self.so_far = then(out, self.so_far, self.pending.as_slice());
        self.pending.clear();
    }

    /// Goes on with these bytes. Nothing is written where there is room for them.
    pub fn text<O: Sink>(&mut self, out: &mut O, bytes: &[u8])
        ensures gathers { GathersTo (O.seen out.old) (O.seen out.new) self.old self.new bytes.now }
        ensures unwritten { length self.old.pending + length bytes.now ≤ ROOM → out.new ≡ out.old }
        ensures kept { length self.old.pending + length bytes.now ≤ ROOM → self.new ≡ record self.old { pending = self.old.pending ++ bytes.now } }
        ensures after_failure { OnErr self.old.so_far (out.new ≡ out.old) }
        ensures stays_failed { IsErr self.old.so_far → IsErr self.new.so_far }
    {
        let at = self.pending.len();
        if self.pending.append(bytes) {
            self.look_again(at, bytes);
            return;
        }
        self.flush(out);
        if !self.pending.append(bytes) {
            self.so_far = then(out, self.so_far, bytes);
        }
    }

    // Looks once more at a piece, which stands from this place on: what differs counts as a write that failed, so that nothing
    // more of the line goes out. It never differs, says the proof; where the processor erred, it may. Numbers and marks are made
    // anew for it.
    fn look_again(&mut self, at: usize, piece: &[u8])
        requires place { at ≤ ROOM }
        requires piece { at + length piece.now ≤ ROOM → EndsAt self.old.pending at piece.now }
        ensures { self.new ≡ self.old }
    {
        if !self.has_piece(at, piece) {
            self.so_far = Err(Failed);
        }
    }

    // Whether what is pending are bytes up to this place, and then these.
    fn ends_at(&self, at: usize, piece: &[u8]) -> bool
        requires place { at + length piece.now ≤ ROOM }
        ensures { EndsAt self.now.pending at piece.now → result ≡ true }
    {
        self.pending.len() == at + piece.len() && self.pending.as_slice().ends_with(piece)
    }

    /// How many bytes are pending, at most `ROOM`.
    pub fn pending(&self) -> usize
        ensures value { result ≡ length self.now.pending }
        ensures bound { result ≤ ROOM }
    {
        self.pending.len()
    }

    /// Whether from a place on the digits of a number are pending and nothing more. They are, as `count` says, where there was room for
    /// them; where the processor erred, they may not be. It looks at the line by the address that its caller has, and makes the digits
    /// anew.
    #[inline(never)]
    pub fn has_count(&self, at: usize, n: u64) -> bool
        requires place { at ≤ ROOM }
        requires digits { at + length (decimal n) ≤ ROOM → EndsAt self.now.pending at (decimal n) }
        ensures { result ≡ true }
    {
        self.has_piece(at, Buffer::new().format(n).as_bytes())
    }

    /// The same of a number after `-` where it is negative, as `value` says.
    #[inline(never)]
    pub fn has_value(&self, at: usize, v: i64) -> bool
        requires place { at ≤ ROOM }
        requires digits { at + length (signed_decimal v) ≤ ROOM → EndsAt self.now.pending at (signed_decimal v) }
        ensures { result ≡ true }
    {
        self.has_piece(at, Buffer::new().format(v).as_bytes())
    }

    // Whether a piece is pending from a place on and nothing more, where there was room for it.
    fn has_piece(&self, at: usize, piece: &[u8]) -> bool
        requires place { at ≤ ROOM }
        requires piece { at + length piece.now ≤ ROOM → EndsAt self.now.pending at piece.now }
        ensures { result ≡ true }
    {
        if at + piece.len() > ROOM {
            return true;
        }
        self.ends_at(at, piece)
    }

    /// Goes on with one byte.
    pub fn mark<O: Sink>(&mut self, out: &mut O, byte: u8)
        ensures gathers { GathersTo (O.seen out.old) (O.seen out.new) self.old self.new (byte ∷ []) }
        ensures unwritten { length self.old.pending + 1 ≤ ROOM → out.new ≡ out.old }
        ensures kept { length self.old.pending + 1 ≤ ROOM → self.new ≡ record self.old { pending = self.old.pending ++ byte ∷ [] } }
        ensures after_failure { OnErr self.old.so_far (out.new ≡ out.old) }
        ensures stays_failed { IsErr self.old.so_far → IsErr self.new.so_far }
    {
        let at = self.pending.len();
        self.text(out, &[byte]);
        self.look_again(at, &[byte]);
    }

    /// Goes on with a number in decimal digits.
    pub fn count<O: Sink>(&mut self, out: &mut O, n: u64)
        ensures gathers { GathersTo (O.seen out.old) (O.seen out.new) self.old self.new (decimal n) }
        ensures unwritten { length self.old.pending + length (decimal n) ≤ ROOM → out.new ≡ out.old }
        ensures kept { length self.old.pending + length (decimal n) ≤ ROOM → self.new ≡ record self.old { pending = self.old.pending ++ decimal n } }
        ensures after_failure { OnErr self.old.so_far (out.new ≡ out.old) }
        ensures stays_failed { IsErr self.old.so_far → IsErr self.new.so_far }
    {
        let at = self.pending.len();
        self.text(out, Buffer::new().format(n).as_bytes());
        self.look_again(at, Buffer::new().format(n).as_bytes());
    }

    /// Goes on with a number in decimal digits, after `-` where it is negative.
    pub fn value<O: Sink>(&mut self, out: &mut O, v: i64)
        ensures gathers { GathersTo (O.seen out.old) (O.seen out.new) self.old self.new (signed_decimal v) }
        ensures unwritten { length self.old.pending + length (signed_decimal v) ≤ ROOM → out.new ≡ out.old }
        ensures kept { length self.old.pending + length (signed_decimal v) ≤ ROOM
            → self.new ≡ record self.old { pending = self.old.pending ++ signed_decimal v } }
        ensures after_failure { OnErr self.old.so_far (out.new ≡ out.old) }
        ensures stays_failed { IsErr self.old.so_far → IsErr self.new.so_far }
    {
        let at = self.pending.len();
        self.text(out, Buffer::new().format(v).as_bytes());
        self.look_again(at, Buffer::new().format(v).as_bytes());
    }

    /// Goes on with a number of 128 bits in decimal digits, after `-` where it is negative.
    pub fn long_value<O: Sink>(&mut self, out: &mut O, number: i128)
        ensures gathers { GathersTo (O.seen out.old) (O.seen out.new) self.old self.new (signed_decimal number) }
        ensures unwritten { length self.old.pending + length (signed_decimal number) ≤ ROOM → out.new ≡ out.old }
        ensures kept { length self.old.pending + length (signed_decimal number) ≤ ROOM
            → self.new ≡ record self.old { pending = self.old.pending ++ signed_decimal number } }
        ensures after_failure { OnErr self.old.so_far (out.new ≡ out.old) }
        ensures stays_failed { IsErr self.old.so_far → IsErr self.new.so_far }
    {
        self.text(out, Buffer::new().format(number).as_bytes());
    }

    /// Ends the line with LF, and writes what is pending. It fails where a write of the line failed, and then
    /// a part of the line is written. The part comes only where the count of faults rose.
    pub fn end<O: Sink>(mut self, out: &mut O) -> Result<(), Failed>
        ensures writes { (start : Option (List ℕ)) (before : ℕ) (text : List ℕ) → IsGathered start (O.seen out.old).written before (O.seen out.old).faults text self
            → Writes start (O.seen out.new).written before (O.seen out.new).faults (text ++ codes "\n") result }
        ensures after_failure { OnErr self.so_far (out.new ≡ out.old) }
        ensures stays_failed { IsErr self.so_far → IsErr result }
    {
        self.mark(out, b'\n');
        self.flush(out);
        self.so_far
    }
}
