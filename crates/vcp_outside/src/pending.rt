//! Bytes of a line that wait to be written.

ghost use Rattle.std.specs.Prelude.{◌≡◌, ◌+◌, ◌≤◌, [], ◌++◌, length, nat_le, true, false};

use crate::ROOM;
use std::marker::Model;

/// At most `ROOM` bytes, in room on the stack that is used again, seen as a list of bytes.
#[derive(Drop)]
pub(crate) struct Pending {
    bytes: [u8; ROOM],
    len: usize,
}

impl Model for Pending {
    ghost use Rattle.std.specs.Prelude.{◌≤◌, List, ℕ, take};

    ghost Value = { List ℕ };

    ghost view = { λ p. take p.len p.bytes };

    ghost invariant = { λ p. p.len ≤ 256 };
}

impl Pending {
    /// No bytes.
    pub fn new() -> Pending
        ensures { result ≡ [] }
    {
        Pending {
            bytes: [0; ROOM],
            len: 0,
        }
    }

    /// How many bytes there are, at most `ROOM`.
    pub fn len(&self) -> usize
        ensures value { result ≡ length self.now }
        ensures bound { result ≤ ROOM }
    {
        self.len
    }

    /// The bytes.
    pub fn as_slice(&self) -> &[u8]
        ensures { result.now ≡ self.now }
    {
        &self.bytes[..self.len]
    }

    /// Forgets the bytes.
    pub fn clear(&mut self)
        ensures { self.new ≡ [] }
    {
        self.len = 0;
    }

    /// Appends these bytes, and answers whether there was room for them. Where there wasn't, nothing changes.
    pub fn append(&mut self, piece: &[u8]) -> bool
        ensures fits { result ≡ nat_le (length self.old + length piece.now) ROOM }
        ensures there { result ≡ true → self.new ≡ self.old ++ piece.now }
        ensures stays { result ≡ false → self.new ≡ self.old }
    {
        if piece.len() > ROOM - self.len {
            return false;
        }
        let end = self.len + piece.len();
        self.bytes[self.len..end].copy_from_slice(piece);
        self.len = end;
        true
    }
}
