//! Why a text has no reading.

ghost use Rattle.std.specs.Prelude.{◌≡◌};
ghost use Rattle.st_lexer.specs.Reading.{fault_of};

use vcp_base::{Memory, Spot};

/// Why no piece is at a place.
#[derive(Clone, Copy)]
pub enum Reason {
    /// No gap, comment, token or literal begins there.
    Byte,
    /// A comment opens there that isn't closed.
    Comment,
    /// A literal begins there whose run is none of its forms, or whose number is above 2^63 - 1.
    Number,
}

/// The first place at which a text can't be read on, or want of memory. A text has at most one such
/// place, and none where it has a reading.
#[derive(Clone, Copy)]
pub enum LexFault {
    /// No token begins with this byte.
    Byte { spot: Spot },
    /// The comment that opens here isn't closed.
    Comment { spot: Spot },
    /// The literal that begins here is none, or too large.
    Number { spot: Spot },
    /// Want of memory. It is merged with no other cause.
    Memory,
}

/// The fault of a reason at a spot.
pub fn fault_at(reason: Reason, spot: Spot) -> LexFault
    ensures { result ≡ fault_of reason spot }
{
    match reason {
        Reason::Byte => LexFault::Byte { spot },
        Reason::Comment => LexFault::Comment { spot },
        Reason::Number => LexFault::Number { spot },
    }
}

impl From<Memory> for LexFault {
    ghost use Rattle.st_lexer.specs.declared.fault.LexFault.TheVariants.{Memory};

    ghost from_gives = { λ _ e. e ≡ Memory };

    fn from(_: Memory) -> Self {
        LexFault::Memory
    }
}
