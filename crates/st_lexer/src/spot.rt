//! Lines and columns.

ghost use Rattle.std.specs.Prelude.{◌≡◌, ◌+◌, ◌<◌, ◌≤◌, ◌^◌, [], ◌∷◌, ◌++◌, ℕ, List, length};
ghost use Rattle.st_lexer.specs.Spots.{spot_after};

use vcp_base::Spot;

// The spot behind one byte, which stands at `spot`.
fn next(spot: Spot, byte: u8) -> Spot
    requires line { spot.line + 1 < 2 ^ 32 }
    requires col { spot.col + 1 < 2 ^ 32 }
    ensures line { result.line ≤ spot.line + 1 }
    ensures col { result.col ≤ spot.col + 1 }
    ensures spot { (before : List ℕ) → spot ≡ spot_after before → result ≡ spot_after (before ++ byte ∷ []) }
{
    if byte == b'\n' {
        Spot {
            line: spot.line + 1,
            col: 1,
        }
    } else {
        Spot {
            line: spot.line,
            col: spot.col + 1,
        }
    }
}

/// The spot behind some bytes, the first of which is at `spot`.
pub fn spot_behind(spot: Spot, bytes: &[u8]) -> Spot
    requires line { spot.line + length bytes.now < 2 ^ 32 }
    requires col { spot.col + length bytes.now < 2 ^ 32 }
    ensures line { result.line ≤ spot.line + length bytes.now }
    ensures col { result.col ≤ spot.col + length bytes.now }
    ensures spot { (before : List ℕ) → spot ≡ spot_after before → result ≡ spot_after (before ++ bytes.now) }
{
    let mut current = spot;
    for byte in bytes {
        current = next(current, *byte);
    }
    current
}
