//! Why tokens are no program.

use vcp_base::Spot;

/// Why tokens are no program, or want of memory.
#[derive(Clone, Copy, Drop)]
pub enum SyntaxFault {
    /// The tokens through the one at this spot begin no program; or the spot is that of the end, and
    /// the tokens are no whole program.
    Syntax { spot: Spot },
    /// The token at this spot is deeper than the limit.
    Depth { spot: Spot },
    /// Want of memory. It is merged with no other cause.
    Memory,
}
