//! Why a text is no instruction list.

ghost use Rattle.std.specs.Prelude.{◌≡◌};
ghost use Rattle.il_front.specs.Refusals.{unlexed, unparsed, untyped};

use st_lexer::LexFault;
use st_parser::SyntaxFault;
use st_types::TypeFault;
use vcp_base::Spot;

/// The first fault of a text of instructions, or want of memory.
///
/// The text is read as tokens first, then its head as Structured Text; then the names are looked at, then the lines, then
/// the limits. A lower call's want of memory is `Memory`, never wrapped.
#[derive(Clone, Copy, Drop)]
pub enum IlFault {
    /// The text can't be read on as tokens.
    Lex(LexFault),
    /// The head's tokens are no program.
    Syntax(SyntaxFault),
    /// The head has a fault of typing; or the program has too many names, or is too large.
    Types(TypeFault),
    /// The line whose first token is here is no instruction, or isn't the last where it is END_PROGRAM; or the spot is
    /// that of the end, and END_PROGRAM is missing.
    Instruction { spot: Spot },
    /// The operand is no variable, or a literal outside its type.
    Operand { spot: Spot },
    /// The operand of ST, STN, S or R is a literal or an input.
    Target { spot: Spot },
    /// The first instruction is neither LD nor LDN.
    Empty { spot: Spot },
    /// The operator doesn't take the types of the result and the operand.
    Mismatch { spot: Spot },
    /// The declared name is that of an accumulator.
    Reserved { spot: Spot },
    /// Want of memory. It is merged with no other cause.
    Memory,
}

impl From<LexFault> for IlFault {
    ghost from_gives = { λ l e. e ≡ unlexed l };

    fn from(fault: LexFault) -> Self {
        match fault {
            LexFault::Memory => IlFault::Memory,
            LexFault::Byte { .. } | LexFault::Comment { .. } | LexFault::Number { .. } => {
                IlFault::Lex(fault)
            }
        }
    }
}

impl From<SyntaxFault> for IlFault {
    ghost from_gives = { λ p e. e ≡ unparsed p };

    fn from(fault: SyntaxFault) -> Self {
        match fault {
            SyntaxFault::Memory => IlFault::Memory,
            SyntaxFault::Syntax { .. } | SyntaxFault::Depth { .. } => IlFault::Syntax(fault),
        }
    }
}

impl From<TypeFault> for IlFault {
    ghost from_gives = { λ t e. e ≡ untyped t };

    fn from(fault: TypeFault) -> Self {
        match fault {
            TypeFault::Memory => IlFault::Memory,
            TypeFault::Duplicate { .. }
            | TypeFault::Unknown { .. }
            | TypeFault::Mismatch { .. }
            | TypeFault::Assign { .. }
            | TypeFault::Bound { .. }
            | TypeFault::Label { .. }
            | TypeFault::Call { .. }
            | TypeFault::Literal { .. }
            | TypeFault::Names { .. }
            | TypeFault::Size => IlFault::Types(fault),
        }
    }
}
