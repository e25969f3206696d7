//! Why a script is refused.

ghost use Rattle.std.specs.Prelude.{◌≡◌};
ghost use Rattle.fault_script.specs.declared.script_fault.ScriptFault.TheVariants as refusal;

use vcp_base::Memory;

/// Why a script is refused, with the number of the refused line, counted from 1.
#[derive(Clone, Copy)]
pub enum ScriptFault {
    /// The line is none of the forms.
    Form {
        /// The number of the line.
        line: u32,
    },
    /// The operation isn't there, its kind hasn't the operand, or the register isn't an earlier one.
    Site {
        /// The number of the line.
        line: u32,
    },
    /// The act takes a word of the cycle before, and is in cycle 0.
    Early {
        /// The number of the line.
        line: u32,
    },
    /// The other kind has another number of operands.
    Kind {
        /// The number of the line.
        line: u32,
    },
    /// The line is the 10,001st fault line.
    Faults {
        /// The number of the line.
        line: u32,
    },
    /// A group begins inside a group, ends outside one or without a fault, or doesn't end at all, where
    /// the line is that of its `begin`.
    Group {
        /// The number of the line.
        line: u32,
    },
    /// An earlier fault of the group is at the same operation in the same cycle.
    Twice {
        /// The number of the line.
        line: u32,
    },
    /// There was no memory. It is merged with no other cause.
    Memory,
}

impl From<Memory> for ScriptFault {
    ghost from_gives = { λ _ f. f ≡ refusal.Memory };

    fn from(_: Memory) -> ScriptFault {
        ScriptFault::Memory
    }
}
