//! Faults of typing.

use vcp_base::Spot;

/// A rule that a program may break. At one spot the earlier rule is reported.
#[derive(Clone, Copy, Drop)]
pub enum Rule {
    /// A name is declared before.
    Duplicate,
    /// A variable isn't declared.
    Unknown,
    /// Operands, arguments or a value have wrong types.
    Mismatch,
    /// The variable may not be set there.
    Assign,
    /// A bound or step of a FOR, or an initial value, is no constant or outside the type.
    Bound,
    /// A label is no constant or outside the type.
    Label,
    /// The function is unknown, or has another number of arguments.
    Call,
    /// A literal with a type is outside it.
    Literal,
}

/// A broken rule and its place.
#[derive(Clone, Copy, Drop)]
pub struct Fault {
    pub rule: Rule,
    pub spot: Spot,
}

/// Why a tree has no checked program, or want of memory.
#[derive(Clone, Copy, Drop)]
pub enum TypeFault {
    /// The name is declared before.
    Duplicate { spot: Spot },
    /// The variable isn't declared.
    Unknown { spot: Spot },
    /// Operands, arguments or a value have wrong types; a condition isn't BOOL; a selector or control
    /// variable is BOOL; an initial value has another type.
    Mismatch { spot: Spot },
    /// The variable is an input, a constant, or the control variable of a FOR round this place.
    Assign { spot: Spot },
    /// A bound or step is no constant, is BOOL or outside the control variable's type; a step is 0; an
    /// initial value is no constant.
    Bound { spot: Spot },
    /// A label is no constant, is BOOL or outside the selector's type, or a range is empty.
    Label { spot: Spot },
    /// The function is unknown, or has another number of arguments.
    Call { spot: Spot },
    /// A literal with a type is outside it; or `-` is before the literal -2^63, which no source spells.
    Literal { spot: Spot },
    /// More than 1,024 names are declared: this is the 1,025th.
    Names { spot: Spot },
    /// The Size of the program is above 65,536.
    Size,
    /// Want of memory. It is merged with no other cause.
    Memory,
}
