//! Operators.

ghost use Rattle.std.specs.Prelude.{◌≡◌, Some};
ghost use Rattle.std.specs.Str.{str_eq_ignore_ascii_case};
ghost use Rattle.st_lexer.specs.Reading.{IsInside};
ghost use Rattle.st_tree.specs.Spelling.{bytes_in};
ghost use Rattle.il_front.specs.Judging.{comparison_named as comparison_of, combining_named as combining_of};
ghost use Rattle.il_front.specs.Judging.{operator_named as named_of, operator_reserved as reserved_of, operator_of as operator_of_bytes, sets as sets_of};

use st_lexer::{Key, Tok, Token};
use st_tree::BinOp;

/// What an operator does with the current result and its operand. `negated` is its N.
#[derive(Clone, Copy)]
pub enum Operator {
    /// LD and LDN.
    Load { negated: bool },
    /// ST and STN.
    Store { negated: bool },
    /// S, which sets TRUE, and R, which sets FALSE.
    Put { to: bool },
    /// NOT, which has no operand.
    Complement,
    /// Logic, arithmetic and comparisons.
    Combine { op: BinOp, negated: bool },
}

// Whether a name is this word, without regard to case.
fn is(name: &[u8], word: &[u8]) -> bool
    ensures { result ≡ str_eq_ignore_ascii_case name.now word.now }
{
    name.eq_ignore_ascii_case(word)
}

// The comparison of a name.
fn comparison_named(name: &[u8]) -> Option<Operator>
    ensures { result ≡ comparison_of name.now }
{
    if is(name, b"GT") {
        Some(Operator::Combine {
            op: BinOp::Gt,
            negated: false,
        })
    } else if is(name, b"GE") {
        Some(Operator::Combine {
            op: BinOp::Ge,
            negated: false,
        })
    } else if is(name, b"EQ") {
        Some(Operator::Combine {
            op: BinOp::Eq,
            negated: false,
        })
    } else if is(name, b"NE") {
        Some(Operator::Combine {
            op: BinOp::Ne,
            negated: false,
        })
    } else if is(name, b"LE") {
        Some(Operator::Combine {
            op: BinOp::Le,
            negated: false,
        })
    } else if is(name, b"LT") {
        Some(Operator::Combine {
            op: BinOp::Lt,
            negated: false,
        })
    } else {
        None
    }
}

// The logic, arithmetic or comparison of a name.
fn combining_named(name: &[u8]) -> Option<Operator>
    ensures { result ≡ combining_of name.now }
{
    if is(name, b"ANDN") {
        Some(Operator::Combine {
            op: BinOp::And,
            negated: true,
        })
    } else if is(name, b"ORN") {
        Some(Operator::Combine {
            op: BinOp::Or,
            negated: true,
        })
    } else if is(name, b"XORN") {
        Some(Operator::Combine {
            op: BinOp::Xor,
            negated: true,
        })
    } else if is(name, b"ADD") {
        Some(Operator::Combine {
            op: BinOp::Add,
            negated: false,
        })
    } else if is(name, b"SUB") {
        Some(Operator::Combine {
            op: BinOp::Sub,
            negated: false,
        })
    } else if is(name, b"MUL") {
        Some(Operator::Combine {
            op: BinOp::Mul,
            negated: false,
        })
    } else if is(name, b"DIV") {
        Some(Operator::Combine {
            op: BinOp::Div,
            negated: false,
        })
    } else {
        comparison_named(name)
    }
}

// The operator of a name, without regard to case.
fn operator_named(name: &[u8]) -> Option<Operator>
    ensures { result ≡ named_of name.now }
{
    if is(name, b"LD") {
        Some(Operator::Load { negated: false })
    } else if is(name, b"LDN") {
        Some(Operator::Load { negated: true })
    } else if is(name, b"ST") {
        Some(Operator::Store { negated: false })
    } else if is(name, b"STN") {
        Some(Operator::Store { negated: true })
    } else if is(name, b"S") {
        Some(Operator::Put { to: true })
    } else if is(name, b"R") {
        Some(Operator::Put { to: false })
    } else {
        combining_named(name)
    }
}

// The operator that a reserved word is.
fn operator_reserved(key: Key) -> Option<Operator>
    ensures { result ≡ reserved_of key }
{
    match key {
        Key::And => Some(Operator::Combine {
            op: BinOp::And,
            negated: false,
        }),
        Key::Or => Some(Operator::Combine {
            op: BinOp::Or,
            negated: false,
        }),
        Key::Xor => Some(Operator::Combine {
            op: BinOp::Xor,
            negated: false,
        }),
        Key::Mod => Some(Operator::Combine {
            op: BinOp::Mod,
            negated: false,
        }),
        Key::Not => Some(Operator::Complement),
        _ => None,
    }
}

/// The operator that a token of the text is.
pub fn operator_of(text: &[u8], t: Token) -> Option<Operator>
    requires { IsInside text.now t }
    ensures { result ≡ operator_of_bytes (bytes_in text.now t) t.tok }
{
    match t.tok {
        Tok::Name => operator_named(&text[t.from as usize..t.to as usize]),
        Tok::Key(key) => operator_reserved(key),
        Tok::Number { .. } => None,
        Tok::Sym(_) => None,
    }
}

/// Whether the operator sets its operand.
pub fn sets(operator: Operator) -> bool
    ensures { result ≡ sets_of operator }
{
    match operator {
        Operator::Load { .. } => false,
        Operator::Store { .. } => true,
        Operator::Put { .. } => true,
        Operator::Complement => false,
        Operator::Combine { .. } => false,
    }
}
