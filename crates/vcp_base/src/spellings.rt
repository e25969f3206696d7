//! The codes and the names of kinds, types and stops.

ghost use Rattle.std.specs.Prelude.{◌≡◌, ◌<◌, slice_get, Some, IfSome, IfNone};
ghost use Rattle.vcp_base.specs.Spellings.{kinds, kind_code as kind_code_of, kind_name as kind_name_of, types, ty_code as ty_code_of, ty_name as ty_name_of};
ghost use Rattle.vcp_base.specs.Spellings.{stop_name as stop_name_of};

use crate::kind::{Kind, StopKind};
use crate::ty::Ty;

/// The code of a kind, 0 to 18: its place in the list of kinds. No other kind has it.
pub fn kind_code(kind: Kind) -> u8
    ensures code { result ≡ kind_code_of kind }
    ensures place { slice_get kinds result ≡ Some kind }
{
    match kind {
        Kind::Input => 0,
        Kind::Const => 1,
        Kind::Load => 2,
        Kind::Store => 3,
        Kind::Out => 4,
        Kind::Conv => 5,
        Kind::Neg => 6,
        Kind::Not => 7,
        Kind::Add => 8,
        Kind::Sub => 9,
        Kind::Mul => 10,
        Kind::Div => 11,
        Kind::Mod => 12,
        Kind::Eq => 13,
        Kind::Lt => 14,
        Kind::And => 15,
        Kind::Or => 16,
        Kind::Xor => 17,
        Kind::Sel => 18,
    }
}

/// The kind with the code; None where there is none, from 19 on.
pub fn kind_of_code(code: u8) -> Option<Kind>
    ensures kind { result ≡ slice_get kinds code }
{
    match code {
        0 => Some(Kind::Input),
        1 => Some(Kind::Const),
        2 => Some(Kind::Load),
        3 => Some(Kind::Store),
        4 => Some(Kind::Out),
        5 => Some(Kind::Conv),
        6 => Some(Kind::Neg),
        7 => Some(Kind::Not),
        8 => Some(Kind::Add),
        9 => Some(Kind::Sub),
        10 => Some(Kind::Mul),
        11 => Some(Kind::Div),
        12 => Some(Kind::Mod),
        13 => Some(Kind::Eq),
        14 => Some(Kind::Lt),
        15 => Some(Kind::And),
        16 => Some(Kind::Or),
        17 => Some(Kind::Xor),
        18 => Some(Kind::Sel),
        _ => None,
    }
}

/// The name of a kind, in capitals.
pub fn kind_name(kind: Kind) -> &'static [u8]
    ensures { result.now ≡ kind_name_of kind }
{
    match kind {
        Kind::Input => b"INPUT",
        Kind::Const => b"CONST",
        Kind::Load => b"LOAD",
        Kind::Store => b"STORE",
        Kind::Out => b"OUT",
        Kind::Conv => b"CONV",
        Kind::Neg => b"NEG",
        Kind::Not => b"NOT",
        Kind::Add => b"ADD",
        Kind::Sub => b"SUB",
        Kind::Mul => b"MUL",
        Kind::Div => b"DIV",
        Kind::Mod => b"MOD",
        Kind::Eq => b"EQ",
        Kind::Lt => b"LT",
        Kind::And => b"AND",
        Kind::Or => b"OR",
        Kind::Xor => b"XOR",
        Kind::Sel => b"SEL",
    }
}

/// The code of a type, 0 to 3: its place in the list of types. No other type has it.
pub fn ty_code(ty: Ty) -> u8
    ensures code { result ≡ ty_code_of ty }
    ensures place { slice_get types result ≡ Some ty }
{
    match ty {
        Ty::Bool => 0,
        Ty::Int => 1,
        Ty::Dint => 2,
        Ty::Lint => 3,
    }
}

/// The type with the code; None where there is none, from 4 on.
pub fn ty_of_code(code: u8) -> Option<Ty>
    ensures ty { result ≡ slice_get types code }
{
    match code {
        0 => Some(Ty::Bool),
        1 => Some(Ty::Int),
        2 => Some(Ty::Dint),
        3 => Some(Ty::Lint),
        _ => None,
    }
}

/// The name of a type, in capitals.
pub fn ty_name(ty: Ty) -> &'static [u8]
    ensures { result.now ≡ ty_name_of ty }
{
    match ty {
        Ty::Bool => b"BOOL",
        Ty::Int => b"INT",
        Ty::Dint => b"DINT",
        Ty::Lint => b"LINT",
    }
}

/// The name of a kind of stop, in capitals.
pub fn stop_name(kind: StopKind) -> &'static [u8]
    ensures { result.now ≡ stop_name_of kind }
{
    match kind {
        StopKind::Range => b"RANGE",
        StopKind::DivZero => b"DIVZERO",
        StopKind::Operand => b"OPERAND",
    }
}
