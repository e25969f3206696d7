//! The rules of operations, as tests. Each says of one field what may be there, given the fields before it.

ghost use Rattle.std.specs.Prelude.{◌≡◌, ◌==◌, ◌<◌, ℕ, pos};
ghost use Rattle.std.specs.Option.{is_some};
ghost use Rattle.std.specs.Ordering.{int_eq};
ghost use Rattle.vcp_base.specs.declared.ty.Ty.{Ty as Type_};
ghost use Rattle.op_graph.specs.Reads.{named as named_of};
ghost use Rattle.op_graph.specs.Rules.{entry_of as entry_of_place, agree as agree_of, kind_fits as kind_fits_of, converts as converts_of};
ghost use Rattle.op_graph.specs.Rules.{takes_type as takes_type_of, from_fits as from_fits_of, ty_fits as ty_fits_of, reads_as as reads_as_of};
ghost use Rattle.op_graph.specs.Rules.{operand_fits as operand_fits_of, imm_fits as imm_fits_of, turn_fits as turn_fits_of};

use crate::op::Op;
use vcp_base::{Kind, Ty, fits, is_number, operand_type, operands, same_type, within};

/// An input, output or cell that an operation belongs to.
#[derive(Clone, Copy)]
pub struct Entry {
    /// Its number in its list, from 0.
    pub number: usize,
    /// The type of its values.
    pub ty: Ty,
}

/// What an operation is by the lists of inputs, outputs and cells.
#[derive(Clone, Copy)]
pub struct Place {
    /// The input of which it is the INPUT.
    pub input: Option<Entry>,
    /// The cell of which it is the LOAD.
    pub load: Option<Entry>,
    /// The cell of which it is the STORE.
    pub store: Option<Entry>,
    /// The output of which it is the OUT.
    pub out: Option<Entry>,
}

/// The input, output or cell of an operation of this kind; None where the place has none for it.
pub fn entry_of(place: &Place, kind: Kind) -> Option<Entry>
    ensures { result ≡ entry_of_place place.now kind }
{
    match kind {
        Kind::Input => place.input,
        Kind::Load => place.load,
        Kind::Store => place.store,
        Kind::Out => place.out,
        _ => None,
    }
}

/// Whether both hold, or neither does.
fn agree(one: bool, other: bool) -> bool
    ensures { result ≡ agree_of one other }
{
    one == other
}

/// Whether an operation of this place may have the kind: it is INPUT exactly at an input's operation, LOAD and STORE
/// exactly at a cell's, OUT exactly at an output's.
pub fn kind_fits(place: &Place, kind: Kind) -> bool
    ensures { result ≡ kind_fits_of place.now kind }
{
    agree(matches!(kind, Kind::Input), place.input.is_some())
        && agree(matches!(kind, Kind::Load), place.load.is_some())
        && agree(matches!(kind, Kind::Store), place.store.is_some())
        && agree(matches!(kind, Kind::Out), place.out.is_some())
}

/// Whether CONV goes from one type to the other: from a number to another number, and from BOOL to INT.
pub fn converts(from: Ty, to: Ty) -> bool
    ensures { result ≡ converts_of from to }
{
    is_number(to) && !same_type(from, to) && (is_number(from) || same_type(to, Ty::Int))
}

/// Whether the kind takes operands of the type: arithmetic and `<` take numbers, logic takes BOOL, every other kind any
/// type.
pub fn takes_type(kind: Kind, from: Ty) -> bool
    ensures { result ≡ takes_type_of kind from }
{
    match kind {
        Kind::Neg | Kind::Add | Kind::Sub | Kind::Mul | Kind::Div | Kind::Mod | Kind::Lt => {
            is_number(from)
        }
        Kind::Not | Kind::And | Kind::Or | Kind::Xor => same_type(from, Ty::Bool),
        _ => true,
    }
}

/// Whether the operands may have the type: that of the operation's input, cell or output, and else one that the kind
/// takes.
pub fn from_fits(entry: Option<Entry>, kind: Kind, from: Ty) -> bool
    ensures { result ≡ from_fits_of entry kind from }
{
    match entry {
        None => takes_type(kind, from),
        Some(e) => same_type(e.ty, from),
    }
}

/// Whether the result may have the type, where that of the operands fits: BOOL for comparisons, one to convert to for
/// CONV, and else the same.
pub fn ty_fits(kind: Kind, from: Ty, to: Ty) -> bool
    ensures { result ≡ ty_fits_of kind from to }
{
    match kind {
        Kind::Conv => converts(from, to),
        Kind::Eq | Kind::Lt => same_type(to, Ty::Bool),
        _ => same_type(from, to),
    }
}

/// The operation that operand `j`, counted from 0, names.
#[inline(always)]
pub fn named(op: &Op, j: u32) -> u32
    ensures { result ≡ named_of op.now j }
{
    match j {
        0 => op.a,
        1 => op.b,
        _ => op.c,
    }
}

/// Whether operand `j`, counted from 0, is an operation: a LOAD reads its cell, and no operation.
pub fn reads_operation(kind: Kind, j: u32) -> bool
    ensures { (from : Type_) → result ≡ is_some (reads_as_of kind from j) }
{
    match kind {
        Kind::Load => false,
        _ => j < operands(kind),
    }
}

/// The type in which operand `j`, counted from 0, is read; None where it is no operation.
pub fn reads_as(kind: Kind, from: Ty, j: u32) -> Option<Ty>
    ensures { result ≡ reads_as_of kind from j }
{
    match kind {
        Kind::Load => None,
        _ => {
            if j < operands(kind) {
                Some(operand_type(kind, j, from))
            } else {
                None
            }
        }
    }
}

/// Whether an operand may be operation `n`, after these operations: it is one of them, and its type is within the one in
/// which it is read; 0 where there is no operand.
pub fn operand_fits(before: &[Op], wanted: Option<Ty>, n: u32) -> bool
    ensures { result ≡ operand_fits_of before.now wanted n }
{
    match wanted {
        None => n == 0,
        Some(ty) => match before.get(n as usize) {
            None => false,
            Some(op) => within(op.ty, ty),
        },
    }
}

/// Whether a value is this number.
fn is_this(v: i64, n: usize) -> bool
    ensures { result ≡ int_eq v (pos n) }
{
    v as i128 == n as i128
}

/// Whether an operation's own number may be this: the number of its input, cell or output, a value of the type for
/// CONST, and else 0.
pub fn imm_fits(entry: Option<Entry>, kind: Kind, to: Ty, v: i64) -> bool
    ensures { result ≡ imm_fits_of entry kind to v }
{
    match entry {
        None => match kind {
            Kind::Const => fits(to, v as i128),
            _ => is_this(v, 0),
        },
        Some(e) => is_this(v, e.number),
    }
}

/// Whether an operation's turn may be this: 0 for INPUT, LOAD, STORE and OUT, and else 0 or the number of a turn node,
/// from 1.
pub fn turn_fits(entry: Option<Entry>, turn_nodes: u32, n: u32) -> bool
    ensures { result ≡ turn_fits_of entry turn_nodes n }
{
    match entry {
        None => n <= turn_nodes,
        Some(_) => n == 0,
    }
}
