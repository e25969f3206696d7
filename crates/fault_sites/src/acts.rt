//! The acts that may be at an operation.

ghost use Rattle.std.specs.Prelude.{◌≡◌, ◌<◌, length, slice_get};
ghost use Rattle.std.specs.Option.{option_to_list};
ghost use Rattle.vcp_base.specs.Spellings.{kinds};
ghost use Rattle.fault_sites.specs.Sites.{from_one, operator_one};
ghost use Rattle.fault_sites.specs.Acts.{act_at, columns as columns_of_class, rows as rows_of_class};

use crate::class::Class;
use crate::telling::Acts;
use crate::values::{ADDENDS, bit};
use fault_script::Act;
use op_graph::{Graph, Op, named};
use vcp_base::{Kind, kind_code, kind_of_code, operand_type, operands, within};

/// How many kinds there are.
pub const KINDS: u8 = 19;

/// Operand `j` as the word of operation `r`, where that may take its place: its type goes there, and it isn't the one that is read anyway.
pub fn from_of(graph: &Graph, op: &Op, j: u32, r: u32) -> Option<Act>
    requires { r < length graph.now.operations }
    ensures { from_one op.now j r (slice_get graph.now.operations r) ≡ option_to_list result }
{
    let source = graph.operation(r);
    // A LOAD reads its cell, and no operation.
    let reads = match op.kind {
        Kind::Load => false,
        _ => named(op, j) == r,
    };
    if within(source.ty, operand_type(op.kind, j, op.from)) && !reads {
        Some(Act::OperandFrom { j, r })
    } else {
        None
    }
}

/// The call as one of the kind with the code, where that may take its place: another one of as many operands.
pub fn operator_of(kind: Kind, code: u8) -> Option<Act>
    ensures { operator_one kind (slice_get kinds code) ≡ option_to_list result }
{
    let other = kind_of_code(code)?;
    if operands(other) == operands(kind) && kind_code(other) != kind_code(kind) {
        Some(Act::Operator { kind: other })
    } else {
        None
    }
}

impl Acts for Class {
    ghost AreIn = { λ _ _. Unit {0} };

    ghost rows_of = { rows_of_class };

    ghost columns_of = { λ c _. columns_of_class c };

    ghost act_of = { λ c g _. act_at c g };

    fn rows(&self, op: &Op) -> u32 {
        match *self {
            Class::Bits => operands(op.kind) + 1,
            Class::Stale | Class::From => operands(op.kind),
            Class::Skip | Class::Operator => 1,
        }
    }

    fn columns(&self, _graph: &Graph, k: u32) -> u32 {
        match *self {
            Class::Bits => ADDENDS,
            Class::Stale | Class::Skip => 1,
            Class::From => k,
            Class::Operator => KINDS as u32,
        }
    }

    fn act(&self, graph: &Graph, _k: u32, op: &Op, j: u32, i: u32) -> Option<Act> {
        match *self {
            Class::Bits => Some(bit(j, i)),
            Class::Stale => Some(Act::OperandStale { j }),
            Class::Skip => Some(Act::Skip),
            Class::From => from_of(graph, op, j, i),
            Class::Operator => operator_of(op.kind, i as u8),
        }
    }
}
