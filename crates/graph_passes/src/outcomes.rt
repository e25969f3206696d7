//! What an operation gives over known values of its operands.

ghost use Rattle.std.specs.Prelude.{◌≡◌};
ghost use Rattle.vcp_base.specs.Kinds.{outcome as outcome_of};
ghost use Rattle.graph_passes.specs.Folding.{value_unless_stop};

use op_graph::Op;
use vcp_base::outcome;

/// The value of an operation over these values of its operands, where it does not stop.
pub(crate) fn value_given(op: &Op, a: i64, b: i64, c: i64) -> Option<i64>
    ensures { result ≡ value_unless_stop (outcome_of op.now.kind op.now.from op.now.ty op.now.imm a b c) }
{
    match outcome(
        op.kind,
        op.from,
        op.ty,
        op.imm,
        i128::from(a),
        i128::from(b),
        i128::from(c),
    ) {
        Ok(v) => Some(v as i64),
        Err(_) => None,
    }
}
