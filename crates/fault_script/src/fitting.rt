//! Which faults a graph can have.

ghost use Rattle.std.specs.Prelude.{◌≡◌, ◌<◌, true, Some, IfOk, slice_get};
ghost use Rattle.vcp_base.specs.Limits.{most_cycles};
ghost use Rattle.fault_script.specs.Fits.{is_sited as is_sited_of, is_timely as is_timely_of, is_alike as is_alike_of, is_moderate, Fits};
ghost use Rattle.fault_script.specs.ScriptOf.{fault_at as fault_at_of, fault_of};

use crate::act::{Act, Fault};
use crate::forms::{Change, change_of_line};
use crate::script_fault::ScriptFault;
use op_graph::{Graph, Op};
use vcp_base::{Kind, operands};

/// Whether an operation of the kind has the operand that the act changes, and the register that it
/// reads is before operation `k`.
pub fn is_sited(kind: Kind, k: u32, act: &Act) -> bool
    ensures { result ≡ is_sited_of kind k act.now }
{
    match *act {
        Act::OperandAdd { j, e: _ } => j < operands(kind),
        Act::OperandFrom { j, r } => j < operands(kind) && r < k,
        Act::OperandStale { j } => j < operands(kind),
        Act::ResultAdd { e: _ } | Act::Operator { kind: _ } | Act::Skip => true,
    }
}

/// Whether there is a cycle before cycle `n`, where the act takes a word of that cycle.
pub fn is_timely(n: u32, act: &Act) -> bool
    ensures { result ≡ is_timely_of n act.now }
{
    match *act {
        Act::OperandStale { j: _ } | Act::Skip => 0 < n,
        Act::OperandAdd { j: _, e: _ }
        | Act::OperandFrom { j: _, r: _ }
        | Act::ResultAdd { e: _ }
        | Act::Operator { kind: _ } => true,
    }
}

/// Whether the kind that is put in place of an operation's kind has as many operands.
pub fn is_alike(kind: Kind, act: &Act) -> bool
    ensures { result ≡ is_alike_of kind act.now }
{
    match *act {
        Act::Operator { kind: other } => operands(other) == operands(kind),
        Act::OperandAdd { j: _, e: _ }
        | Act::OperandFrom { j: _, r: _ }
        | Act::OperandStale { j: _ }
        | Act::ResultAdd { e: _ }
        | Act::Skip => true,
    }
}

/// The fault that a line says at this operation.
fn fault_at(line: u32, change: &Change, op: &Op) -> Result<Fault, ScriptFault>
    ensures { result ≡ fault_at_of line change.now (Some op.now) }
{
    if !is_sited(op.kind, change.op, &change.act) {
        return Err(ScriptFault::Site { line });
    }
    if !is_timely(change.cycle, &change.act) {
        return Err(ScriptFault::Early { line });
    }
    if !is_alike(op.kind, &change.act) {
        return Err(ScriptFault::Kind { line });
    }
    Ok(Fault {
        line,
        cycle: change.cycle,
        op: change.op,
        act: change.act,
    })
}

/// The fault that a line of this number says, or why the line is refused.
pub fn fault(graph: &Graph, line: u32, text: &[u8]) -> Result<Fault, ScriptFault>
    ensures fault { result ≡ fault_of graph.now (record { number = line; text = text.now }) }
    ensures fits { IfOk result (λ f. Fits graph.now f) }
{
    let Some(said) = change_of_line(text) else {
        return Err(ScriptFault::Form { line });
    };
    if said.op >= graph.len() {
        return Err(ScriptFault::Site { line });
    }
    fault_at(line, &said, &graph.operation(said.op))
}
