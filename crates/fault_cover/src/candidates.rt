//! Where the faults of a class at an operation stand: in rows, mostly one for each operand, and columns, one for each value.

ghost use Rattle.std.specs.Option.{option_to_list};
ghost use Rattle.std.specs.Prelude.{◌≡◌, ◌<◌, ◌+◌, ◌^◌, ◌-◌, cond, length, map, slice_get};
ghost use Rattle.op_graph.specs.Rules.{is_out as is_out_of};
ghost use Rattle.fault_cover.specs.Candidates.{candidate as candidate_of, columns as columns_of, rows as rows_of};
ghost use Rattle.fault_cover.specs.Classes.{late_one};
ghost use Rattle.fault_cover.specs.Sources.{readings};
ghost use Rattle.fault_cover.specs.Surveys.{IsMapped};
ghost use Rattle.fault_cover.specs.declared.disturbance.Disturbance.TheVariants as disturbance;

use crate::class::CoverClass;
use crate::disturbance::Disturbance;
use crate::survey::Survey;
use fault_script::Act;
use fault_sites::{KINDS, from_of, is_out, may_be_late, operator_of};
use op_graph::{Graph, Op};
use vcp_base::operands;

/// How many rows there are.
pub(crate) fn rows(class: CoverClass, op: &Op) -> u32
    ensures { result ≡ rows_of class op.now }
{
    match class {
        CoverClass::Add => operands(op.kind) + 1,
        CoverClass::Stale | CoverClass::From | CoverClass::Late => operands(op.kind),
        CoverClass::Rest | CoverClass::Skip | CoverClass::Operator => 1,
    }
}

/// Behind how many readings the word of operation `k` may change with two or more of them left, but for the first.
fn rests(graph: &Graph, survey: &Survey, k: u32, op: &Op) -> u32
    requires mapped { IsMapped graph.now survey.now }
    requires there { k < length graph.now.operations }
    ensures { result ≡ cond (is_out_of op.now.kind) 0 (length (readings graph.now k) - 2) }
{
    // So few operations don't have 2^32 readings.
    let _operations = graph.len();
    if is_out(op.kind) {
        return 0;
    }
    let all = survey.readings(k);
    (all.len() as u32).saturating_sub(2)
}

/// How many columns there are.
pub(crate) fn columns(graph: &Graph, survey: &Survey, class: CoverClass, k: u32, op: &Op) -> u32
    requires mapped { IsMapped graph.now survey.now }
    requires there { k < length graph.now.operations }
    ensures { result ≡ columns_of class graph.now k op.now }
{
    match class {
        CoverClass::Add | CoverClass::Stale | CoverClass::Skip => 1,
        CoverClass::Rest => rests(graph, survey, k, op),
        CoverClass::From => k,
        CoverClass::Late => graph.len() - k,
        CoverClass::Operator => KINDS as u32,
    }
}

/// An act that may be there.
fn does(act: Option<Act>) -> Option<Disturbance>
    ensures { option_to_list result ≡ map disturbance.Does (option_to_list act) }
{
    match act {
        Some(act) => Some(Disturbance::Does(act)),
        None => None,
    }
}

/// Operand `j` is the word of the cycle before of operation `k` or the `i`th behind it, where its type goes there.
fn late(graph: &Graph, op: &Op, j: u32, k: u32, i: u32) -> Option<Disturbance>
    requires { i < length graph.now.operations - k }
    ensures { late_one graph.now op.now j (k + i) (slice_get graph.now.operations (k + i)) ≡ option_to_list result }
{
    // Operations are numbered in 32 bits.
    let _operations = graph.len();
    let r = k + i;
    let source = graph.operation(r);
    if may_be_late(graph, op, j, r, &source) {
        Some(Disturbance::Late { j, r })
    } else {
        None
    }
}

/// The fault in row `j` and column `i`, where there is one.
pub(crate) fn candidate(
    graph: &Graph,
    class: CoverClass,
    k: u32,
    op: &Op,
    j: u32,
    i: u32,
) -> Option<Disturbance>
    requires there { k < length graph.now.operations }
    requires column { i < columns_of class graph.now k op.now }
    requires fits { i + 1 < 2 ^ 32 }
    ensures { candidate_of class graph.now k op.now j i ≡ option_to_list result }
{
    match class {
        CoverClass::Add if j == 0 => Some(Disturbance::AddToResult),
        CoverClass::Add => Some(Disturbance::AddToOperand { j: j - 1 }),
        CoverClass::Rest => Some(Disturbance::AddToRest { right: i + 1 }),
        CoverClass::Stale => Some(Disturbance::Does(Act::OperandStale { j })),
        CoverClass::Skip => Some(Disturbance::Does(Act::Skip)),
        CoverClass::From => does(from_of(graph, op, j, i)),
        CoverClass::Late => late(graph, op, j, k, i),
        CoverClass::Operator => does(operator_of(op.kind, i as u8)),
    }
}
