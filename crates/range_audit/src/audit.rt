//! What is found of all operations of a graph, in all runs.

ghost use Rattle.std.specs.Prelude.{◌≡◌, length, IfOk};
ghost use Rattle.range_audit.specs.Audit.{Holds, NamesStops, EndsNamed, named_below, NeverStops, HoldsWithin, NamesStopsWithin, EndsNamedWithin};
ghost use Rattle.range_audit.specs.Audit.{NeverStopsWithin};
ghost use Rattle.range_walk.specs.Known.{NamesAble, LieInTypes};

use crate::boxes::Boxes;
use crate::cells::loaded_cells;
use crate::families::{Budget, closer, settled};
use op_graph::{Graph, entries_keep_their_rules, operands_are_in_their_types};
use range_walk::{Range, Ranges, walk};
use std::alloc::Global;
use vcp_base::Memory;

/// What is found of the operations of a graph, an answer for any number of cycles, where ranges of inputs are assumed: of the first ones, as
/// many as there are. It is what `ranges_of` tells, but of rows whose inputs are in these ranges alone. Of other rows nothing is said. Where
/// `closely`, it is searched for closer ranges also where no operation is named.
pub fn ranges_within(
    alloc: Global,
    graph: &Graph,
    inputs: &[Range],
    closely: bool,
) -> Result<Ranges, Memory>
    ensures known { IfOk result (λ a. length a.known ≡ length graph.now.operations) }
    ensures stops { IfOk result (λ a. length a.stops ≡ length graph.now.operations) }
    ensures holds { IfOk result (λ a. HoldsWithin graph.now inputs.now a.known) }
    ensures names { IfOk result (λ a. NamesStopsWithin graph.now inputs.now a.stops) }
    ensures ends { IfOk result (λ a. EndsNamedWithin graph.now inputs.now a.stops) }
    ensures able { IfOk result (λ a. NamesAble graph.now.operations a.stops) }
    ensures types { IfOk result (λ a. LieInTypes graph.now.operations a.known) }
    ensures never { IfOk result (λ a. named_below a.stops (length graph.now.operations) ≡ 0 → NeverStopsWithin graph.now inputs.now) }
{
    // No operation stops because an operand is outside its type.
    operands_are_in_their_types();
    entries_keep_their_rules();
    let _operations = graph.len();
    // Each cell always has a value of its type.
    let cells = loaded_cells(alloc, graph, true)?;
    let typed = walk(alloc, graph, &cells, inputs)?;
    let types = Boxes::one(alloc, cells)?;
    let mut budget = Budget::new(alloc, graph, closely);
    let boxes = settled(alloc, graph, inputs, types, &mut budget);
    let told = closer(alloc, graph, inputs, typed, &boxes, &mut budget);
    if budget.is_full() {
        return Err(Memory);
    }
    Ok(told)
}

/// The range of the values of each operation of a graph, and why it may stop: an answer for all inputs and any number of cycles.
///
/// Each value of each operation, in each cycle of the graph's run over whatever rows, is in the range of its operation. In a run over
/// rows whose values are in the types of their inputs, only an operation that is named stops, and only so as is said of it; where none
/// is named, no run stops. That an operation is named says no more than that one of its kind and types can stop so; and the range of
/// each lies within its type. The time is linear in the number of operations.
///
/// A run over such rows ends where its rows end, or at an operation that is named, as it is named.
pub fn ranges_of(alloc: Global, graph: &Graph) -> Result<Ranges, Memory>
    ensures known { IfOk result (λ a. length a.known ≡ length graph.now.operations) }
    ensures stops { IfOk result (λ a. length a.stops ≡ length graph.now.operations) }
    ensures holds { IfOk result (λ a. Holds graph.now a.known) }
    ensures names { IfOk result (λ a. NamesStops graph.now a.stops) }
    ensures ends { IfOk result (λ a. EndsNamed graph.now a.stops) }
    ensures able { IfOk result (λ a. NamesAble graph.now.operations a.stops) }
    ensures types { IfOk result (λ a. LieInTypes graph.now.operations a.known) }
    ensures never { IfOk result (λ a. named_below a.stops (length graph.now.operations) ≡ 0 → NeverStops graph.now) }
{
    let told = ranges_within(alloc, graph, &[], false)?;
    Ok(told)
}
