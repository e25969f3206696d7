//! Cycles of a machine by the three calls of which a cycle is made.

ghost use Rattle.std.specs.Prelude.{◌≡◌, ◌≤◌, ◌<◌, ◌+◌, false, length};
ghost use Rattle.coded_machine.specs.State.{Finished};

use crate::play::calls::words::i64_of;
use crate::play::told::Told;
use coded_machine::{CycleEnd, Machine};
use coded_unit::{BadUnit, Unit};
use op_graph::Graph;
use signature_table::Table;
use std::alloc::Global;
use vcp_base::{Row, stop_name};

/// Tells three cycles of a new machine of a graph that has one output, with the seed 0 and the step 1, on rows of one value each.
pub fn tell_cycles(
    alloc: Global,
    graph: &Graph,
    unit: &mut BadUnit,
    n: &[i128; 12],
    told: Told,
) -> Told {
    if graph.outputs() == 1
        && let Ok(table) = Table::new(alloc, graph, 0, 1)
        && let Ok(mut machine) = Machine::new(alloc, graph, &table)
        && let Ok(mut out) = Row::zeros(alloc, 1)
    {
        let mut told = told;
        'cycles: for i in 2..5 {
            told = tell_cycle(alloc, &mut machine, unit, &mut out, i64_of(n[i]), told);
        }
        return told;
    }
    told
}

/// Tells the value of the output behind a cycle on a row of one value, and the cycle's end, after a release with the first five words that were answered.
fn tell_cycle(
    alloc: Global,
    machine: &mut Machine<'_>,
    unit: &mut BadUnit,
    out: &mut Row,
    value: i64,
    told: Told,
) -> Told
    requires cycle { machine.old.cycles < 1000000 }
    requires between { machine.old.under_way ≡ false }
    requires outputs { length machine.old.graph.outputs ≡ 1 }
    requires out { length out.old ≡ 1 }
    ensures cycles { machine.new.cycles ≤ machine.old.cycles + 1 }
    ensures between { machine.new.under_way ≡ false }
    ensures outputs { length machine.new.graph.outputs ≡ 1 }
    ensures out { length out.new ≡ 1 }
{
    let mut inputs = Row::new(alloc);
    let _ = inputs.push(value);
    perform_calls(machine, unit, &inputs);
    let end = machine.end(out);
    tell_end(machine, end, told.number(out.at(0) as i128))
}

/// Has a unit answer the calls of a cycle on a row.
fn perform_calls(machine: &mut Machine<'_>, unit: &mut BadUnit, inputs: &Row)
    requires cycle { machine.old.cycles < 1000000 }
    ensures finished { Finished machine.new }
    ensures graph { machine.new.graph ≡ machine.old.graph }
    ensures cycles { machine.new.cycles ≡ machine.old.cycles }
{
    'calls: while let Some(call) = machine.next_call(inputs) {
        machine.put(unit.perform(&call));
    }
}

/// Tells the end of a cycle in the rest of a line, after a release with the first five words that were answered, 0 where there is none.
fn tell_end(machine: &Machine<'_>, end: CycleEnd, told: Told) -> Told {
    let told = match end {
        CycleEnd::Released => {
            let mut told = told.item(b"released");
            for i in 0..5 {
                told = match machine.word(i) {
                    Some(word) => told.number(word.get()),
                    None => told.number(0),
                };
            }
            told
        }
        CycleEnd::Stopped { op, kind } => told
            .item(b"stopped")
            .number(op as i128)
            .item(stop_name(kind)),
        CycleEnd::Refused {
            output,
            found,
            expected,
        } => told
            .item(b"refused")
            .number(output as i128)
            .number(found as i128)
            .number(expected as i128),
    };
    told.say(b"\n")
}
