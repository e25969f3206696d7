//! An audit, written line by line.

ghost use Rattle.std.specs.Prelude.{◌≡◌, ◌<◌, ◌≤◌, ◌+◌, length};
ghost use Rattle.vcp_outside.specs.Written.{WritesTo};
ghost use Rattle.vcp_base.specs.Limits.{most_horizon};
ghost use Rattle.weight_audit.specs.Audit.{IsAudit};
ghost use Rattle.weight_audit.specs.AuditLines.{reached_text};
ghost use Rattle.weight_audit.specs.AuditText.{is_blind as is_blind_of, line_if, lines_below, distance_text, distances_below, audit_text};
ghost use Rattle.weight_audit.specs.Continues.{Continues};

use crate::Weights;
use crate::report::counts::{count_blind, count_reached, is_blind};
use crate::report::lines::{blind_line, reached_line};
use op_graph::Graph;
use run_report::output_name;
use vcp_base::Text;
use vcp_outside::{Failed, Sink};

/// Goes on with the line of an operation, where it is blind.
fn then_blind<O: Sink>(
    out: &mut O,
    so_far: Result<(), Failed>,
    graph: &Graph,
    op: u32,
    blind: bool,
) -> Result<(), Failed>
    requires { op < length graph.now.operations }
    ensures { Continues (O.seen out.old).written (O.seen out.new).written (O.seen out.old).faults (O.seen out.new).faults so_far result
        (line_if blind graph.now op) }
{
    if !blind {
        return so_far;
    }
    match so_far {
        Ok(()) => blind_line(out, op, graph.operation(op).kind),
        Err(Failed) => Err(Failed),
    }
}

/// Goes on with the lines of the operations that are blind for an output, after so many cycle borders.
fn then_blind_ones<O: Sink>(
    out: &mut O,
    mut so_far: Result<(), Failed>,
    graph: &Graph,
    weights: &Weights,
    output: u32,
    after: u32,
) -> Result<(), Failed>
    requires operations { weights.now.operations ≡ length graph.now.operations }
    requires output { output < length weights.now.outputs }
    requires after { after ≤ weights.now.horizon }
    ensures { Continues (O.seen out.old).written (O.seen out.new).written (O.seen out.old).faults (O.seen out.new).faults so_far result
        (lines_below (is_blind_of weights.now output after) graph.now (length graph.now.operations)) }
{
    'operations: for op in 0..graph.len() {
        let blind = is_blind(weights, op, output, after);
        so_far = then_blind(out, so_far, graph, op, blind);
    }
    so_far
}

/// Goes on with the line that says how many operations are reached and blind.
fn then_reached<O: Sink>(
    out: &mut O,
    so_far: Result<(), Failed>,
    name: &Text,
    after: u32,
    reached: u32,
    blind: u32,
) -> Result<(), Failed>
    ensures { Continues (O.seen out.old).written (O.seen out.new).written (O.seen out.old).faults (O.seen out.new).faults so_far result
        (reached_text name.now after reached blind) }
{
    match so_far {
        Ok(()) => reached_line(out, name, after, reached, blind),
        Err(Failed) => Err(Failed),
    }
}

/// Goes on with the lines on an output, after so many cycle borders.
fn then_distance<O: Sink>(
    out: &mut O,
    so_far: Result<(), Failed>,
    graph: &Graph,
    weights: &Weights,
    output: u32,
    after: u32,
) -> Result<(), Failed>
    requires operations { weights.now.operations ≡ length graph.now.operations }
    requires outputs { length weights.now.outputs ≡ length graph.now.outputs }
    requires output { output < length weights.now.outputs }
    requires after { after ≤ weights.now.horizon }
    ensures { Continues (O.seen out.old).written (O.seen out.new).written (O.seen out.old).faults (O.seen out.new).faults so_far result
        (distance_text graph.now weights.now output after) }
{
    let count = graph.len();
    let reached = count_reached(weights, count, output, after);
    let blind = count_blind(weights, count, output, after);
    let told = then_reached(
        out,
        so_far,
        output_name(graph, output),
        after,
        reached,
        blind,
    );
    then_blind_ones(out, told, graph, weights, output, after)
}

/// Goes on with the lines on an output, after each of so many numbers of cycle borders.
fn then_output<O: Sink>(
    out: &mut O,
    mut so_far: Result<(), Failed>,
    graph: &Graph,
    weights: &Weights,
    output: u32,
    distances: u32,
) -> Result<(), Failed>
    requires operations { weights.now.operations ≡ length graph.now.operations }
    requires outputs { length weights.now.outputs ≡ length graph.now.outputs }
    requires output { output < length weights.now.outputs }
    requires distances { distances ≤ weights.now.horizon + 1 }
    ensures { Continues (O.seen out.old).written (O.seen out.new).written (O.seen out.old).faults (O.seen out.new).faults so_far result
        (distances_below graph.now weights.now output distances) }
{
    'distances: for after in 0..distances {
        so_far = then_distance(out, so_far, graph, weights, output, after);
    }
    so_far
}

/// Writes the audit of a graph up to a horizon of at most 1000 cycle borders: for each output and each number
/// of borders from 0, how many operations are reached and how many of these are blind, and then each blind
/// one, in order. The weights are the graph's, up to this horizon. After `Failed` a part of the text is
/// written. That comes only where the sink's count rose. It takes no memory.
pub fn write_audit<O: Sink>(
    out: &mut O,
    graph: &Graph,
    weights: &Weights,
    horizon: u32,
) -> Result<(), Failed>
    requires horizon { horizon ≤ most_horizon }
    requires audit { IsAudit graph.now horizon weights.now }
    ensures { WritesTo (O.seen out.old) (O.seen out.new)
        (audit_text graph.now weights.now horizon) result }
{
    let mut so_far = Ok(());
    'outputs: for output in 0..graph.outputs() {
        so_far = then_output(out, so_far, graph, weights, output, horizon + 1);
    }
    so_far
}
