//! The line of a stop in a graph's run. It is made from the graph, and takes no memory.

ghost use Rattle.std.specs.Prelude.{◌<◌, IfSome, map, flat_map, length, slice_get};
ghost use Rattle.vcp_base.specs.Stops.{told_stop, told_turn};
ghost use Rattle.vcp_outside.specs.Written.{WritesTo};
ghost use Rattle.op_graph.specs.Lists.{turns_of};
ghost use Rattle.vcp_outside.specs.Pens.{Goes};
ghost use Rattle.run_report.specs.Lines.{stop_text, turn_text};

use crate::lines::{begin_stop, then_turn};
use op_graph::Graph;
use vcp_base::StopKind;
use vcp_outside::{Failed, Pen, Sink};

/// Goes on with the turns round operation `op`, outermost first: the name of each control variable, and its
/// value.
pub fn then_turns_round<P: Pen>(mut pen: P, graph: &Graph, op: u32) -> P
    requires { op < length graph.now.operations }
    ensures { IfSome (slice_get graph.now.operations op)
        (λ o. Goes (P.seen pen) (P.seen result)
        (flat_map turn_text (map (told_turn graph.now.names) (turns_of graph.now o.turn)))) }
{
    let mut turns = graph.turns(op);
    'turns: while let Some(turn) = turns.next() {
        pen = then_turn(pen, graph.name(turn.name), turn.value);
    }
    pen
}

/// Writes that operation `op` of a graph stopped in a cycle, which is counted from 0: why, its place
/// in the source, and the turns round it, outermost first. It takes no memory, however many turns
/// there are. After `Failed` a part of the line is written.
pub fn graph_stop_line<O: Sink>(
    out: &mut O,
    cycle: u32,
    kind: StopKind,
    graph: &Graph,
    op: u32,
) -> Result<(), Failed>
    requires { op < length graph.now.operations }
    ensures { IfSome (slice_get graph.now.operations op)
        (λ o. WritesTo (O.seen out.old) (O.seen out.new)
        (stop_text cycle (told_stop graph.now.names kind o.spot (turns_of graph.now o.turn))) result) }
{
    let pen = begin_stop(out, cycle, kind, graph.operation(op).spot);
    then_turns_round(pen, graph, op).end()
}
