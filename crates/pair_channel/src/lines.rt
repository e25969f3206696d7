//! The lines of a cycle in which the channels of a pair disagree. Each call writes one line to a sink and takes no memory. It answers `Failed`
//! only where the sink's count of faults rose, and then a part of the line is written.

ghost use Rattle.vcp_outside.specs.Written.{WritesTo};
ghost use Rattle.vcp_outside.specs.Pens.{Goes};
ghost use Rattle.pair_channel.specs.PairDone.{IsNumbered};
ghost use Rattle.pair_channel.specs.PairLines.{channel_text, differ_text, parted_text};

use coded_machine::CycleEnd;
use op_graph::Graph;
use run_report::output_name;
use vcp_base::{Text, stop_name};
use vcp_outside::{Failed, Pen, Sink, begin};

// Goes on with how a channel ended a cycle.
fn then_channel<P: Pen>(pen: P, graph: &Graph, end: &CycleEnd) -> P
    requires { IsNumbered graph.now end.now }
    ensures { Goes (P.seen pen) (P.seen result) (channel_text graph.now end.now) }
{
    match *end {
        CycleEnd::Released => pen.text(b"released"),
        CycleEnd::Stopped { op, kind } => { pen.count(op as u64).texts(b" ", stop_name(kind)) }
        CycleEnd::Refused {
            output,
            found,
            expected,
        } => {
            pen.texts(b"refused ", output_name(graph, output).bytes())
                .numbered(b" found ", found)
                .numbered(b" expected ", expected)
        }
    }
}

/// Writes that the channels ended a cycle, which is counted from 0, in these ways. An output that is refused
/// is one of the graph's. After `Failed` a part of the line is written. That comes only where the sink's
/// count rose.
pub fn parted_line<O: Sink>(
    out: &mut O,
    cycle: u32,
    graph: &Graph,
    first: &CycleEnd,
    second: &CycleEnd,
) -> Result<(), Failed>
    requires first { IsNumbered graph.now first.now }
    requires second { IsNumbered graph.now second.now }
    ensures { WritesTo (O.seen out.old) (O.seen out.new) (parted_text graph.now cycle first.now second.now) result }
{
    let pen = begin(out, b"parted ", cycle).text(b" first ");
    let pen = then_channel(pen, graph, first).text(b" second ");
    then_channel(pen, graph, second).end()
}

/// Writes that the output of this name has these values in a cycle, which is counted from 0. After `Failed` a
/// part of the line is written. That comes only where the sink's count rose.
pub fn differ_line<O: Sink>(
    out: &mut O,
    cycle: u32,
    name: &Text,
    first: i64,
    second: i64,
) -> Result<(), Failed>
    ensures { WritesTo (O.seen out.old) (O.seen out.new) (differ_text name.now cycle first second) result }
{
    begin(out, b"differ ", cycle)
        .texts(b" ", name.bytes())
        .signed(b" first ", first)
        .signed(b" second ", second)
        .end()
}
