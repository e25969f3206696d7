//! What is found of a graph's operations, written line by line.

ghost use Rattle.std.specs.Prelude.{◌≡◌, ◌<◌, length, slice_get};
ghost use Rattle.vcp_outside.specs.Written.{WritesTo};
ghost use Rattle.vcp_outside.specs.Pens.{Goes};
ghost use Rattle.range_audit.specs.RangeText.{lines_of, lines_below, search_text, ranges_text};

use crate::families::MOST_SEARCHED;
use crate::report::counts::{count_able, count_named};
use crate::report::lines::{then_known, then_named};
use crate::report::variables::then_variables;
use op_graph::Graph;
use range_walk::Ranges;
use vcp_base::StopKind;
use vcp_outside::{Failed, LinePen, Pen, Sink};

/// Goes on with the lines of operation `i`.
fn then_operation<P: Pen>(pen: P, graph: &Graph, ranges: &Ranges, i: u32, all: bool) -> P
    requires there { i < length graph.now.operations }
    requires stops { length ranges.now.stops ≡ length graph.now.operations }
    ensures { Goes (P.seen pen) (P.seen result)
        (lines_of all graph.now ranges.now.known i (slice_get graph.now.operations i) (slice_get ranges.now.stops i)) }
{
    let op = graph.operation(i);
    let stops = ranges.stops_at(i as usize);
    let known = ranges.known();
    let pen = then_known(pen, graph, known, i, &op, all);
    let pen = then_named(pen, graph, known, i, &op, StopKind::Range, stops.range);
    then_named(pen, graph, known, i, &op, StopKind::DivZero, stops.div_zero)
}

/// Goes on with the lines of the operations.
fn then_operations<P: Pen>(mut pen: P, graph: &Graph, ranges: &Ranges, all: bool) -> P
    requires { length ranges.now.stops ≡ length graph.now.operations }
    ensures { Goes (P.seen pen) (P.seen result) (lines_below all graph.now ranges.now (length graph.now.operations)) }
{
    'operations: for i in 0..graph.len() {
        pen = then_operation(pen, graph, ranges, i, all);
    }
    pen
}

/// Goes on with the line that it wasn't searched closer, where a graph has too many operations.
fn then_search<P: Pen>(pen: P, graph: &Graph) -> P
    ensures { Goes (P.seen pen) (P.seen result) (search_text (length graph.now.operations)) }
{
    if graph.len() > MOST_SEARCHED {
        pen.text(b"no search: more than 8192 operations\n")
    } else {
        pen
    }
}

/// Writes a line for each way in which an operation may stop, in order, and before these, where `all` are wanted, one with the range of
/// each operation, and first of all one of each output and of each variable that is kept; at last how many may stop, of how many that can
/// by their kinds and types, and before that a line where the graph has too many operations to be searched closer. It takes no memory. After
/// `Failed` a part of the text is written.
///
/// A line has the operation's place and turns, and of one that may stop its first two operands with their ranges. Of a range its ends
/// are written; that 0 isn't in it, as of a divisor that was tested, isn't.
pub fn write_ranges<O: Sink>(
    out: &mut O,
    graph: &Graph,
    ranges: &Ranges,
    all: bool,
) -> Result<(), Failed>
    requires { length ranges.now.stops ≡ length graph.now.operations }
    ensures { WritesTo (O.seen out.old) (O.seen out.new) (ranges_text all graph.now ranges.now) result }
{
    let known = ranges.known();
    let pen = LinePen::new(out);
    let pen = then_variables(pen, graph, known, all);
    let pen = then_operations(pen, graph, ranges, all);
    then_search(pen, graph)
        .numbered(b"may stop ", count_named(graph, ranges) as u64)
        .numbered(b" of ", count_able(graph) as u64)
        .end()
}
