//! The picture of a graph.

ghost use Rattle.std.specs.Prelude.{◌≤◌};
ghost use Rattle.vcp_outside.specs.Written.{WritesTo};
ghost use Rattle.vcp_base.specs.Limits.{most_horizon};
ghost use Rattle.weight_audit.specs.Audit.{IsAudit};
ghost use Rattle.pictures.specs.Elements.{graph_text, legend_of, picture_of};

use crate::boxes::then_boxes;
use crate::layout::GraphLayout;
use crate::legend::{Sample, then_legend};
use crate::looks::{AuditLooks, Looks};
use crate::wires::then_wires;
use op_graph::Graph;
use vcp_outside::{Failed, Sink, begin_picture, end_picture};
use weight_audit::Weights;

/// The rules of style of the picture by weights.
const AUDIT_STYLE: &[u8] =
    b"text{font:9px monospace}rect{stroke:#333;fill:#fff}line{stroke:#888}.unreached{fill:#ddd}.blind{fill:#f99}.cell{fill:#36c}";

/// Writes the picture of a graph whose boxes have these looks and places, with a legend of these rules of style and these samples. It takes no memory. After
/// `Failed` a part of the picture is written.
///
/// There is a line from each operand that is no constant to its reader, and a box for each operation that is
/// no constant, in order, with its number, kind, name, place in the source, and the class and the note of its
/// look, and with the value and the class of each constant that it reads, by which operand it is; the LOAD
/// and the STORE of a cell are marked.
pub fn write_looks<O: Sink, L: Looks>(
    out: &mut O,
    graph: &Graph,
    looks: &L,
    rules: &[u8],
    samples: &[Sample<'_>],
    layout: &GraphLayout,
) -> Result<(), Failed>
    requires tells { L.IsFor looks.now graph.now }
    ensures { WritesTo (O.seen out.old) (O.seen out.new)
        (picture_of graph.now (L.looks looks.now graph.now) (legend_of rules.now samples.now) layout.now) result }
{
    let pen = begin_picture(out, layout.width(), layout.height());
    let pen = then_legend(pen, rules, samples);
    let pen = then_wires(pen, graph, layout);
    let pen = then_boxes(pen, graph, looks, layout);
    end_picture(pen)
}

/// Writes the picture of a graph, whose weights up to the horizon, of at most 1000 cycle borders, these are,
/// where its boxes have these places. It takes no memory. After `Failed` a part of the picture is written. The looks
/// are the colours by weights, with a legend of these: of a blind operation the output and the number of
/// cycle borders are noted.
pub fn write_picture<O: Sink>(
    out: &mut O,
    graph: &Graph,
    weights: &Weights,
    horizon: u32,
    layout: &GraphLayout,
) -> Result<(), Failed>
    requires horizon { horizon ≤ most_horizon }
    requires audit { IsAudit graph.now horizon weights.now }
    ensures { WritesTo (O.seen out.old) (O.seen out.new)
        (graph_text graph.now weights.now horizon layout.now) result }
{
    let samples = [
        Sample {
            x: 12,
            class: b"plain",
            told: b"reaches an output",
            many: None,
        },
        Sample {
            x: 192,
            class: b"unreached",
            told: b"reaches none",
            many: None,
        },
        Sample {
            x: 332,
            class: b"blind",
            told: b"blind for the output that it names, so many cycles later",
            many: None,
        },
        Sample {
            x: 672,
            class: b"cell",
            told: b"a cell's LOAD (left) or STORE (right)",
            many: None,
        },
    ];
    let looks = AuditLooks {
        weights,
        distances: horizon + 1,
    };
    write_looks(out, graph, &looks, AUDIT_STYLE, &samples, layout)
}
