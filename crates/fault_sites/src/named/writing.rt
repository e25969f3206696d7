//! The script of a text.

ghost use Rattle.std.specs.Prelude.{◌≤◌, length};
ghost use Rattle.std.specs.Str.Lines.{lines};
ghost use Rattle.vcp_base.specs.Limits.{most_source_bytes};
ghost use Rattle.vcp_outside.specs.Written.{WritesTo};
ghost use Rattle.vcp_outside.specs.Pens.{Goes};
ghost use Rattle.vcp_base.specs.Lines.{read_lines};
ghost use Rattle.vcp_base.specs.Words.{words as words_of};
ghost use Rattle.fault_sites.specs.SiteText.{site_lines};
ghost use Rattle.fault_sites.specs.NamedLines.{meant_of};
ghost use Rattle.fault_sites.specs.NamedScript.{sites_over, sites_meant, meant_text, entry_texts, entries, entry_of};
ghost use Rattle.fault_sites.specs.NamedEntries.{text_of_script};

use crate::named::meant::{Meant, meaning};
use crate::named::reading::cycles;
use crate::named::when::Span;
use crate::{Site, then_site};
use fault_script::Act;
use op_graph::Graph;
use vcp_base::first_read;
use vcp_outside::{Failed, LinePen, Pen, Sink};

/// Goes on with an act at operation `k` in each of these cycles.
fn then_act<P: Pen>(mut pen: P, k: u32, span: Span, act: Act) -> P
    ensures { Goes (P.seen pen) (P.seen result) (site_lines (sites_over k span act)) }
{
    'cycles: for i in 0..cycles(span) {
        let site = Site {
            cycle: span.first + i as u32,
            op: k,
            act,
        };
        pen = then_site(pen, &site).text(b"\n");
    }
    pen
}

/// Goes on with the faults of a line.
fn then_faults<P: Pen>(pen: P, meant: &Meant) -> P
    ensures { Goes (P.seen pen) (P.seen result) (site_lines (sites_meant meant.now)) }
{
    let pen = then_act(pen, meant.op, meant.span, meant.acts.act);
    match meant.acts.other {
        Some(other) => then_act(pen, meant.op, meant.span, other),
        None => pen,
    }
}

/// Goes on with the groups of a line.
fn then_meant<P: Pen>(pen: P, meant: &Meant) -> P
    ensures { Goes (P.seen pen) (P.seen result) (meant_text meant.now) }
{
    if meant.together {
        let pen = pen.text(b"begin\n");
        then_faults(pen, meant).text(b"end\n")
    } else {
        then_faults(pen, meant)
    }
}

/// Goes on with a line that isn't skipped as a remark, and its groups, where it means something.
fn then_line<P: Pen>(pen: P, graph: &Graph, text: &[u8]) -> P
    ensures { Goes (P.seen pen) (P.seen result)
        (entry_texts (entry_of text.now (meant_of graph.now (words_of text.now)))) }
{
    if let Ok(meant) = meaning(graph, text) {
        let pen = pen.texts(b"# ", text).text(b"\n");
        then_meant(pen, &meant)
    } else {
        pen
    }
}

/// The same of all lines of a text.
fn then_lines<P: Pen>(mut pen: P, graph: &Graph, text: &[u8]) -> P
    requires { length text.now ≤ most_source_bytes }
    ensures { Goes (P.seen pen) (P.seen result) (entry_texts (entries graph.now (read_lines 1 (lines text.now)))) }
{
    let mut rest = text;
    let mut before = 0;
    'lines: while let Some((number, words, more)) = first_read(rest, before) {
        pen = then_line(pen, graph, words);
        before = number;
        rest = more;
    }
    pen
}

/// Writes the script of a text of at most 1,048,576 bytes over the graph of the image with this digest: a remark with the digits of the
/// digest, each line that means something as a remark and then its faults, and a remark at the end. It takes no memory. After `Failed` a
/// part of the text is written.
pub fn write_script<O: Sink>(
    out: &mut O,
    digest: &[u8],
    graph: &Graph,
    text: &[u8],
) -> Result<(), Failed>
    requires { length text.now ≤ most_source_bytes }
    ensures { WritesTo (O.seen out.old) (O.seen out.new) (text_of_script digest.now graph.now text.now) result }
{
    let pen = LinePen::new(out)
        .texts(b"# sites named of ", digest)
        .text(b"\n");
    then_lines(pen, graph, text).text(b"# end").end()
}
