//! The lines of an operation.

ghost use Rattle.std.specs.Prelude.{◌≡◌, [], ◌++◌, Some, codes, cond, slice_get};
ghost use Rattle.run_report.specs.Variables.{variable_of as name_of_variable};
ghost use Rattle.vcp_outside.specs.Pens.{Goes};
ghost use Rattle.range_audit.specs.RangeText.{range_text, there_text, spaced, short_text, operation_name, operand_text};
ghost use Rattle.range_audit.specs.RangeText.{operands_text, named_text, known_text};

use op_graph::{Graph, Op};
use range_walk::Range;
use run_report::{then_source, variable_name};
use vcp_base::{Kind, StopKind, kind_name, operands, stop_name};
use vcp_outside::Pen;

/// Goes on with a range behind a space.
fn then_range<P: Pen>(pen: P, range: Range) -> P
    ensures { Goes (P.seen pen) (P.seen result) (codes " " ++ range_text range) }
{
    if range.is_empty() {
        pen.text(b" none")
    } else {
        pen.signed(b" ", range.low).signed(b"..", range.high)
    }
}

/// Goes on with the range of operation `n` behind a space, where it is there.
pub(crate) fn then_there<P: Pen>(pen: P, known: &[Range], n: u32) -> P
    ensures { Goes (P.seen pen) (P.seen result) (there_text (slice_get known.now n)) }
{
    let place = n as usize;
    if place < known.len() {
        then_range(pen, known[place])
    } else {
        pen
    }
}

/// Goes on with a name behind a space, where there is one.
fn then_spaced<P: Pen>(pen: P, name: &[u8]) -> P
    ensures { Goes (P.seen pen) (P.seen result) (spaced name.now) }
{
    if name.len() != 0 {
        pen.texts(b" ", name)
    } else {
        pen
    }
}

/// The name of the variable that an operation reads or writes; nothing where it does neither.
fn variable_of<'a>(graph: &'a Graph, op: &Op) -> &'a [u8]
    ensures { result.now ≡ name_of_variable graph.now op.now }
{
    variable_name(graph, op.kind, op.imm.unsigned_abs())
}

/// Goes on with a word and the number, the kind and the variable of an operation.
fn then_short<P: Pen>(pen: P, word: &[u8], graph: &Graph, i: u32, op: &Op) -> P
    ensures { Goes (P.seen pen) (P.seen result) (word.now ++ short_text graph.now i op.now) }
{
    let pen = pen.numbered(word, i as u64).texts(b" ", kind_name(op.kind));
    then_spaced(pen, variable_of(graph, op))
}

/// Goes on with operation `i`, which is `op`: its number, kind, variable and place.
fn then_operation_name<P: Pen>(pen: P, graph: &Graph, i: u32, op: &Op) -> P
    requires { slice_get graph.now.operations i ≡ Some op.now }
    ensures { Goes (P.seen pen) (P.seen result) (operation_name graph.now i op.now) }
{
    let pen = then_short(pen, b"operation ", graph, i, op);
    then_source(pen, graph, i)
}

/// Goes on with a word, operation `n` in short, and its range, where that operation is there and the kind has an operand `j`, which it is.
fn then_operand<P: Pen>(
    pen: P,
    graph: &Graph,
    known: &[Range],
    kind: Kind,
    j: u32,
    n: u32,
    word: &[u8],
) -> P
    ensures { Goes (P.seen pen) (P.seen result) (operand_text graph.now known.now kind j n word.now) }
{
    if j >= operands(kind) {
        return pen;
    }
    if n < graph.len() {
        let op = graph.operation(n);
        let pen = then_short(pen, word, graph, n, &op);
        then_there(pen, known, n)
    } else {
        pen
    }
}

/// Goes on with what an operation reads as its first two operands.
fn then_operands<P: Pen>(pen: P, graph: &Graph, known: &[Range], op: &Op) -> P
    ensures { Goes (P.seen pen) (P.seen result) (operands_text graph.now known.now op.now) }
{
    let pen = then_operand(pen, graph, known, op.kind, 0, op.a, b" of ");
    then_operand(pen, graph, known, op.kind, 1, op.b, b" and ")
}

/// Goes on with the line that operation `i`, which is `op`, may stop so, where it may.
pub(crate) fn then_named<P: Pen>(
    pen: P,
    graph: &Graph,
    known: &[Range],
    i: u32,
    op: &Op,
    why: StopKind,
    may: bool,
) -> P
    requires { slice_get graph.now.operations i ≡ Some op.now }
    ensures { Goes (P.seen pen) (P.seen result) (cond may (named_text graph.now known.now i op.now why) []) }
{
    if !may {
        return pen;
    }
    let pen = then_operation_name(pen, graph, i, op).texts(b" ", stop_name(why));
    then_operands(pen, graph, known, op).text(b"\n")
}

/// Goes on with the line of the range of operation `i`, which is `op`, where all are wanted.
pub(crate) fn then_known<P: Pen>(
    pen: P,
    graph: &Graph,
    known: &[Range],
    i: u32,
    op: &Op,
    all: bool,
) -> P
    requires { slice_get graph.now.operations i ≡ Some op.now }
    ensures { Goes (P.seen pen) (P.seen result) (cond all (known_text graph.now known.now i op.now) []) }
{
    if !all {
        return pen;
    }
    let pen = then_operation_name(pen, graph, i, op);
    then_there(pen, known, i).text(b"\n")
}
