//! The lines on a graph's operations: a listing, and a trace of a cycle. They are made from the graph
//! and its table, and take no memory.

ghost use Rattle.std.specs.Prelude.{◌<◌, ◌++◌, IfSome, length, slice_get, take, flat_map};
ghost use Rattle.std.specs.Fmt.{signed_decimal};
ghost use Rattle.vcp_base.specs.Limits.{most_cycles};
ghost use Rattle.vcp_outside.specs.Written.{WritesTo};
ghost use Rattle.vcp_outside.specs.Pens.{penned, HasWritten, Goes};
ghost use Rattle.run_report.specs.OperationLines.{number_cell, operands_text, own_text, operation_front, code_text};
ghost use Rattle.run_report.specs.OperationLines.{source_text, list_text, parts_text, trace_text};

use crate::graph_stop::then_turns_round;
use crate::lines::then_place;
use coded_unit::Word;
use op_graph::{Graph, Op};
use signature_table::Table;
use vcp_base::{Kind, Profile, kind_name, operands, ty_name};
use vcp_outside::{Failed, LinePen, Pen, Sink, begin};

// A line that begins with an operation's number and kind, and the types of its operands and its result.
fn begin_operation<'o, O: Sink>(out: &'o mut O, i: u32, op: &Op) -> LinePen<'o, O>
    ensures { HasWritten (O.seen out.old) out.entry.ghost_name (operation_front i op.now)
        (penned (O.seen result.out.now) result.line result.out.ghost_name) }
{
    begin(out, b"", i)
        .texts(b" ", kind_name(op.kind))
        .texts(b" ", ty_name(op.from))
        .texts(b" ", ty_name(op.ty))
}

// Goes on with numbers, each after a space.
fn then_numbers<P: Pen>(mut pen: P, numbers: &[u32]) -> P
    ensures { Goes (P.seen pen) (P.seen result) (flat_map number_cell numbers.now) }
{
    'numbers: for i in 0..numbers.len() {
        pen = pen.numbered(b" ", numbers[i] as u64);
    }
    pen
}

// Goes on with the operations that the operands read. A LOAD reads its cell, and none.
fn then_operands<P: Pen>(pen: P, op: &Op) -> P
    ensures { Goes (P.seen pen) (P.seen result) (operands_text op.now) }
{
    let read = [op.a, op.b, op.c];
    let count = match op.kind {
        Kind::Load => 0,
        _ => operands(op.kind),
    };
    then_numbers(pen, &read[..count as usize])
}

// Goes on with a word and a number.
fn then_own<P: Pen>(pen: P, word: &[u8], number: i64) -> P
    ensures { Goes (P.seen pen) (P.seen result) (word.now ++ signed_decimal number) }
{
    pen.text(word).value(number)
}

// Goes on with the operation's own number, where its kind has one.
fn then_own_number<P: Pen>(pen: P, kind: Kind, imm: i64) -> P
    ensures { Goes (P.seen pen) (P.seen result) (own_text kind imm) }
{
    match kind {
        Kind::Input => then_own(pen, b" in ", imm),
        Kind::Const => then_own(pen, b" val ", imm),
        Kind::Load | Kind::Store => then_own(pen, b" cell ", imm),
        Kind::Out => then_own(pen, b" out ", imm),
        _ => pen,
    }
}

// Goes on with the signature and the correction of operation `i`.
fn then_code<P: Pen>(pen: P, table: &Table, i: u32) -> P
    requires { i < length table.now.corrections }
    ensures { Goes (P.seen pen) (P.seen result) (code_text table.now i) }
{
    pen.numbered(b" sig ", table.signature(i))
        .numbered(b" cor ", table.correction(i))
}

/// Goes on with the place of operation `i` in the source, and the turns round it, outermost first.
pub fn then_source<P: Pen>(pen: P, graph: &Graph, i: u32) -> P
    requires { i < length graph.now.operations }
    ensures { IfSome (slice_get graph.now.operations i)
        (λ op. Goes (P.seen pen) (P.seen result) (source_text graph.now op)) }
{
    let pen = pen.text(b" at ");
    let pen = then_place(pen, graph.operation(i).spot);
    then_turns_round(pen, graph, i)
}

/// Writes operation `i` of a graph and its table: its kind and types, the operations that it reads,
/// its own number, its signature and correction, its place in the source, and the turns round it,
/// outermost first. After `Failed` a part of the line is written.
pub fn list_line<O: Sink>(out: &mut O, graph: &Graph, table: &Table, i: u32) -> Result<(), Failed>
    requires operation { i < length graph.now.operations }
    requires correction { i < length table.now.corrections }
    ensures { IfSome (slice_get graph.now.operations i)
        (λ op. WritesTo (O.seen out.old) (O.seen out.new) (list_text graph.now table.now i op) result) }
{
    let op = graph.operation(i);
    let pen = begin_operation(out, i, &op);
    let pen = then_operands(pen, &op);
    let pen = then_own_number(pen, op.kind, op.imm);
    let pen = then_code(pen, table, i);
    then_source(pen, graph, i).end()
}

// Goes on with the value and the residue of a word in a code.
fn then_parts<P: Pen>(pen: P, profile: Profile, word: Word) -> P
    ensures { Goes (P.seen pen) (P.seen result) (parts_text profile word) }
{
    let (value, residue) = word.split(profile);
    pen.long_value(value).numbered(b" ", residue)
}

/// Writes the word that operation `i` of a graph and its table gave in a cycle, which is counted from
/// 0: the word, its value and its residue in the graph's code, and the residue that is expected of it
/// in this cycle. After `Failed` a part of the line is written.
pub fn trace_line<O: Sink>(
    out: &mut O,
    graph: &Graph,
    table: &Table,
    i: u32,
    cycle: u32,
    word: Word,
) -> Result<(), Failed>
    requires operation { i < length graph.now.operations }
    requires expected { i < length table.now.corrections }
    requires cycle { cycle < most_cycles }
    ensures { IfSome (slice_get graph.now.operations i)
        (λ op. WritesTo (O.seen out.old) (O.seen out.new)
        (trace_text graph.now.profile table.now i cycle op.kind word) result) }
{
    let pen = begin(out, b"", i)
        .texts(b" ", kind_name(graph.operation(i).kind))
        .text(b" ")
        .long_value(word.get())
        .text(b" ");
    then_parts(pen, graph.profile(), word)
        .numbered(b" ", table.expected(i, cycle))
        .end()
}
