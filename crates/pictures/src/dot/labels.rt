//! What nodes say.

ghost use Rattle.vcp_outside.specs.Pens.{Goes};
ghost use Rattle.pictures.specs.DotText.{written, named, source, blindness, label, constant_label};

use crate::{Colour, own_piece};
use op_graph::{Graph, Op};
use run_report::variable_name;
use vcp_base::{Kind, Spot, kind_name};
use vcp_outside::{Escaping, Pen, Piece};

/// Goes on with the name of an operation, in a line of its own, where it has one.
fn then_named<P: Pen>(pen: P, graph: &Graph, op: &Op) -> P
    ensures { Goes (P.seen pen) (P.seen result) (written (named graph.now op.now)) }
{
    match op.kind {
        Kind::Input | Kind::Load | Kind::Store | Kind::Out => pen.pieces(
            Escaping::Quoted,
            &[Piece::Bytes(b"\n"), own_piece(graph, op.kind, op.imm)],
        ),
        _ => pen,
    }
}

/// Goes on with a place in the source, behind this.
fn then_source<P: Pen>(pen: P, before: &[u8], spot: Spot) -> P
    ensures { Goes (P.seen pen) (P.seen result) (written (source before.now spot)) }
{
    pen.pieces(
        Escaping::Quoted,
        &[
            Piece::Bytes(before),
            Piece::Bytes(b"at "),
            Piece::Count(spot.line as u64),
            Piece::Bytes(b":"),
            Piece::Count(spot.col as u64),
        ],
    )
}

/// Goes on with the output for which an operation is blind and after how many borders, in a line of its own, where it is.
fn then_blindness<P: Pen>(pen: P, graph: &Graph, colour: Colour) -> P
    ensures { Goes (P.seen pen) (P.seen result) (written (blindness graph.now colour)) }
{
    match colour {
        Colour::Unreached | Colour::Plain => pen,
        Colour::Blind { output, after } => pen.pieces(
            Escaping::Quoted,
            &[
                Piece::Bytes(b"\nblind: "),
                Piece::Bytes(variable_name(graph, Kind::Out, output as u64)),
                Piece::Bytes(b" "),
                Piece::Count(after as u64),
            ],
        ),
    }
}

/// Goes on with what the node of operation `n` says: its number and its kind, its name, its place and what it is blind for.
pub(crate) fn then_label<P: Pen>(pen: P, graph: &Graph, n: u32, colour: Colour, op: &Op) -> P
    ensures { Goes (P.seen pen) (P.seen result) (written (label graph.now n colour op.now)) }
{
    let pen = pen.pieces(
        Escaping::Quoted,
        &[
            Piece::Count(n as u64),
            Piece::Bytes(b" "),
            Piece::Bytes(kind_name(op.kind)),
        ],
    );
    let pen = then_named(pen, graph, op);
    let pen = then_source(pen, b"\n", op.spot);
    then_blindness(pen, graph, colour)
}

/// Goes on with what the node of a constant says, which is operation `n`: its value, its number below that, its place and what it is blind for.
pub(crate) fn then_constant_label<P: Pen>(
    pen: P,
    graph: &Graph,
    n: u32,
    colour: Colour,
    op: &Op,
) -> P
    ensures { Goes (P.seen pen) (P.seen result) (written (constant_label graph.now n colour op.now)) }
{
    let pen = pen.pieces(
        Escaping::Quoted,
        &[
            own_piece(graph, op.kind, op.imm),
            Piece::Bytes(b"\n"),
            Piece::Count(n as u64),
        ],
    );
    let pen = then_source(pen, b" ", op.spot);
    then_blindness(pen, graph, colour)
}
