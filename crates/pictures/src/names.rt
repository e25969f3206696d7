//! The names and values that operations have of their own.

ghost use Rattle.std.specs.Prelude.{◌≡◌, ◌<◌, true, length, slice_get, unsigned_abs};
ghost use Rattle.vcp_outside.specs.Characters.{piece_bytes};
ghost use Rattle.pictures.specs.Constants.{is_constant as is_constant_of, is_constant_there};
ghost use Rattle.pictures.specs.Drawn.{own_of};

use op_graph::Graph;
use run_report::variable_name;
use vcp_base::Kind;
use vcp_outside::Piece;

/// Whether operations of a kind are constants.
pub fn is_constant(kind: Kind) -> bool
    ensures { result ≡ is_constant_of kind }
{
    match kind {
        Kind::Const => true,
        _ => false,
    }
}

/// Whether operation `n` is there and is a constant.
pub(crate) fn is_constant_at(graph: &Graph, n: u32) -> bool
    ensures value { result ≡ is_constant_there (slice_get graph.now.operations n) }
    ensures there { result ≡ true → n < length graph.now.operations }
{
    n < graph.len() && is_constant(graph.operation(n).kind)
}

/// An operation's own name or value, and nothing where it has none.
pub fn own_piece<'a>(graph: &'a Graph, kind: Kind, imm: i64) -> Piece<'a>
    ensures { piece_bytes result ≡ own_of graph.now kind imm }
{
    match kind {
        Kind::Const => Piece::Value(imm),
        _ => Piece::Bytes(variable_name(graph, kind, imm.unsigned_abs())),
    }
}
