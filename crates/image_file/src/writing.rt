//! A graph and its table, written as bytes.

ghost use Rattle.std.specs.Prelude.{◌≡◌, ◌≤◌, ◌<◌, [], ℕ, List, length, IfOk};
ghost use Rattle.op_graph.specs.Lists.{cells};
ghost use Rattle.op_graph.specs.Rules.{IsGraph};
ghost use Rattle.signature_table.specs.Signatures.{IsTableOf};
ghost use Rattle.vcp_base.specs.Code.{modulus};
ghost use Rattle.vcp_base.specs.Limits.{most_name_bytes};
ghost use Rattle.image_file.specs.Pieces.{entries};
ghost use Rattle.image_file.specs.Codes.{version_code};
ghost use Rattle.image_file.specs.Views.{head as head_view};
ghost use Rattle.image_file.specs.Written.{Writes, AddsInput, AddsOutput, AddsCell, AddsTurn, AddsOp, AddsInputs, AddsOutputs, AddsCells, AddsTurns};
ghost use Rattle.image_file.specs.Written.{AddsOperations};
ghost use Rattle.image_file.specs.Entries.{name_piece};
ghost use Rattle.image_file.specs.Image.{image_of, counts_piece, head_piece, head_of, parts_of};

use crate::fields::Writer;
use crate::head::Counts;
use op_graph::{Cell, Graph, Op, Outlet, TurnNode, Var};
use signature_table::Table;
use std::alloc::Global;
use vcp_base::{Memory, Profile, Residue, Text};

/// The version of a code's images.
fn version(profile: Profile) -> u16
    ensures { result ≡ version_code profile }
{
    match profile {
        Profile::Narrow => 1,
        Profile::Wide => 2,
    }
}

/// Appends an input.
fn put_input(out: Writer, v: Var) -> Writer
    ensures { AddsInput out result v }
{
    out.put_u32(v.name).put_ty(v.ty)
}

/// Appends an output.
fn put_output(out: Writer, v: Outlet) -> Writer
    ensures { AddsOutput out result v }
{
    out.put_u32(v.name).put_ty(v.ty).put_u32(v.op)
}

/// Appends a cell.
fn put_cell(out: Writer, v: Cell) -> Writer
    ensures { AddsCell out result v }
{
    out.put_u32(v.name)
        .put_ty(v.ty)
        .put_i64(v.init)
        .put_u32(v.load)
        .put_u32(v.store)
}

/// Appends a turn node.
fn put_turn(out: Writer, v: TurnNode) -> Writer
    ensures { AddsTurn out result v }
{
    out.put_u32(v.parent).put_u32(v.name).put_i64(v.value)
}

/// Appends an operation with its correction.
fn put_op(out: Writer, profile: Profile, v: Op, correction: Residue) -> Writer
    requires { correction < modulus profile }
    ensures { AddsOp out result profile v correction }
{
    out.put_kind(v.kind)
        .put_ty(v.from)
        .put_ty(v.ty)
        .put_u32(v.a)
        .put_u32(v.b)
        .put_u32(v.c)
        .put_i64(v.imm)
        .put_u32(v.spot.line)
        .put_u32(v.spot.col)
        .put_u32(v.turn)
        .put_residue(profile, correction)
}

/// Appends the inputs.
fn put_inputs(mut out: Writer, graph: &Graph) -> Writer
    ensures { AddsInputs out result graph.now.inputs }
{
    'entries: for i in 0..graph.inputs() {
        out = put_input(out, graph.input(i));
    }
    out
}

/// Appends the outputs.
fn put_outputs(mut out: Writer, graph: &Graph) -> Writer
    ensures { AddsOutputs out result graph.now.outputs }
{
    'entries: for i in 0..graph.outputs() {
        out = put_output(out, graph.output(i));
    }
    out
}

/// Appends the cells.
fn put_cells(mut out: Writer, graph: &Graph) -> Writer
    ensures { AddsCells out result (cells graph.now) }
{
    'entries: for i in 0..graph.cells() {
        out = put_cell(out, graph.cell(i));
    }
    out
}

/// Appends the turn nodes.
fn put_turns(mut out: Writer, graph: &Graph) -> Writer
    ensures { AddsTurns out result graph.now.turn_nodes }
{
    'entries: for i in 0..graph.turn_nodes() {
        out = put_turn(out, graph.turn_node(i + 1));
    }
    out
}

/// Appends the version and the numbers in front.
fn put_counts(out: Writer, v: Counts) -> Writer
    ensures { Writes out result (counts_piece.spell (head_view v)) }
{
    out.put_u16(version(v.profile))
        .put_u16(v.step)
        .put_u32(v.seed)
        .put_u32(v.names)
        .put_u32(v.inputs)
        .put_u32(v.outputs)
        .put_u32(v.cells)
        .put_u32(v.turn_nodes)
        .put_u32(v.operations)
}

/// Appends the head.
fn put_head(out: Writer, v: Counts) -> Writer
    ensures { Writes out result (head_piece.spell (head_view v)) }
{
    put_counts(out.put(b"VCPANBD\n"), v)
}

/// Appends a name with its length.
fn put_name(out: Writer, name: &Text) -> Writer
    requires { length name.now ≤ most_name_bytes }
    ensures { (earlier : List (List ℕ)) → Writes out result ((name_piece earlier).spell name.now) }
{
    out.put_u32(name.len() as u32).put(name.bytes())
}

/// Appends the names.
fn put_names(mut out: Writer, graph: &Graph) -> Writer
    requires { IsGraph graph.now }
    ensures { Writes out result (entries (λ b. (name_piece b).spell) [] graph.now.names) }
{
    'entries: for i in 0..graph.names() {
        out = put_name(out, graph.name(i));
    }
    out
}

/// Appends the operations.
fn put_operations(mut out: Writer, graph: &Graph, table: &Table) -> Writer
    requires { IsTableOf table.now graph.now }
    ensures { AddsOperations out result graph.now table.now.seed table.now.step }
{
    'entries: for i in 0..graph.len() {
        out = put_op(
            out,
            table.profile(),
            graph.operation(i),
            table.correction(i),
        );
    }
    out
}

/// The numbers in front.
fn counts_of(graph: &Graph, table: &Table) -> Counts
    ensures counts { head_view result ≡ head_of (parts_of graph.now table.now.seed table.now.step) }
    ensures rules { IsGraph graph.now }
{
    Counts {
        profile: graph.profile(),
        step: table.step(),
        seed: table.seed(),
        names: graph.names(),
        inputs: graph.inputs(),
        outputs: graph.outputs(),
        cells: graph.cells(),
        turn_nodes: graph.turn_nodes(),
        operations: graph.len(),
    }
}

/// The image of a graph with the seed and the step of its table, in version 1 for the narrow code and 2 for
/// the wide one. Want of memory is the only refusal.
pub fn write_image(alloc: Global, graph: &Graph, table: &Table) -> Result<Text, Memory>
    requires { IsTableOf table.now graph.now }
    ensures { IfOk result (λ t. t ≡ image_of graph.now table.now.seed table.now.step) }
{
    let out = Writer::new(alloc);
    let out = put_head(out, counts_of(graph, table));
    let out = put_names(out, graph);
    let out = put_inputs(out, graph);
    let out = put_outputs(out, graph);
    let out = put_cells(out, graph);
    let out = put_turns(out, graph);
    let out = put_operations(out, graph, table);
    let Writer { bytes, has_failed } = out;
    if has_failed {
        Err(Memory)
    } else {
        Ok(Text::from_vec(bytes.list))
    }
}
