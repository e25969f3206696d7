//! The names, inputs, outputs, cells and turn nodes of an image.

ghost use Rattle.std.specs.Prelude.{◌≡◌, ◌≤◌, [], map, None};
ghost use Rattle.image_file.specs.Pieces.{listed};
ghost use Rattle.image_file.specs.Entries.{name_piece, input_piece, output_piece, cell_piece, turn_piece};
ghost use Rattle.vcp_base.specs.Limits.{most_turn_nodes};
ghost use Rattle.op_graph.specs.Rules.{Each, OutputFits, LoadFits, StoreFits};
ghost use Rattle.image_file.specs.Image.{load_of, store_of};
ghost use Rattle.image_file.specs.Readings.{Takes};

use crate::fields::{Keys, Reader, are_bytes, cell_of, input_of, name_of, output_of, turn_of};
use crate::head::Counts;
use op_graph::{Cell, Outlet, TurnNode, Var};
use std::alloc::Global;
use vcp_base::Text;

/// The names.
pub(crate) fn names_of(alloc: Global, counts: &Counts, bytes: &mut Reader<'_>) -> Vec<Text>
    ensures { Takes bytes.old bytes.new (listed counts.now.names name_piece).read result.items }
{
    let mut found: Vec<Text> = Vec::new(alloc);
    let mut seen = Keys::new(alloc);
    'entries: for _ in 0..counts.names {
        if bytes.fault.is_some() {
            return found;
        }
        let entry = name_of(alloc, &mut seen, bytes);
        bytes.push(&mut found, entry);
    }
    found
}

/// The inputs.
pub(crate) fn inputs_of(alloc: Global, counts: &Counts, bytes: &mut Reader<'_>) -> Vec<Var>
    ensures { Takes bytes.old bytes.new (listed counts.now.inputs (input_piece counts.now.profile counts.now.names)).read result.items }
{
    let mut found: Vec<Var> = Vec::new(alloc);
    'entries: for _ in 0..counts.inputs {
        if bytes.fault.is_some() {
            return found;
        }
        let entry = input_of(counts.profile, counts.names, &found, bytes);
        bytes.push(&mut found, entry);
    }
    found
}

/// The outputs.
pub(crate) fn outputs_of(alloc: Global, counts: &Counts, bytes: &mut Reader<'_>) -> Vec<Outlet>
    ensures is { Takes bytes.old bytes.new
        (listed counts.now.outputs (output_piece counts.now.profile counts.now.names counts.now.operations)).read result.items }
    ensures rising { bytes.new.fault ≡ None → Each (OutputFits counts.now.names counts.now.operations) [] result.items }
{
    are_bytes(bytes.left);
    let mut found: Vec<Outlet> = Vec::new(alloc);
    'entries: for _ in 0..counts.outputs {
        if bytes.fault.is_some() {
            return found;
        }
        let entry = output_of(
            counts.profile,
            counts.names,
            counts.operations,
            &found,
            bytes,
        );
        bytes.push(&mut found, entry);
    }
    found
}

/// The cells.
pub(crate) fn cells_of(alloc: Global, counts: &Counts, bytes: &mut Reader<'_>) -> Vec<Cell>
    ensures is { Takes bytes.old bytes.new
        (listed counts.now.cells (cell_piece counts.now.profile counts.now.names counts.now.operations)).read result.items }
    ensures loads { bytes.new.fault ≡ None → Each (LoadFits counts.now.names counts.now.operations) [] (map load_of result.items) }
    ensures stores { bytes.new.fault ≡ None →
        Each (StoreFits (map load_of result.items) counts.now.operations) [] (map store_of result.items) }
{
    are_bytes(bytes.left);
    let mut found: Vec<Cell> = Vec::new(alloc);
    'entries: for _ in 0..counts.cells {
        if bytes.fault.is_some() {
            return found;
        }
        let entry = cell_of(
            counts.profile,
            counts.names,
            counts.operations,
            &found,
            bytes,
        );
        bytes.push(&mut found, entry);
    }
    found
}

/// The turn nodes.
pub(crate) fn turns_of(alloc: Global, counts: &Counts, bytes: &mut Reader<'_>) -> Vec<TurnNode>
    requires { counts.now.turn_nodes ≤ most_turn_nodes }
    ensures { Takes bytes.old bytes.new (listed counts.now.turn_nodes (turn_piece counts.now.names)).read result.items }
{
    let mut found: Vec<TurnNode> = Vec::new(alloc);
    'entries: for _ in 0..counts.turn_nodes {
        if bytes.fault.is_some() {
            return found;
        }
        let entry = turn_of(counts.names, &found, bytes);
        bytes.push(&mut found, entry);
    }
    found
}
