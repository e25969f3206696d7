//! The rows of operations: each of a column has its own.

ghost use Rattle.std.specs.Prelude.{◌≡◌, ◌<◌, ◌≤◌, ◌^◌, ◌+◌, ℕ, length, slice_get, slice_index_or, slice_set, false, Some, IfOk, IfSome};
ghost use Rattle.pictures.specs.declared.layout.BoxPlace.{BoxPlace as PlaceOf};
ghost use Rattle.op_graph.specs.declared.op.Op.{Op as OpOf};
ghost use Rattle.pictures.specs.Arrangement.{HaveOwnRows, IsWithin};
ghost use Rattle.pictures.specs.Constants.{is_constant as is_constant_of};
ghost use Rattle.pictures.specs.Depths.{depths_of, AreBelowTheirNumber, StandByDepth};

use crate::columns::{column_of, deepest, depth_at, greater};
use crate::layout::BoxPlace;
use crate::names::is_constant;
use op_graph::{Graph, reads_operation};
use std::alloc::Global;
use std::marker::Model;
use vcp_base::Memory;

/// The place of operation `n` among these.
fn place_of(places: &[BoxPlace], n: u32) -> BoxPlace
    requires { n < length places.now }
    ensures { slice_get places.now n ≡ Some result }
{
    places[n as usize]
}

/// The greatest column and the greatest row of these and of the place of another operation, unless that is a constant.
fn with_place(corner: BoxPlace, place: BoxPlace, constant: bool) -> BoxPlace
    ensures earlier { (p : PlaceOf) → IsWithin corner p → IsWithin result p }
    ensures last { constant ≡ false → IsWithin result place }
{
    if constant {
        corner
    } else {
        BoxPlace {
            column: greater(corner.column, place.column),
            row: greater(corner.row, place.row),
        }
    }
}

/// The greatest column and the greatest row of the places of a graph's operations that are no constants, and 0 where there are none.
pub(crate) fn corner(graph: &Graph, places: &[BoxPlace]) -> BoxPlace
    requires { length places.now ≡ length graph.now.operations }
    ensures { (i : ℕ) (op : OpOf) (p : PlaceOf) → slice_get graph.now.operations i ≡ Some op → is_constant_of op.kind ≡ false
        → slice_get places.now i ≡ Some p → IsWithin result p }
{
    let mut corner = BoxPlace { column: 0, row: 0 };
    'places: for i in 0..graph.len() {
        let constant = is_constant(graph.operation(i).kind);
        let place = place_of(places, i);
        corner = with_place(corner, place, constant);
    }
    corner
}

/// The row of operation `n`, whose place is among these, where it is drawn and `reads` says that it is read.
fn row_of(graph: &Graph, places: &[BoxPlace], n: u32, reads: bool, most: u32) -> Option<u32>
    requires rows { (k : ℕ) (p : PlaceOf) → slice_get places.now k ≡ Some p → p.row ≤ most }
    ensures { IfSome result (λ row. row ≤ most) }
{
    if !reads || n >= graph.len() || is_constant(graph.operation(n).kind) {
        return None;
    }
    if n as usize >= places.len() {
        return None;
    }
    Some(place_of(places, n).row)
}

/// The row that is best for operation `i`: that of its first operand that is no constant, whose place is among
/// these, and the first one where it has none.
fn wanted_row(graph: &Graph, places: &[BoxPlace], i: u32) -> u32
    requires there { i < length graph.now.operations }
    requires rows { (k : ℕ) (p : PlaceOf) → slice_get places.now k ≡ Some p → p.row ≤ i }
    ensures { result ≤ i }
{
    let op = graph.operation(i);
    if let Some(row) = row_of(graph, places, op.a, reads_operation(op.kind, 0), i) {
        return row;
    }
    if let Some(row) = row_of(graph, places, op.b, reads_operation(op.kind, 1), i) {
        return row;
    }
    match row_of(graph, places, op.c, reads_operation(op.kind, 2), i) {
        Some(row) => row,
        None => 0,
    }
}

/// The row below the boxes of each column, seen as a list.
#[derive(Drop)]
struct FreeRows {
    rows: Vec<u32>,
}

impl Model for FreeRows {
    ghost use Rattle.std.specs.Prelude.{List, ℕ};

    ghost Value = { List ℕ };

    ghost view = { λ f. f.rows.items };
}

impl FreeRows {
    /// Takes a place in a column, behind `count` boxes in all: in the wanted row, or below the boxes
    /// of the column.
    fn take(&mut self, column: u32, wanted: u32, count: u32) -> BoxPlace
        requires column { column < length self.old }
        requires few { count < 2 ^ 17 }
        requires rows { slice_index_or self.old column 0 ≤ count }
        requires wanted { wanted ≤ count }
        ensures column { result.column ≡ column }
        ensures below { slice_index_or self.old column 0 ≤ result.row }
        ensures few { result.row ≤ count }
        ensures filled { self.new ≡ slice_set self.old column (result.row + 1) }
    {
        let row = greater(self.rows[column as usize], wanted);
        self.rows[column as usize] = row + 1;
        BoxPlace { column, row }
    }
}

/// The places of a graph's operations, which have these depths.
pub(crate) fn places_by(
    alloc: Global,
    graph: &Graph,
    depths: &[u32],
) -> Result<Vec<BoxPlace>, Memory>
    requires value { depths.now ≡ depths_of graph.now.operations }
    requires many { length depths.now ≡ length graph.now.operations }
    requires low { AreBelowTheirNumber depths.now }
    ensures many { IfOk result (λ places. length places.items ≡ length graph.now.operations) }
    ensures apart { IfOk result (λ places. HaveOwnRows places.items) }
    ensures columns { IfOk result (λ places. StandByDepth graph.now.operations places.items) }
{
    let count = graph.len();
    let last = deepest(depths);
    let rows = vec![in alloc; 0u32; count as usize + 1]?;
    let mut free = FreeRows { rows };
    let mut places = Vec::new(alloc);
    'operations: for i in 0..count {
        let wanted = wanted_row(graph, places.as_slice(), i);
        let column = column_of(graph.operation(i).kind, depth_at(depths, i), last, count);
        let place = free.take(column, wanted, i);
        places.push(place)?;
    }
    Ok(places)
}
