//! What records have said so far.

ghost use Rattle.std.specs.Prelude.{◌≡◌, ◌<◌, length, map, slice_get, IfOk, IfSome};
ghost use Rattle.csv.specs.Records.{fields_of};
ghost use Rattle.range_walk.specs.RangeTable.{after, at_first, cells_of, is_free_named as is_free_named_of, place_below, place_of as place_of_name};
ghost use Rattle.range_walk.specs.RangeTable.{range_of_type as range_of, with_cells};

use crate::Range;
use crate::assumed::cells::{range_between, word_of};
use csv::ByteRecord;
use input_rows::{RowFault, field};
use std::alloc::Global;
use std::marker::Model;
use vcp_base::{Columns, Memory, Ty, greatest, is_same_name, least};

/// A range for each input, and which of them no record has named.
pub(crate) struct SoFar {
    ranges: Vec<Range>,
    free: Vec<bool>,
}

impl Model for SoFar {
    ghost use Rattle.range_walk.specs.RangeTable.{RangesSoFar};

    ghost Value = { RangesSoFar };

    ghost view = { λ s. record { ranges = s.ranges.items; free = s.free.items } };
}

impl Drop for SoFar {
    fn drop(self) {
        let SoFar { ranges: _, free: _ } = self;
    }
}

/// All values of a type.
fn range_of_type(ty: Ty) -> Range
    ensures { result ≡ range_of ty }
{
    Range {
        low: least(ty),
        high: greatest(ty),
        nonzero: false,
    }
}

/// Whether the input at place `i` is one that no record has named, and has this name.
fn is_free_named(columns: &Columns, free: &[bool], i: usize, name: &[u8]) -> bool
    requires columns { i < length columns.now }
    requires free { i < length free.now }
    ensures { result ≡ is_free_named_of name.now (slice_get columns.now i) (slice_get free.now i) }
{
    let column = columns.at(i);
    free[i] && is_same_name(column.name.bytes(), name)
}

/// The place of such an input.
fn place_named(columns: &Columns, free: &[bool], name: &[u8]) -> Option<usize>
    requires { length free.now ≡ length columns.now }
    ensures place { result ≡ place_below columns.now free.now name.now (length columns.now) }
    ensures within { IfSome result (λ i. i < length columns.now) }
{
    let mut found = None;
    'columns: for i in 0..columns.len() {
        if is_free_named(columns, free, i, name) {
            found = Some(i);
        }
    }
    found
}

/// The place of the input that a cell names, if no record has named it.
fn place_of(columns: &Columns, free: &[bool], cell: &[u8]) -> Option<usize>
    requires { length free.now ≡ length columns.now }
    ensures place { result ≡ place_of_name columns.now free.now cell.now }
    ensures within { IfSome result (λ i. i < length columns.now) }
{
    match word_of(cell) {
        Some(name) => place_named(columns, free, name),
        None => None,
    }
}

/// All values of the type of each input.
fn typed_ranges(alloc: Global, columns: &Columns) -> Result<Vec<Range>, Memory>
    ensures { IfOk result (λ ranges. ranges.items ≡ map (λ c. range_of c.ty) columns.now) }
{
    let mut ranges = Vec::new(alloc);
    'columns: for i in 0..columns.len() {
        let column = columns.at(i);
        ranges.push(range_of_type(column.ty))?;
    }
    Ok(ranges)
}

impl SoFar {
    /// Before the first record: each input has all values of its type.
    pub(crate) fn new(alloc: Global, columns: &Columns) -> Result<SoFar, Memory>
        ensures first { IfOk result (λ s. s ≡ at_first columns.now) }
    {
        let ranges = typed_ranges(alloc, columns)?;
        let free = vec![in alloc; true; columns.len()]?;
        Ok(SoFar { ranges, free })
    }

    /// The ranges of the inputs.
    pub(crate) fn into_ranges(self) -> Vec<Range>
        ensures { result.items ≡ self.ranges }
    {
        let SoFar { ranges, free: _ } = self;
        ranges
    }

    /// Takes the record of this number.
    pub(crate) fn take_record(
        &mut self,
        columns: &Columns,
        number: u32,
        cells: &ByteRecord,
    ) -> Result<(), RowFault>
        requires ranges { length self.old.ranges ≡ length columns.now }
        requires free { length self.old.free ≡ length columns.now }
        ensures { after result self.new ≡ with_cells columns.now self.old number (cells_of (fields_of cells.now)) }
    {
        if cells.len() != 3 {
            return Err(RowFault::Width { row: number });
        }
        let Some(i) = place_of(columns, &self.free, field(cells, 0)) else {
            return Err(RowFault::Cell {
                row: number,
                column: 1,
            });
        };
        let ty = columns.at(i).ty;
        match range_between(number, ty, field(cells, 1), field(cells, 2)) {
            Ok(range) => {
                self.ranges[i] = range;
                self.free[i] = false;
                Ok(())
            }
            Err(why) => Err(why),
        }
    }
}
