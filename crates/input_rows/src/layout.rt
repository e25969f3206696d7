//! Which place of a row each of a record's cells has.

ghost use Rattle.std.specs.Prelude.{◌≡◌, ◌<◌, ◌≤◌, ◌^◌, ◌+◌, length, map, Ok, Err, Some, None, IfOk, IfErr, ◌≢◌};
ghost use Rattle.csv.specs.Records.{fields_of};
ghost use Rattle.input_rows.specs.Header.{order_of};
ghost use Rattle.input_rows.specs.RowsOf.{row_of, row_onto, types_of, type_at, values_of};
ghost use Rattle.input_rows.specs.TableLeft.{SetsRow};

use crate::cells::value;
use crate::fault::RowFault;
use crate::header::order;
use crate::records::field;
use csv::ByteRecord;
use std::alloc::Global;
use std::marker::Model;
use vcp_base::{Columns, Row};

/// The columns, and for each field of a record the place of its column.
#[derive(Drop)]
pub struct Layout<'a> {
    columns: &'a Columns,
    places: Vec<u32>,
}

impl<'a> Model for Layout<'a> {
    ghost use Rattle.std.specs.Prelude.{◌<◌, ◌^◌, length};
    ghost use Rattle.input_rows.specs.Header.{IsOrder};
    ghost use Rattle.input_rows.specs.RowsOf.{types_of};
    ghost use Rattle.input_rows.specs.TableLeft.{Ordered};

    ghost Value = { Ordered };

    ghost view = { λ l. record { types = types_of l.columns.now; places = l.places.items } };

    ghost invariant = { λ l. IsOrder (length l.columns.now) l.places.items × (length l.columns.now < 2 ^ 32) };
}

impl<'a> Layout<'a> {
    /// The layout that a header gives; `Header` if it is no order of the columns' names.
    pub fn new(
        alloc: Global,
        columns: &'a Columns,
        header: &ByteRecord,
    ) -> Result<Layout<'a>, RowFault>
        requires { length columns.now < 2 ^ 32 }
        ensures order { IfOk result (λ l. order_of columns.now (fields_of header.now) ≡ Some l.places) }
        ensures types { IfOk result (λ l. l.types ≡ types_of columns.now) }
        ensures header { IfErr result (λ f. f ≢ RowFault.Memory → (f ≡ RowFault.Header) × (order_of columns.now (fields_of header.now) ≡ None)) }
    {
        match order(alloc, columns, header)? {
            Some(places) => Ok(Layout { columns, places }),
            None => Err(RowFault::Header),
        }
    }

    /// How many columns there are.
    pub fn width(&self) -> u32
        ensures { result ≡ length self.now.types }
    {
        self.columns.len() as u32
    }

    // Sets the values of a record with as many fields as there are columns.
    fn set_values(&self, number: u32, cells: &ByteRecord, row: &mut Row) -> Result<(), RowFault>
        requires as_many { length (fields_of cells.now) ≡ length self.now.places }
        requires width { length row.old ≡ length self.now.types }
        ensures row { SetsRow
            (row_onto row.old self.now.places number (values_of 1 (map (type_at self.now.types) self.now.places) (fields_of cells.now))) result row.new }
        ensures width { length row.new ≡ length row.old }
    {
        'cells: for j in 0..cells.len() {
            let place = self.places[j];
            let column = self.columns.at(place as usize);
            match value(column.ty, field(cells, j)) {
                Some(v) => row.set(place, v),
                None => {
                    return Err(RowFault::Cell {
                        row: number,
                        column: j as u32 + 1,
                    });
                }
            }
        }
        Ok(())
    }

    /// Sets a row to the values of the record of this number. After a refusal the row has any
    /// values.
    pub fn read(&self, number: u32, cells: &ByteRecord, row: &mut Row) -> Result<(), RowFault>
        requires { length row.old ≡ length self.now.types }
        ensures row { SetsRow (row_of self.now.types self.now.places number (fields_of cells.now)) result row.new }
        ensures width { length row.new ≡ length row.old }
    {
        if cells.len() != self.places.len() {
            return Err(RowFault::Width { row: number });
        }
        self.set_values(number, cells, row)
    }
}
