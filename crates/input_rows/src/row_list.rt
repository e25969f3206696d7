//! Lists of rows.

ghost use Rattle.std.specs.Prelude.{◌≡◌, ◌≢◌, ◌<◌, ◌≤◌, ◌^◌, ◌+◌, length, take, drop, slice_get, All, None, Some, IfOk, IfErr};
ghost use Rattle.vcp_base.specs.Limits.{most_cycles};

use crate::fault::RowFault;
use crate::row_reader::RowReader;
use crate::rows::Rows;
use std::alloc::Global;
use std::marker::Model;
use vcp_base::Row;

/// Rows of one width, one behind another, seen as a list of rows. Rows of no values are a number, and
/// take no memory.
#[derive(Drop)]
pub struct RowList {
    width: u32,
    count: u32,
    values: Vec<i64>,
}

impl Model for RowList {
    ghost use Rattle.std.specs.Prelude.{◌≡◌, ◌*◌, List, ℤ, length};
    ghost use Rattle.input_rows.specs.RowLists.{rows_in};

    ghost Value = { List (List ℤ) };

    ghost view = { λ l. rows_in l.count l.width l.values.items };

    ghost invariant = { λ l. length l.values.items ≡ l.count * l.width };
}

/// All rows that are left, or the refusal behind them; there are at most 1,000,000. `Memory` where there
/// is no room for them: a value takes 8 bytes, and while the room grows the values are there twice.
pub fn collect_rows(alloc: Global, mut rows: Rows<'_>) -> Result<RowList, RowFault>
    requires { length rows.rows ≤ most_cycles }
    ensures rows { IfOk result (λ list. list ≡ rows.entry.rows) }
    ensures whole { IfOk result (λ list. rows.entry.refusal ≡ None) }
    ensures width { IfOk result (λ list. All (λ row. length row ≡ length rows.entry.types) list) }
    ensures refusal { IfErr result (λ f. f ≢ RowFault.Memory → rows.entry.refusal ≡ Some f) }
{
    gather(alloc, &mut rows)
}

// The same of rows that are lent: a function that owned them would drop them at each of its ends.
fn gather(alloc: Global, rows: &mut Rows<'_>) -> Result<RowList, RowFault>
    requires { length rows.old.rows ≤ most_cycles }
    ensures rows { IfOk result (λ list. list ≡ rows.old.rows) }
    ensures whole { IfOk result (λ list. rows.old.refusal ≡ None) }
    ensures width { IfOk result (λ list. All (λ row. length row ≡ length rows.old.types) list) }
    ensures refusal { IfErr result (λ f. f ≢ RowFault.Memory → rows.old.refusal ≡ Some f) }
{
    let width = rows.width();
    let mut row = Row::zeros(alloc, width)?;
    let mut values = Vec::new(alloc);
    let mut count = 0u32;
    'rows: while rows.next(alloc, &mut row)? {
        match values.extend_from_slice(row.all()) {
            Ok(()) => {}
            Err(_) => return Err(RowFault::Memory),
        }
        count += 1;
    }
    Ok(RowList {
        width,
        count,
        values,
    })
}

impl RowList {
    /// How many rows there are, fewer than 2^32.
    pub fn len(&self) -> usize
        ensures length { result ≡ length self.now }
        ensures few { result < 2 ^ 32 }
    {
        self.count as usize
    }

    /// How many values a row has.
    pub fn width(&self) -> u32
        ensures { All (λ row. length row ≡ result) self.now }
    {
        self.width
    }

    /// Sets `out`, which has as many values as a row, to row `i`, counted from 0, where `i` is less than
    /// `len`.
    pub fn get(&self, i: u32, out: &mut Row)
        requires there { i < length self.now }
        requires width { All (λ row. length row ≡ length out.old) self.now }
        ensures { slice_get self.now i ≡ Some out.new }
    {
        let start = i as usize * self.width as usize;
        copy_row(&self.values, start, self.width, out);
    }
}

/// Sets a row of this width to the values from `start` on.
fn copy_row(values: &[i64], start: usize, width: u32, out: &mut Row)
    requires width { length out.old ≡ width }
    requires there { start + width ≤ length values.now }
    ensures { out.new ≡ take width (drop start values.now) }
{
    out.copy_from(&values[start..start + width as usize]);
}
