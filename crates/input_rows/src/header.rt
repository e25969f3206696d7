//! The header of a file and the order of columns that it gives.

ghost use Rattle.std.specs.Prelude.{◌≡◌, ◌<◌, ◌^◌, length, IfOk, IfSome, option_map};
ghost use Rattle.csv.specs.Records.{fields_of};
ghost use Rattle.input_rows.specs.Header.{order_of, place_of};

use crate::cells::trim;
use crate::records::field;
use csv::ByteRecord;
use std::alloc::Global;
use vcp_base::{Columns, Memory, is_same_name};

// The place of the first column that is still free and has the name.
fn free_place(columns: &Columns, free: &[bool], name: &[u8]) -> Option<usize>
    requires { length free.now ≡ length columns.now }
    ensures place { result ≡ place_of columns.now free.now name.now }
    ensures within { IfSome result (λ i. i < length columns.now) }
{
    'columns: for i in 0..free.len() {
        let column = columns.at(i);
        if free[i] && is_same_name(column.name.bytes(), name) {
            return Some(i);
        }
    }
    None
}

/// For each field of a header the place of its column; `None` if the header is no order of the
/// columns' names.
pub fn order(
    alloc: Global,
    columns: &Columns,
    header: &ByteRecord,
) -> Result<Option<Vec<u32>>, Memory>
    requires { length columns.now < 2 ^ 32 }
    ensures { IfOk result (λ places. option_map (λ v. v.items) places ≡ order_of columns.now (fields_of header.now)) }
{
    if header.len() != columns.len() {
        return Ok(None);
    }
    let mut places = Vec::new(alloc);
    let mut free = vec![in alloc; true; columns.len()]?;
    'fields: for j in 0..header.len() {
        match free_place(columns, &free, trim(field(header, j))) {
            Some(place) => {
                free[place] = false;
                places.push(place as u32)?;
            }
            None => return Ok(None),
        }
    }
    Ok(Some(places))
}
