//! What the cells of a record spell.

ghost use Rattle.std.specs.Prelude.{◌≡◌};
ghost use Rattle.std.specs.Option.{option_map};
ghost use Rattle.csv.specs.Records.{fields_of};
ghost use Rattle.vcp_base.specs.Words.{words, only};
ghost use Rattle.range_walk.specs.RangeTable.{cells_of, is_same_word, is_head as is_head_of, end_of as end_in, range_between as range_between_of};

use crate::Range;
use crate::range::both_hold;
use csv::ByteRecord;
use input_rows::{RowFault, field};
use vcp_base::{Ty, WordsLeft, is_same_name, number_in};

/// The one word of a cell.
pub(crate) fn word_of(cell: &[u8]) -> Option<&[u8]>
    ensures { option_map (λ w. w.now) result ≡ only (words cell.now) }
{
    let mut left = WordsLeft::new(cell);
    left.only()
}

/// Whether a cell has this one word.
fn is_word(cell: &[u8], word: &[u8]) -> bool
    ensures { result ≡ is_same_word word.now (only (words cell.now)) }
{
    match word_of(cell) {
        Some(found) => is_same_name(found, word),
        None => false,
    }
}

/// Whether the cells of a record are the words of the head.
pub(crate) fn is_head(cells: &ByteRecord) -> bool
    ensures { result ≡ is_head_of (cells_of (fields_of cells.now)) }
{
    if cells.len() != 3 {
        return false;
    }
    let input = is_word(field(cells, 0), b"input");
    let least = is_word(field(cells, 1), b"least");
    let greatest = is_word(field(cells, 2), b"greatest");
    both_hold(input, both_hold(least, greatest))
}

/// The value of the type that a cell spells.
fn end_of(ty: Ty, cell: &[u8]) -> Option<i64>
    ensures { result ≡ end_in ty cell.now }
{
    match word_of(cell) {
        Some(word) => number_in(ty, word),
        None => None,
    }
}

/// The range of an input of the type between the two ends that cells spell.
pub(crate) fn range_between(
    number: u32,
    ty: Ty,
    least: &[u8],
    greatest: &[u8],
) -> Result<Range, RowFault>
    ensures { result ≡ range_between_of number (end_in ty least.now) (end_in ty greatest.now) }
{
    let column = match end_of(ty, least) {
        Some(low) => match end_of(ty, greatest) {
            Some(high) if low <= high => {
                return Ok(Range {
                    low,
                    high,
                    nonzero: false,
                });
            }
            _ => 3,
        },
        None => 2,
    };
    Err(RowFault::Cell {
        row: number,
        column,
    })
}
