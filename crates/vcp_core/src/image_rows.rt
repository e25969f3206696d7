//! An image and ROWS for it, read one after the other.

ghost use Rattle.std.specs.Prelude.{◌≡◌, ◌≢◌, true, false, Some, IfErr, IfOk, IfSome};
ghost use Rattle.vcp_inputs.specs.Forms.{rows_of, AreFew};
ghost use Rattle.vcp_core.specs.ImagesRead.{AreImageRows, ImageRowsRead, ReadsImageRows};
ghost use Rattle.vcp_core.specs.Loading.{EndsUnread};

use crate::fault::Fault;
use input_rows::RowsSource;
use signature_table::Table;
use std::alloc::Global;
use vcp_base::{Columns, Memory, Text};
use vcp_inputs::{
    Image, NoInput, Refusal, RowsWord, graph_columns, load_image, load_rows, rows_name,
};
use vcp_outside::Files;

/// An image, and the rows that it is run on.
pub struct ImageRows {
    /// The image.
    pub image: Image,
    /// The columns of its graph's inputs.
    pub columns: Columns,
    /// The rows, before they are read.
    pub rows: RowsSource,
}

// Written out, so that the parts are given up here alone, and not in each command that loads them.
impl Drop for ImageRows {
    fn drop(self) {
        let ImageRows {
            image: _,
            columns: _,
            rows: _,
        } = self;
    }
}

/// Whether the seed of a second channel, if there is one, is the table's own.
fn has_seed(table: &Table, second: Option<u32>) -> bool
    ensures has { result ≡ true → second ≡ Some table.now.seed }
    ensures has_not { result ≡ false → IfSome second (λ seed. seed ≢ table.now.seed) }
{
    match second {
        Some(seed) => table.seed() == seed,
        None => false,
    }
}

/// The image M and ROWS for it: M is read whole and checked, and is refused where the seed of a second
/// channel is its own; and then ROWS up to their header. Where there is nothing of one, the command that
/// wants them ends so, and nothing is done.
pub fn load_image_rows<'a, F: Files>(
    alloc: Global,
    files: &mut F,
    image: &'a Text,
    rows: RowsWord<'a>,
    second: Option<u32>,
) -> Result<ImageRows, Fault<'a>>
    requires few { AreFew (rows_of rows) }
    ensures fit { IfOk result AreImageRows }
    ensures read { IfOk result (ImageRowsRead image.now (rows_of rows.entry) (F.seen files.old) (F.seen files.new)) }
    ensures apart { IfOk result (λ r. IfSome second (λ seed. seed ≢ r.image.table.seed)) }
    ensures unread { IfErr result (EndsUnread (ReadsImageRows image.now (rows_of rows.entry) second) (F.seen files.old) (F.seen files.new)) }
{
    let loaded = match load_image(alloc, files, image) {
        Ok(loaded) => loaded,
        Err(input) => {
            return Err(Fault::Input {
                name: image.bytes(),
                input,
            });
        }
    };
    if has_seed(&loaded.table, second) {
        return Err(Fault::Input {
            name: image.bytes(),
            input: NoInput::Refused(Refusal::Seed),
        });
    }
    let columns = match graph_columns(alloc, &loaded.graph) {
        Ok(columns) => columns,
        Err(Memory) => return Err(Fault::Memory),
    };
    match load_rows(alloc, files, rows, &columns) {
        Ok(source) => Ok(ImageRows {
            image: loaded,
            columns,
            rows: source,
        }),
        Err(input) => Err(Fault::Input {
            name: rows_name(rows),
            input,
        }),
    }
}
