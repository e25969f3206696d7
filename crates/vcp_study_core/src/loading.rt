//! Files and ROWS, with the answers with which a command ends for want of them.

ghost use Rattle.std.specs.Prelude.{◌≡◌, ◌<◌, ◌≤◌, ◌^◌, All, IfOk, length};
ghost use Rattle.std.specs.Io.KnownBytes.{IsAtEnd};
ghost use Rattle.vcp_base.specs.Limits.{most_cycles};
ghost use Rattle.vcp_inputs.specs.Forms.{rows_of, AreFew};
ghost use Rattle.vcp_study_core.specs.CarriedOut.{Fetches};
ghost use Rattle.vcp_study_core.specs.FromFiles.{as_found};
ghost use Rattle.vcp_study_core.specs.Parts.{RowsFrom};
ghost use Rattle.vcp_study_core.specs.Tasks.{BytesFrom};

use crate::fault::Fault;
use input_rows::RowList;
use std::alloc::Global;
use vcp_base::Text;
use vcp_inputs::{Image, RowsWord, graph_columns, load_rows, read_file, rows_name, whole_rows};
use vcp_outside::Files;

/// The bytes of the file under a name, which has at most so many.
pub(crate) fn bytes_under<'a, F: Files>(
    alloc: Global,
    files: &mut F,
    name: &'a Text,
    limit: u64,
) -> Result<Text, Fault<'a>>
    requires { limit < 2 ^ 32 }
    ensures fetches { Fetches (BytesFrom name.now limit) (F.seen files.old) (F.seen files.new) (as_found result) }
    ensures within { IfOk result (λ text. length text ≤ limit) }
{
    match read_file(alloc, files, name, limit) {
        Ok(text) => Ok(text),
        Err(input) => Err(Fault::Input {
            name: name.bytes(),
            input,
        }),
    }
}

/// All rows of ROWS for an image's inputs.
pub(crate) fn rows_for<'a, F: Files>(
    alloc: Global,
    image: &Image,
    rows: RowsWord<'a>,
    files: &mut F,
) -> Result<RowList, Fault<'a>>
    requires few { AreFew (rows_of rows) }
    ensures fetches { IsAtEnd (F.seen files.old).rest →
        Fetches (RowsFrom (rows_of rows.entry) image.now) (F.seen files.old) (F.seen files.new) (as_found result) }
    ensures width { IfOk result (λ list. All (λ row. length row ≡ length image.now.graph.inputs) list) }
    ensures few { IfOk result (λ list. length list ≤ most_cycles) }
{
    let columns = match graph_columns(alloc, &image.graph) {
        Ok(columns) => columns,
        Err(_) => return Err(Fault::Memory),
    };
    let source = match load_rows(alloc, files, rows, &columns) {
        Ok(source) => source,
        Err(input) => {
            return Err(Fault::Input {
                name: rows_name(rows),
                input,
            });
        }
    };
    match whole_rows(alloc, &source, &columns) {
        Ok(list) => Ok(list),
        Err(input) => Err(Fault::Input {
            name: rows_name(rows),
            input,
        }),
    }
}
