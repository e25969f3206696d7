//! The command `sum`, behind its image.

ghost use Rattle.std.specs.Prelude.{ℕ, List, ◌≡◌, ◌≤◌, All, IfSome, length};
ghost use Rattle.std.specs.Option.{option_map};
ghost use Rattle.std.specs.Io.KnownBytes.{IsAtEnd};
ghost use Rattle.vcp_base.specs.Limits.{most_cycles};
ghost use Rattle.signature_table.specs.Signatures.{table_of};
ghost use Rattle.verdict_tables.specs.Parts.{most_parts, IsWhole, PartFits};
ghost use Rattle.verdict_tables.specs.SameEndings.{endings_over, sum_apart_text};
ghost use Rattle.vcp_inputs.specs.Forms.{rows_of, AreFew};
ghost use Rattle.vcp_study_core.specs.CarriedOut.{Studies, WritesSo, told_line, told_status};
ghost use Rattle.vcp_study_core.specs.Forms.{names_of, sum_apart, sum_with};
ghost use Rattle.vcp_study_core.specs.Tasks.{StudyOf};
ghost use Rattle.vcp_study_core.specs.Texts.{sums_up};

use crate::fault::{Fault, told};
use crate::loading::rows_for;
use crate::part_words::PartWords;
use crate::parts::load_parts;
use input_rows::RowList;
use std::alloc::Global;
use vcp_base::Memory;
use vcp_inputs::{Image, RowsWord};
use vcp_outside::{Files, Sink};
use verdict_tables::{
    Parts, endings_of_parts, shows_unseen, totals_of_parts, write_sum, write_sum_apart,
};

/// Writes the tables of the verdicts of parts, in which those that are `same` are distinguished by runs over rows; whether a fault is unseen.
fn write_tables_apart<'a, O: Sink>(
    alloc: Global,
    image: &Image,
    rows: &RowList,
    parts: &Parts,
    out: &mut O,
) -> Result<bool, Fault<'a>>
    requires table { image.now.table ≡ table_of image.now.table.seed image.now.table.step image.now.graph }
    requires width { All (λ r. length r ≡ length image.now.graph.inputs) rows.now }
    requires few_rows { length rows.now ≤ most_cycles }
    requires whole { All IsWhole parts.now }
    requires fits { All (PartFits image.now.graph) parts.now }
    requires few { length parts.now ≤ most_parts }
    ensures { WritesSo
        (λ x. x ≡ sums_up parts.now
        (sum_apart_text image.now.graph parts.now (endings_over image.now.table image.now.graph rows.now parts.now)))
        (O.seen out.old) (O.seen out.new) (told_line result) (told_status result) }
{
    let unseen = shows_unseen(&totals_of_parts(parts));
    match endings_of_parts(alloc, &image.graph, &image.table, rows, parts) {
        Ok(endings) => told(write_sum_apart(out, &image.graph, parts, &endings), unseen),
        Err(Memory) => Err(Fault::Memory),
    }
}

/// Reads ROWS for an image, then the parts, and writes the tables of their verdicts, distinguished by runs over ROWS; whether a fault is unseen.
fn apart_of_image<'a, F: Files, O: Sink>(
    alloc: Global,
    image: &Image,
    rows: RowsWord<'a>,
    names: &PartWords<'a>,
    files: &mut F,
    out: &mut O,
) -> Result<bool, Fault<'a>>
    requires table { image.now.table ≡ table_of image.now.table.seed image.now.table.step image.now.graph }
    requires few_rows { AreFew (rows_of rows) }
    requires few { length (names_of names.now) ≤ most_parts }
    ensures { IsAtEnd (F.seen files.old).rest → (m : List ℕ) → Studies (StudyOf (sum_apart (names_of names.now) (rows_of rows.entry)) m image.now)
        (F.seen files.old) (F.seen files.new) (O.seen out.old) (O.seen out.new) (told_line result) (told_status result) }
{
    match rows_for(alloc, image, rows, files) {
        Ok(list) => match load_parts(alloc, image, names, files) {
            Ok(parts) => write_tables_apart(alloc, image, &list, &parts, out),
            Err(why) => Err(why),
        },
        Err(why) => Err(why),
    }
}

/// Reads the parts for an image, behind ROWS where it is there, and writes the tables of their verdicts; whether a fault is unseen.
pub(crate) fn sum_of_image<'a, F: Files, O: Sink>(
    alloc: Global,
    image: &Image,
    names: &PartWords<'a>,
    rows: Option<RowsWord<'a>>,
    files: &mut F,
    out: &mut O,
) -> Result<bool, Fault<'a>>
    requires table { image.now.table ≡ table_of image.now.table.seed image.now.table.step image.now.graph }
    requires few_rows { IfSome rows (λ r. AreFew (rows_of r)) }
    requires few { length (names_of names.now) ≤ most_parts }
    ensures { IsAtEnd (F.seen files.old).rest → (m : List ℕ)
        → Studies (StudyOf (sum_with (names_of names.now) (option_map rows_of rows.entry)) m image.now)
        (F.seen files.old) (F.seen files.new) (O.seen out.old) (O.seen out.new) (told_line result) (told_status result) }
{
    match rows {
        Some(rows) => apart_of_image(alloc, image, rows, names, files, out),
        None => match load_parts(alloc, image, names, files) {
            Ok(parts) => {
                let unseen = shows_unseen(&totals_of_parts(&parts));
                told(write_sum(out, &image.graph, &parts), unseen)
            }
            Err(why) => Err(why),
        },
    }
}
