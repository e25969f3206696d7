//! The command `ranges`, behind its image.

ghost use Rattle.std.specs.Prelude.{ℕ, List};
ghost use Rattle.std.specs.Option.{option_map};
ghost use Rattle.std.specs.Io.KnownBytes.{IsAtEnd};
ghost use Rattle.vcp_study_core.specs.CarriedOut.{Fetches, Studies, WritesSo, told_line, told_status};
ghost use Rattle.vcp_study_core.specs.Forms.{ranges};
ghost use Rattle.vcp_study_core.specs.FromFiles.{as_found_by};
ghost use Rattle.vcp_study_core.specs.Parts.{RangesFrom};
ghost use Rattle.vcp_study_core.specs.Tasks.{StudyOf};
ghost use Rattle.vcp_study_core.specs.Texts.{IsRanged, WritesOne};

use crate::fault::{Fault, told};
use crate::loading::bytes_under;
use op_graph::Graph;
use range_audit::{
    all_rows_are_in_no_ranges, count_named, ranges_within, write_ranges as write_ranges_text,
};
use range_walk::{Range, ranges_of_table};
use std::alloc::Global;
use vcp_base::{MOST_SOURCE_BYTES, Memory, Text};
use vcp_inputs::{Image, NoInput, graph_columns};
use vcp_outside::{Files, Sink};

/// Writes which operations of a graph may stop, on rows whose inputs are in these ranges; whether one may.
fn write_ranges<'a, O: Sink>(
    alloc: Global,
    graph: &Graph,
    inputs: &[Range],
    all: bool,
    out: &mut O,
) -> Result<bool, Fault<'a>>
    ensures { WritesSo (WritesOne (IsRanged graph.now inputs.now all)) (O.seen out.old) (O.seen out.new) (told_line result) (told_status result) }
{
    all_rows_are_in_no_ranges();
    match ranges_within(alloc, graph, inputs, all) {
        Ok(ranges) => {
            let named = count_named(graph, &ranges);
            told(write_ranges_text(out, graph, &ranges, all), named != 0)
        }
        Err(Memory) => Err(Fault::Memory),
    }
}

/// The ranges that the table under a name tells of an image's inputs.
fn load_table<'a, F: Files>(
    alloc: Global,
    image: &Image,
    name: &'a Text,
    files: &mut F,
) -> Result<Vec<Range>, Fault<'a>>
    ensures { IsAtEnd (F.seen files.old).rest →
        Fetches (RangesFrom name.now image.now) (F.seen files.old) (F.seen files.new) (as_found_by result (λ inputs. inputs.items)) }
{
    let columns = match graph_columns(alloc, &image.graph) {
        Ok(columns) => columns,
        Err(_) => return Err(Fault::Memory),
    };
    let text = match bytes_under(alloc, files, name, MOST_SOURCE_BYTES) {
        Ok(text) => text,
        Err(why) => return Err(why),
    };
    match ranges_of_table(alloc, text.bytes(), &columns) {
        Ok(inputs) => Ok(inputs),
        Err(fault) => Err(Fault::Input {
            name: name.bytes(),
            input: NoInput::from(fault),
        }),
    }
}

/// Writes which operations of an image's graph may stop, on rows whose inputs are in the ranges of a table, where one is named; whether one may.
pub(crate) fn ranges_of_image<'a, F: Files, O: Sink>(
    alloc: Global,
    image: &Image,
    all: bool,
    inputs: Option<&'a Text>,
    files: &mut F,
    out: &mut O,
) -> Result<bool, Fault<'a>>
    ensures { IsAtEnd (F.seen files.old).rest → (m : List ℕ) → Studies (StudyOf (ranges all (option_map (λ f. f.now) inputs.entry)) m image.now)
        (F.seen files.old) (F.seen files.new) (O.seen out.old) (O.seen out.new) (told_line result) (told_status result) }
{
    match inputs {
        Some(name) => match load_table(alloc, image, name, files) {
            Ok(inputs) => write_ranges(alloc, &image.graph, &inputs, all, out),
            Err(why) => Err(why),
        },
        None => write_ranges(alloc, &image.graph, &[], all, out),
    }
}
