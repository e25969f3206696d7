//! The commands `inject` and `pairs`: what one channel, or two, make of each group of faults of a script.

ghost use Rattle.std.specs.Prelude.{◌≡◌, ◌≢◌, ◌<◌, ◌≤◌, All, Err, IfErr, IfOk, IfSome, length};
ghost use Rattle.vcp_base.specs.Limits.{most_cycles, most_names, seeds};
ghost use Rattle.vcp_outside.specs.Counts.{Rose};
ghost use Rattle.signature_table.specs.Signatures.{table_of};
ghost use Rattle.fault_script.specs.Groups.{GroupFits};
ghost use Rattle.fault_script.specs.ScriptOf.{most_faults};
ghost use Rattle.fault_injector.specs.declared.campaign.fault.CampaignFault.TheVariants as fault;
ghost use Rattle.vcp_inputs.specs.Forms.{faults_run, rows_of};
ghost use Rattle.vcp_inputs.specs.Refusals.{IsCaused};
ghost use Rattle.input_rows.specs.Opening.{HasFewCycles};
ghost use Rattle.vcp_inputs.specs.RowsOutcome.{source_outcome};
ghost use Rattle.coded_machine.specs.Moments.{moment};
ghost use Rattle.vcp_core.specs.ImagesRead.{AreImageRows, PerformsOn};
ghost use Rattle.vcp_core.specs.Inject.{JudgedFor, NoRowsFor, RowsFor};
ghost use Rattle.vcp_core.specs.Reach.{told_line, told_status};

use crate::ending::{Ending, campaign_ended};
use crate::fault::Fault;
use crate::image_rows::ImageRows;
use coded_unit::Unit;
use fault_injector::{CampaignFault, run_campaign, run_pairs};
use fault_script::Script;
use input_rows::{RowList, RowsSource};
use op_graph::Graph;
use signature_table::Table;
use std::alloc::Global;
use vcp_base::{Columns, Memory, Text};
use vcp_inputs::{Image, NoInput, Refusal, RowsWord, load_script, rows_name, whole_rows};
use vcp_outside::{Files, Sink};

/// The most cycles times operations of a run under faults.
const MOST_TRACE: u64 = 16777216;

/// All rows, none of which is refused. Where there is no second channel, they are few enough for the operations of a graph.
fn all_rows(
    alloc: Global,
    inputs: &RowsSource,
    columns: &Columns,
    graph: &Graph,
    second: Option<u32>,
) -> Result<RowList, NoInput>
    requires few { HasFewCycles inputs.now }
    requires narrow { length columns.now ≤ most_names }
    ensures rows { IfOk result (RowsFor second (source_outcome inputs.now columns.now) graph.now) }
    ensures fault { IfErr result (NoRowsFor second (source_outcome inputs.now columns.now) graph.now) }
    ensures caused { IfErr result IsCaused }
    ensures width { IfOk result (λ list. All (λ row. length row ≡ length columns.now) list) }
    ensures few { IfOk result (λ list. length list ≤ most_cycles) }
{
    let list = match whole_rows(alloc, inputs, columns) {
        Ok(list) => list,
        Err(input) => return Err(input),
    };
    match second {
        None => if list.len() as u64 * graph.len() as u64 > MOST_TRACE {
            Err(NoInput::Refused(Refusal::Trace))
        } else {
            Ok(list)
        },
        Some(_) => Ok(list),
    }
}

/// Reads all rows of an image, once its file and ROWS were read, and then the script F, and judges each of its groups: by runs on one channel, or on two,
/// of which the second has this other seed.
pub fn judge_image<'a, F: Files, U: Unit, O: Sink>(
    alloc: Global,
    loaded: &ImageRows,
    rows: RowsWord<'a>,
    second: Option<u32>,
    script: &'a Text,
    files: &mut F,
    unit: &mut U,
    out: &mut O,
) -> Result<Ending, Fault<'a>>
    requires fit { AreImageRows loaded.now }
    requires seed { IfSome second (λ seed. seed < seeds) }
    requires apart { IfSome second (λ seed. seed ≢ loaded.now.image.table.seed) }
    ensures { PerformsOn (λ m. faults_run m (rows_of rows.entry) second script.now) (rows_of rows.entry) loaded.now (F.seen files.old) (F.seen files.new)
        (moment (U.seen unit.old) (O.seen out.old)) (moment (U.seen unit.new) (O.seen out.new)) (told_line result) (told_status result) }
{
    let list = match all_rows(
        alloc,
        &loaded.rows,
        &loaded.columns,
        &loaded.image.graph,
        second,
    ) {
        Ok(list) => list,
        Err(input) => {
            return Err(Fault::Input {
                name: rows_name(rows),
                input,
            });
        }
    };
    let groups = match load_script(alloc, files, script, &loaded.image.graph) {
        Ok(groups) => groups,
        Err(input) => {
            return Err(Fault::Input {
                name: script.bytes(),
                input,
            });
        }
    };
    campaign_ended(judge_groups(alloc, &loaded.image, &list, second, &groups, unit, out))
}

/// Judges the groups of a script for an image, over these rows: by runs on one channel, or on two, of which the second has this other seed.
fn judge_groups<U: Unit, O: Sink>(
    alloc: Global,
    image: &Image,
    rows: &RowList,
    second: Option<u32>,
    groups: &Script,
    unit: &mut U,
    out: &mut O,
) -> Result<(), CampaignFault>
    requires table { image.now.table ≡ table_of image.now.table.seed image.now.table.step image.now.graph }
    requires seed { IfSome second (λ seed. seed < seeds) }
    requires apart { IfSome second (λ seed. seed ≢ image.now.table.seed) }
    requires width { All (λ row. length row ≡ length image.now.graph.inputs) rows.now }
    requires few { length rows.now ≤ most_cycles }
    requires groups { All (GroupFits image.now.graph) groups.now }
    requires short { length groups.now ≤ most_faults }
    ensures told { JudgedFor second image.now.table image.now.graph groups.now rows.now (U.seen unit.old) (U.seen unit.new)
        (O.seen out.old).written (O.seen out.new).written result }
    ensures write { result ≡ Err fault.Write → Rose (O.seen out.old).faults (O.seen out.new).faults }
    ensures stayed { result ≢ Err fault.Write → (O.seen out.new).faults ≡ (O.seen out.old).faults }
{
    match second {
        None => run_campaign(alloc, out, &image.graph, &image.table, rows, groups, unit),
        Some(seed) => match Table::new(alloc, &image.graph, seed, image.table.step()) {
            Ok(other) => run_pairs(
                alloc,
                out,
                &image.graph,
                &image.table,
                &other,
                rows,
                groups,
                unit,
            ),
            Err(Memory) => Err(CampaignFault::Memory),
        },
    }
}
