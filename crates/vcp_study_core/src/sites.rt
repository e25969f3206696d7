//! The command `sites`, behind its image.

ghost use Rattle.std.specs.Prelude.{ℕ, List, ◌≡◌, ◌≤◌, Err};
ghost use Rattle.std.specs.Io.KnownBytes.{IsAtEnd};
ghost use Rattle.vcp_base.specs.Limits.{most_cycles};
ghost use Rattle.vcp_outside.specs.Counts.{Rose};
ghost use Rattle.vcp_outside.specs.Held.{Held};
ghost use Rattle.vcp_outside.specs.Seen.{SinkSeen};
ghost use Rattle.signature_table.specs.Signatures.{table_of};
ghost use Rattle.fault_sites.specs.RestScript.{WritesChosenGroups};
ghost use Rattle.fault_sites.specs.Rests.{groups};
ghost use Rattle.fault_sites.specs.Script.{WritesChosen};
ghost use Rattle.fault_sites.specs.declared.scripts.chosen.Chosen.{Chosen as ChosenOf};
ghost use Rattle.fault_sites.specs.declared.scripts.unwritten.Unwritten.TheVariants as unwritten;
ghost use Rattle.fault_sites.specs.declared.site.Site.{Site};
ghost use Rattle.vcp_inputs.specs.Forms.{rows_of, AreFew};
ghost use Rattle.vcp_inputs.specs.declared.images.Image.{Image as ImageOf};
ghost use Rattle.vcp_study_core.specs.CarriedOut.{Studies, WritesSo, told_line, told_status};
ghost use Rattle.vcp_study_core.specs.Forms.{rest_sites, run_sites, sites};
ghost use Rattle.vcp_study_core.specs.Tasks.{StudyOf};
ghost use Rattle.vcp_study_core.specs.Texts.{Chooses, ChoosesGroups};

use crate::fault::{Fault, StudyRefusal};
use crate::loading::rows_for;
use fault_sites::{
    Chosen, Classes, RunClass, Unwritten, each_run_site_stands_once, each_site_stands_once,
    write_chosen_rests, write_chosen_run_sites, write_chosen_sites,
};
use std::alloc::Global;
use vcp_base::Text;
use vcp_inputs::{Image, RowsWord};
use vcp_outside::{Files, Sink};

/// What a command comes to that wrote sites of an image, which has this name. It looks for nothing: `false`.
fn chosen_of<'a>(name: &'a Text, wrote: Result<(), Unwritten>) -> Result<bool, Fault<'a>>
    ensures sites { (i : ImageOf) (named : List ℕ) (xs : List Site) (which : ChosenOf) (old new : SinkSeen)
        → WritesChosen i.graph i.table named xs which old.written new.written wrote
        → (wrote ≡ Err unwritten.Failed → Rose old.faults new.faults)
        → WritesSo (Chooses name.now i named xs which) old new (told_line result) (told_status result) }
    ensures groups { (i : ImageOf) (gs : List (List Site)) (which : ChosenOf) (old new : SinkSeen)
        → WritesChosenGroups i.graph i.table gs which old.written new.written wrote
        → (wrote ≡ Err unwritten.Failed → Rose old.faults new.faults)
        → WritesSo (ChoosesGroups name.now i gs which) old new (told_line result) (told_status result) }
{
    match wrote {
        Ok(()) => Ok(false),
        Err(Unwritten::TooMany) => Err(Fault::Refused {
            name: name.bytes(),
            why: StudyRefusal::Sites,
        }),
        Err(Unwritten::Memory) => Err(Fault::Memory),
        Err(Unwritten::Failed) => Err(Fault::Write),
    }
}

/// Writes of the sites of a class in an image, which has this name, what is chosen.
pub(crate) fn write_sites<'a, O: Sink>(
    alloc: Global,
    name: &'a Text,
    image: &Image,
    classes: Classes,
    cycles: u32,
    chosen: &Chosen,
    out: &mut O,
) -> Result<bool, Fault<'a>>
    requires table { image.now.table ≡ table_of image.now.table.seed image.now.table.step image.now.graph }
    requires few { cycles ≤ most_cycles }
    ensures { (h : Held) (b n : ℕ) → WritesSo (StudyOf (sites cycles classes chosen.now) name.now image.now h b n)
        (O.seen out.old) (O.seen out.new) (told_line result) (told_status result) }
{
    each_site_stands_once();
    let written = write_chosen_sites(
        alloc,
        &image.graph,
        &image.table,
        classes,
        cycles,
        chosen,
        out,
    );
    chosen_of(name, written)
}

/// Writes of the groups in which a word changes between two of its readings, in an image that has this name, what is chosen.
pub(crate) fn write_rests<'a, O: Sink>(
    alloc: Global,
    name: &'a Text,
    image: &Image,
    cycles: u32,
    chosen: &Chosen,
    out: &mut O,
) -> Result<bool, Fault<'a>>
    requires table { image.now.table ≡ table_of image.now.table.seed image.now.table.step image.now.graph }
    requires few { cycles ≤ most_cycles }
    ensures { (h : Held) (b n : ℕ) → WritesSo (StudyOf (rest_sites cycles chosen.now) name.now image.now h b n)
        (O.seen out.old) (O.seen out.new) (told_line result) (told_status result) }
{
    let written = write_chosen_rests(alloc, &image.graph, &image.table, cycles, chosen, out);
    chosen_of(name, written)
}

/// Reads ROWS for an image, which has this name, and writes of the sites of a class in their run what is chosen.
pub(crate) fn run_sites_of_image<'a, F: Files, O: Sink>(
    alloc: Global,
    name: &'a Text,
    image: &Image,
    rows: RowsWord<'a>,
    class: RunClass,
    chosen: &Chosen,
    files: &mut F,
    out: &mut O,
) -> Result<bool, Fault<'a>>
    requires table { image.now.table ≡ table_of image.now.table.seed image.now.table.step image.now.graph }
    requires few { AreFew (rows_of rows) }
    ensures { IsAtEnd (F.seen files.old).rest → Studies (StudyOf (run_sites (rows_of rows.entry) class chosen.now) name.now image.now)
        (F.seen files.old) (F.seen files.new) (O.seen out.old) (O.seen out.new) (told_line result) (told_status result) }
{
    match rows_for(alloc, image, rows, files) {
        Ok(list) => {
            each_run_site_stands_once();
            let _step = image.table.step();
            let _operations = image.graph.len();
            let written = write_chosen_run_sites(
                alloc,
                &image.graph,
                &image.table,
                class,
                &list,
                chosen,
                out,
            );
            chosen_of(name, written)
        }
        Err(why) => Err(why),
    }
}
