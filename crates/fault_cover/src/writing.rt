//! A cover, written line by line.

ghost use Rattle.std.specs.Prelude.{◌≡◌, ◌<◌, ◌≤◌, ◌^◌, List, All, IfOk, flat_map, length};
ghost use Rattle.vcp_outside.specs.Pens.{Goes};
ghost use Rattle.range_walk.specs.declared.range.Stops.{Stops};
ghost use Rattle.signature_table.specs.Signatures.{IsTableOf};
ghost use Rattle.fault_sites.specs.Sites.{each_below};
ghost use Rattle.fault_cover.specs.Classes.{classes_of};
ghost use Rattle.fault_cover.specs.Counts.{AreCounted};
ghost use Rattle.fault_cover.specs.CoverText.{Covered, count_told, delay_row, heard_at, heard_of, is_shown, shows_text};
ghost use Rattle.fault_cover.specs.CoverText.{tally as tally_of};
ghost use Rattle.fault_cover.specs.Leftovers.{AreCovered, lines_at};
ghost use Rattle.fault_cover.specs.Surveys.{IsMapped, IsSurvey};
ghost use Rattle.fault_cover.specs.Telling.{subject as subject_of};
ghost use Rattle.fault_cover.specs.Writing.{Finds, IsFound, IsSmall, WritesCover, body_text, count_row};

use crate::class::{CoverClass, CoverClasses};
use crate::counting::{ClassCount, DELAYS, count_classes, delayed, total};
use crate::faults::{Subject, then_class_faults};
use crate::items::item;
use crate::left::{LeftLine, lines_left};
use crate::lines::{
    Showing, then_class_row, then_delay_row, then_heading, then_left, then_remark, then_totals,
};
use crate::survey::Survey;
use crate::tally::Tally;
use op_graph::Graph;
use signature_table::Table;
use std::alloc::Global;
use vcp_base::Memory;
use vcp_outside::{Failed, LinePen, Pen, Sink};

/// Why a cover isn't written, or not whole.
#[derive(Clone, Copy)]
pub enum Uncovered {
    /// Memory was wanted; nothing is written.
    Memory,
    /// A part of it is written.
    Failed,
}

/// The classes in their order.
const CLASSES: [CoverClass; 7] = [
    CoverClass::Add,
    CoverClass::Rest,
    CoverClass::Stale,
    CoverClass::Skip,
    CoverClass::From,
    CoverClass::Late,
    CoverClass::Operator,
];

/// Goes on with the rows of the classes.
fn then_class_rows<P: Pen>(mut pen: P, counts: &[ClassCount]) -> P
    ensures { All IsSmall counts.now → Goes (P.seen pen) (P.seen result) (flat_map count_row counts.now) }
{
    'classes: for i in 0..counts.len() {
        let count = item(counts, i);
        pen = then_class_row(pen, count.class, &count.counting.tally);
    }
    pen
}

/// Goes on with the rows of the numbers of cycles.
fn then_delay_rows<P: Pen>(mut pen: P, counts: &[ClassCount]) -> P
    ensures { (covered : List Covered) → AreCounted counts.now covered → length (heard_of covered) < 2 ^ 62
        → Goes (P.seen pen) (P.seen result) (each_below (delay_row (heard_of covered)) 17) }
{
    'delays: for n in 0..DELAYS {
        pen = then_delay_row(pen, n as u32, delayed(counts, n));
    }
    pen
}

/// Goes on with the lines of the faults that show, of which there are so many.
fn then_showing<P: Pen>(pen: P, subject: &Subject<'_>, classes: &[CoverClass], shows: u64) -> P
    requires table { IsTableOf subject.now.table.now subject.now.graph.now }
    requires mapped { IsMapped subject.now.graph.now subject.now.survey.now }
    ensures { (stops : List Stops)
        → IsSurvey (subject_of subject.now.graph.now subject.now.table.now subject.now.survey.now.horizon stops) subject.now.survey.now → (covered : List
        Covered)
        → AreCovered (subject_of subject.now.graph.now subject.now.table.now subject.now.survey.now.horizon stops) classes.now covered
        → shows ≡ count_told is_shown (heard_of covered)
        → Goes (P.seen pen) (P.seen result) (flat_map (λ h. shows_text subject.now.graph.now h.fault h.told) (heard_of covered)) }
{
    if shows == 0 {
        return pen;
    }
    let mut showing = Showing { pen };
    'classes: for i in 0..classes.len() {
        let class = item(classes, i);
        showing = then_class_faults(showing, subject, class);
    }
    let Showing { pen } = showing;
    pen
}

/// The lines of operations whose faults run on or are beyond, where there are any by the tally of all faults.
fn left_of(
    alloc: Global,
    subject: &Subject<'_>,
    classes: &[CoverClass],
    all: &Tally,
) -> Result<Vec<LeftLine>, Memory>
    requires table { IsTableOf subject.now.table.now subject.now.graph.now }
    requires mapped { IsMapped subject.now.graph.now subject.now.survey.now }
    ensures { IfOk result (λ lines. (stops : List Stops)
        → IsSurvey (subject_of subject.now.graph.now subject.now.table.now subject.now.survey.now.horizon stops) subject.now.survey.now → (covered : List
        Covered)
        → AreCovered (subject_of subject.now.graph.now subject.now.table.now subject.now.survey.now.horizon stops) classes.now covered
        → all.now ≡ tally_of (heard_of covered)
        → lines.items ≡ each_below (λ k. lines_at subject.now.graph.now subject.now.survey.now.horizon (heard_at covered k) k)
        (length subject.now.graph.now.operations)) }
{
    if all.runs_on == 0 && all.beyond == 0 {
        return Ok(Vec::new(alloc));
    }
    lines_left(alloc, subject, classes)
}

/// What a cover is written of.
struct Found {
    counts: Vec<ClassCount>,
    all: Tally,
    lines: Vec<LeftLine>,
}

impl Drop for Found {
    fn drop(self) {
        let Found {
            counts: _,
            all: _,
            lines: _,
        } = self;
    }
}

/// What a cover is written of. All memory is taken here.
fn find(alloc: Global, subject: &Subject<'_>, classes: &[CoverClass]) -> Result<Found, Memory>
    requires table { IsTableOf subject.now.table.now subject.now.graph.now }
    requires mapped { IsMapped subject.now.graph.now subject.now.survey.now }
    requires few { length classes.now ≤ 7 }
    ensures { IfOk result (λ found. Finds subject.now.graph.now subject.now.table.now subject.now.survey.now classes.now found.counts.items found.all
        found.lines.items) }
{
    let _operations = subject.graph.operations();
    let counts = count_classes(alloc, subject, classes)?;
    let all = total(&counts);
    let lines = left_of(alloc, subject, classes, &all)?;
    Ok(Found { counts, all, lines })
}

/// Goes on with what is found: the tables, the lines, and the totals.
fn then_found<P: Pen>(
    pen: P,
    subject: &Subject<'_>,
    classes: &[CoverClass],
    counts: &[ClassCount],
    all: &Tally,
    lines: &[LeftLine],
) -> P
    requires table { IsTableOf subject.now.table.now subject.now.graph.now }
    requires mapped { IsMapped subject.now.graph.now subject.now.survey.now }
    ensures { (stops : List Stops)
        → IsSurvey (subject_of subject.now.graph.now subject.now.table.now subject.now.survey.now.horizon stops) subject.now.survey.now
        → (is : IsFound (subject_of subject.now.graph.now subject.now.table.now subject.now.survey.now.horizon stops) classes.now counts.now all.now lines.now)
        → Goes (P.seen pen) (P.seen result) (body_text subject.now.graph.now subject.now.survey.now.horizon is.covered) }
{
    let pen = then_heading(pen, b"by what the fault does");
    let pen = then_class_rows(pen, counts);
    let pen = then_heading(pen, b"by how many cycles later it is refused");
    let pen = then_delay_rows(pen, counts);
    let pen = then_showing(pen, subject, classes, all.shows);
    let pen = then_left(pen, subject.graph, lines);
    then_totals(pen, all)
}

/// Writes the cover of these classes, which are `list`.
fn write_classes<O: Sink>(
    alloc: Global,
    out: &mut O,
    subject: &Subject<'_>,
    classes: CoverClasses,
    list: &[CoverClass],
    digest: &[u8],
) -> Result<bool, Uncovered>
    requires table { IsTableOf subject.now.table.now subject.now.graph.now }
    requires mapped { IsMapped subject.now.graph.now subject.now.survey.now }
    requires list { list.now ≡ classes_of classes }
    requires few { length list.now ≤ 7 }
    ensures { (stops : List Stops)
        → IsSurvey (subject_of subject.now.graph.now subject.now.table.now subject.now.survey.now.horizon stops) subject.now.survey.now
        → WritesCover (subject_of subject.now.graph.now subject.now.table.now subject.now.survey.now.horizon stops) classes digest.now (O.seen out.old)
        (O.seen out.new) result }
{
    match find(alloc, subject, list) {
        Ok(found) => {
            let left = found.all.leaves_any();
            let survey = subject.survey;
            let pen = then_remark(LinePen::new(out), classes, survey.horizon(), digest);
            let pen = then_found(pen, subject, list, &found.counts, &found.all, &found.lines);
            match pen.end() {
                Ok(()) => Ok(left),
                Err(Failed) => Err(Uncovered::Failed),
            }
        }
        Err(_) => Err(Uncovered::Memory),
    }
}

/// Writes the cover of a surveyed graph, whose table this is, with the digits of its image's digest: each fault of each class is counted once under what
/// is reported of it, each that shows has its line, and each other that is neither refused nor does nothing is in its operation's line. Answers whether
/// there are any of those. After `Memory` nothing is written, and after `Failed` a part of it.
pub fn write_cover<O: Sink>(
    alloc: Global,
    out: &mut O,
    graph: &Graph,
    table: &Table,
    survey: &Survey,
    classes: CoverClasses,
    digest: &[u8],
) -> Result<bool, Uncovered>
    requires table { IsTableOf table.now graph.now }
    requires survey { IsMapped graph.now survey.now }
    ensures { (stops : List Stops) → IsSurvey (subject_of graph.now table.now survey.now.horizon stops) survey.now
        → WritesCover (subject_of graph.now table.now survey.now.horizon stops) classes digest.now (O.seen out.old) (O.seen out.new) result }
{
    let subject = Subject {
        graph,
        table,
        survey,
    };
    match classes {
        CoverClasses::One(class) => {
            let one = [class];
            write_classes(alloc, out, &subject, classes, &one, digest)
        }
        CoverClasses::All => write_classes(alloc, out, &subject, classes, &CLASSES, digest),
    }
}
