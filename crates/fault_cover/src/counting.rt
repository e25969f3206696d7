//! Counts of what faults are reported as.

ghost use Rattle.std.specs.Prelude.{◌≡◌, ◌+◌, ◌<◌, ◌^◌, ◌++◌, ◌∷◌, [], ◌==◌, ℕ, List, IfOk, length};
ghost use Rattle.range_walk.specs.declared.range.Stops.{Stops};
ghost use Rattle.signature_table.specs.Signatures.{IsTableOf};
ghost use Rattle.verdict_tables.specs.Tables.{is_delay};
ghost use Rattle.fault_cover.specs.Counts.{AreDelays, AreCounted, AreCountsOf, Counts, IsClassCount};
ghost use Rattle.fault_cover.specs.CoverText.{Covered, Heard, delays as delays_of, heard_of, tally as tally_of};
ghost use Rattle.fault_cover.specs.Surveys.{IsMapped, IsSurvey};
ghost use Rattle.fault_cover.specs.Telling.{subject as subject_of};

use crate::class::CoverClass;
use crate::disturbance::Disturbance;
use crate::effect::Effect;
use crate::faults::{Listener, Subject, then_class_faults};
use crate::items::item;
use crate::tally::{Tally, plus};
use op_graph::Graph;
use std::alloc::Global;
use vcp_base::Memory;

/// How many rows there are for how many cycles later faults are refused: one for each number below 16, and one for all others.
pub(crate) const DELAYS: usize = 17;

/// What is counted of the faults of a class.
#[derive(Clone, Copy)]
pub struct Counting {
    pub(crate) tally: Tally,
    pub(crate) delays: [u64; DELAYS],
}

/// The row for a number of cycles.
fn delay_row(borders: u32) -> usize
    ensures within { result < 17 }
    ensures row { (n : ℕ) → n < 17 → is_delay n borders ≡ (n == result) }
{
    if borders < 16 { borders as usize } else { 16 }
}

/// One more in its row, where it is refused.
fn count_delay(delays: &mut [u64; DELAYS], told: &Effect)
    ensures { (past : List Heard) (h : Heard) → h.told ≡ told.now → length past < 2 ^ 62 → AreDelays delays.old past → AreDelays delays.new (past ++ h ∷ []) }
{
    if let Effect::Refused { borders } = told {
        let row = delay_row(*borders);
        delays[row] = plus(delays[row], 1);
    }
}

impl Counting {
    /// Nothing counted.
    pub(crate) fn new() -> Counting
        ensures { Counts result [] }
    {
        Counting {
            tally: Tally::none(),
            delays: [0; DELAYS],
        }
    }
}

impl Listener for Counting {
    ghost Keeps = { λ _ _. Counts };

    fn hear(mut self, _graph: &Graph, _k: u32, _disturbance: &Disturbance, told: &Effect) -> Self {
        self.tally.count(told);
        count_delay(&mut self.delays, told);
        self
    }
}

/// A class, and what is counted of its faults.
#[derive(Clone, Copy)]
pub struct ClassCount {
    pub(crate) class: CoverClass,
    pub(crate) counting: Counting,
}

/// What is counted of the faults of a class.
fn count_class(subject: &Subject<'_>, class: CoverClass) -> ClassCount
    requires table { IsTableOf subject.now.table.now subject.now.graph.now }
    requires mapped { IsMapped subject.now.graph.now subject.now.survey.now }
    ensures { (stops : List Stops)
        → IsSurvey (subject_of subject.now.graph.now subject.now.table.now subject.now.survey.now.horizon stops) subject.now.survey.now
        → IsClassCount (subject_of subject.now.graph.now subject.now.table.now subject.now.survey.now.horizon stops) class result }
{
    ClassCount {
        class,
        counting: then_class_faults(Counting::new(), subject, class),
    }
}

/// What is counted of each of these classes. Nothing is written.
pub(crate) fn count_classes(
    alloc: Global,
    subject: &Subject<'_>,
    classes: &[CoverClass],
) -> Result<Vec<ClassCount>, Memory>
    requires table { IsTableOf subject.now.table.now subject.now.graph.now }
    requires mapped { IsMapped subject.now.graph.now subject.now.survey.now }
    ensures { IfOk result (λ counts. (stops : List Stops)
        → IsSurvey (subject_of subject.now.graph.now subject.now.table.now subject.now.survey.now.horizon stops) subject.now.survey.now
        → AreCountsOf (subject_of subject.now.graph.now subject.now.table.now subject.now.survey.now.horizon stops) classes.now counts.items) }
{
    let mut counts = Vec::new(alloc);
    'classes: for i in 0..classes.len() {
        let class = item(classes, i);
        counts.push(count_class(subject, class))?;
    }
    Ok(counts)
}

/// The tally of all classes.
pub(crate) fn total(counts: &[ClassCount]) -> Tally
    ensures { (covered : List Covered) → AreCounted counts.now covered → length (heard_of covered) < 2 ^ 62 → result ≡ tally_of (heard_of covered) }
{
    let mut all = Tally::none();
    'classes: for i in 0..counts.len() {
        let count = item(counts, i);
        all = all.with(&count.counting.tally);
    }
    all
}

/// How many faults of all classes are in row `n` of the numbers of cycles.
pub(crate) fn delayed(counts: &[ClassCount], n: usize) -> u64
    requires { n < 17 }
    ensures { (covered : List Covered) → AreCounted counts.now covered → length (heard_of covered) < 2 ^ 62 → result ≡ delays_of (heard_of covered) n }
{
    let mut all = 0;
    'classes: for i in 0..counts.len() {
        let count = item(counts, i);
        all = plus(all, count.counting.delays[n]);
    }
    all
}
