//! How many faults of each operation run on, or are beyond the horizon.

ghost use Rattle.std.specs.Prelude.{◌≡◌, ◌+◌, ◌*◌, ◌/◌, ◌%◌, ◌<◌, ◌≤◌, ◌++◌, ◌∷◌, [], false, ℕ, List, Some, IfOk, cond, length};
ghost use Rattle.range_walk.specs.declared.range.Stops.{Stops};
ghost use Rattle.signature_table.specs.Signatures.{IsTableOf};
ghost use Rattle.fault_cover.specs.Leftovers.{AreLinesAt, AreLinesOf, IsLeast, Leaves, beyond_line, count_key, key_line as key_line_of};
ghost use Rattle.fault_cover.specs.Surveys.{IsMapped, IsSurvey};
ghost use Rattle.fault_cover.specs.Telling.{subject as subject_of};
ghost use Rattle.fault_sites.specs.Sites.{each_below};

use crate::class::CoverClass;
use crate::disturbance::Disturbance;
use crate::effect::Effect;
use crate::faults::{Listener, Subject, then_faults_at};
use crate::items::item;
use crate::tally::plus;
use op_graph::Graph;
use std::alloc::Global;
use vcp_base::Memory;

/// What is reported of faults that are neither refused nor do nothing, nor show.
#[derive(Clone, Copy)]
pub enum LeftEffect {
    /// They run on.
    RunsOn {
        /// Across how many borders.
        borders: u64,
        /// At which operation.
        op: u64,
    },
    /// They are beyond the horizon.
    Beyond,
}

/// So many faults of an operation of which one thing is reported.
#[derive(Clone, Copy)]
pub struct LeftLine {
    /// The operation.
    pub(crate) at: u32,
    /// What is reported.
    pub(crate) told: LeftEffect,
    /// How many faults.
    pub(crate) faults: u64,
}

/// Items as they come, and whether memory was wanting for one of them.
#[derive(Drop)]
pub(crate) struct Kept<T: Copy + Drop> {
    list: Vec<T>,
    lacked: bool,
}

impl<T: Copy + Drop> Kept<T> {
    /// None.
    fn new(alloc: Global) -> Kept<T>
        ensures items { result.list.items ≡ [] }
        ensures lacked { result.lacked ≡ false }
    {
        Kept {
            list: Vec::new(alloc),
            lacked: false,
        }
    }

    /// One more.
    fn push(&mut self, item: T)
        ensures { self.new.lacked ≡ false → (self.old.lacked ≡ false) × (self.new.list.items ≡ self.old.list.items ++ item ∷ []) }
    {
        if self.list.push(item).is_err() {
            self.lacked = true;
        }
    }
}

/// The faults of an operation that run on, each as the number of its borders and operation, and how many are beyond.
#[derive(Drop)]
pub(crate) struct Left {
    keys: Kept<u64>,
    beyond: u64,
}

impl Listener for Left {
    ghost Keeps = { λ g _. Leaves g };

    fn hear(mut self, graph: &Graph, _k: u32, _disturbance: &Disturbance, told: &Effect) -> Self {
        match told {
            // One number for the borders and the operation.
            Effect::RunsOn { borders, op } => {
                self.keys
                    .push(*borders as u64 * graph.len() as u64 + *op as u64);
                self
            }
            Effect::Beyond => {
                self.beyond = plus(self.beyond, 1);
                self
            }
            Effect::Refused { borders: _ }
            | Effect::Nothing
            | Effect::Shows {
                borders: _,
                output: _,
            } => self,
        }
    }
}

/// 1 where a test holds.
fn one_if(is: bool) -> u64
    ensures one { result ≡ cond is 1 0 }
    ensures few { result ≤ 1 }
{
    if is { 1 } else { 0 }
}

/// How many have this number.
fn count_of(keys: &[u64], key: u64) -> u64
    ensures { result ≡ count_key keys.now key }
{
    let mut count = 0;
    'keys: for i in 0..keys.len() {
        let found = item(keys, i);
        count += one_if(found == key);
    }
    count
}

/// The lesser of a number and one that was found, where the number is at least `from` and below `most`.
fn lesser(best: Option<u64>, key: u64, from: u64, most: u64) -> Option<u64>
    ensures { (keys : List ℕ) → IsLeast keys from most best → IsLeast (keys ++ key ∷ []) from most result }
{
    if key < from {
        return best;
    }
    if key >= most {
        return best;
    }
    match best {
        Some(found) => if found <= key { Some(found) } else { Some(key) },
        None => Some(key),
    }
}

/// The least of the numbers that is at least `from` and below `most`.
fn least_from(keys: &[u64], from: u64, most: u64) -> Option<u64>
    ensures { IsLeast keys.now from most result }
{
    let mut best = None;
    'keys: for i in 0..keys.len() {
        let key = item(keys, i);
        best = lesser(best, key, from, most);
    }
    best
}

/// A line for each number below `most` that any have, in order.
fn add_key_lines(lines: &mut Kept<LeftLine>, k: u32, width: u32, keys: &[u64], most: u64)
    requires { 0 < width }
    ensures { lines.new.lacked ≡ false → (lines.old.lacked ≡ false) × (lines.new.list.items
        ≡ lines.old.list.items ++ each_below (key_line_of k width keys.now) most) }
{
    let mut next = 0;
    'keys: while let Some(key) = least_from(keys, next, most) {
        let faults = count_of(keys, key);
        lines.push(LeftLine {
            at: k,
            told: LeftEffect::RunsOn {
                borders: key / width as u64,
                op: key % width as u64,
            },
            faults,
        });
        next = key + 1;
    }
}

/// The line of those that are beyond, where there are any.
fn add_beyond(lines: &mut Kept<LeftLine>, k: u32, beyond: u64)
    ensures { lines.new.lacked ≡ false → (lines.old.lacked ≡ false) × (lines.new.list.items ≡ lines.old.list.items ++ beyond_line k beyond) }
{
    if beyond == 0 {
        return;
    }
    lines.push(LeftLine {
        at: k,
        told: LeftEffect::Beyond,
        faults: beyond,
    });
}

/// The lines of operation `k`.
fn add_lines_at(
    alloc: Global,
    lines: &mut Kept<LeftLine>,
    subject: &Subject<'_>,
    classes: &[CoverClass],
    k: u32,
)
    requires table { IsTableOf subject.now.table.now subject.now.graph.now }
    requires mapped { IsMapped subject.now.graph.now subject.now.survey.now }
    requires there { k < length subject.now.graph.now.operations }
    ensures { lines.new.lacked ≡ false → (lines.old.lacked ≡ false) × ((stops : List Stops)
        → IsSurvey (subject_of subject.now.graph.now subject.now.table.now subject.now.survey.now.horizon stops) subject.now.survey.now
        → AreLinesAt (subject_of subject.now.graph.now subject.now.table.now subject.now.survey.now.horizon stops) classes.now k lines.old.list.items
        lines.new.list.items) }
{
    let none = Left {
        keys: Kept::new(alloc),
        beyond: 0,
    };
    let left = then_faults_at(none, subject, classes, k);
    if left.keys.lacked {
        lines.lacked = true;
        return;
    }
    let survey = subject.survey;
    let horizon = survey.horizon();
    let width = subject.graph.len();
    let most = (horizon as u64 + 1) * width as u64;
    add_key_lines(lines, k, width, &left.keys.list, most);
    add_beyond(lines, k, left.beyond);
}

/// The lines of all operations whose faults run on or are beyond, in order. Nothing is written.
pub(crate) fn lines_left(
    alloc: Global,
    subject: &Subject<'_>,
    classes: &[CoverClass],
) -> Result<Vec<LeftLine>, Memory>
    requires table { IsTableOf subject.now.table.now subject.now.graph.now }
    requires mapped { IsMapped subject.now.graph.now subject.now.survey.now }
    ensures { IfOk result (λ lines. (stops : List Stops)
        → IsSurvey (subject_of subject.now.graph.now subject.now.table.now subject.now.survey.now.horizon stops) subject.now.survey.now
        → AreLinesOf (subject_of subject.now.graph.now subject.now.table.now subject.now.survey.now.horizon stops) classes.now
        (length subject.now.graph.now.operations) lines.items) }
{
    let mut lines = Kept::new(alloc);
    'operations: for k in 0..subject.graph.len() {
        add_lines_at(alloc, &mut lines, subject, classes, k);
    }
    let Kept { list, lacked } = lines;
    if lacked {
        return Err(Memory);
    }
    Ok(list)
}
