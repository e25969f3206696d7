//! The run without faults.

ghost use Rattle.std.specs.Prelude.{◌≡◌, ◌<◌, ◌≤◌, ◌*◌, ◌++◌, [], Some, All, IfOk, OnErr, drop, length, slice_get, slice_index_or, vec_capacity};
ghost use Rattle.vcp_base.specs.Limits.{most_cycles};
ghost use Rattle.coded_unit.specs.Seen.{StaysHonest};
ghost use Rattle.signature_table.specs.Signatures.{IsTableOf};
ghost use Rattle.coded_machine.specs.CycleEnds.{end_of};
ghost use Rattle.coded_machine.specs.Honest.{stop_answer};
ghost use Rattle.fault_injector.specs.References.{RanOver, Sound, words_answered};
ghost use Rattle.fault_injector.specs.Reruns.{IsReference};

use crate::campaign::reruns::kept::{Kept, keep_run};
use coded_machine::{CycleEnd, Machine};
use coded_unit::{Unit, Word};
use input_rows::RowList;
use op_graph::Graph;
use signature_table::Table;
use std::alloc::Global;
use std::marker::Model;
use vcp_base::{Memory, Row, StopKind};

/// The run of a graph over rows of inputs without faults, with every word that was answered in it. It borrows the graph, the table
/// of its code and the rows.
///
/// A word takes 16 bytes, and there is room for one for each operation in each row: it is for the caller to bound these.
#[derive(Drop)]
pub struct Reference<'a> {
    graph: &'a Graph,
    table: &'a Table,
    rows: &'a RowList,
    kept: Kept,
}

impl<'a> Model for Reference<'a> {
    ghost use Rattle.std.specs.Prelude.{length};
    ghost use Rattle.fault_injector.specs.References.{KeptRun, IsKept, kept_cycles};

    ghost Value = { KeptRun };

    ghost view = { λ r. record {
      graph = r.graph.now;
      table = r.table.now;
      rows = r.rows.now;
      answers = kept_cycles (length r.graph.now.operations) r.kept.whole r.kept.words.items r.kept.stop;
      end = r.kept.end;
    } };

    ghost invariant = { λ r. IsKept (record {
      graph = r.graph.now;
      table = r.table.now;
      rows = r.rows.now;
      answers = kept_cycles (length r.graph.now.operations) r.kept.whole r.kept.words.items r.kept.stop;
      end = r.kept.end;
    }) r.kept.whole (length r.kept.words.items) };
}

/// What a run is carried with: the values of the inputs and of the outputs, and room for all words.
#[derive(Drop)]
struct RunRoom {
    inputs: Row,
    outputs: Row,
    words: Vec<Word>,
}

/// Room for the run of a graph over these rows.
fn run_room(alloc: Global, graph: &Graph, rows: &RowList) -> Result<RunRoom, Memory>
    requires { length rows.now ≤ most_cycles }
    ensures inputs { IfOk result (λ r. length r.inputs ≡ length graph.now.inputs) }
    ensures outputs { IfOk result (λ r. length r.outputs ≡ length graph.now.outputs) }
    ensures empty { IfOk result (λ r. r.words.items ≡ []) }
    ensures room { IfOk result (λ r. length rows.now * length graph.now.operations ≤ vec_capacity r.words) }
{
    let operations = graph.len() as usize;
    let inputs = Row::zeros(alloc, graph.inputs())?;
    let outputs = Row::zeros(alloc, graph.outputs())?;
    let words = Vec::with_capacity(alloc, rows.len() * operations)?;
    Ok(RunRoom {
        inputs,
        outputs,
        words,
    })
}

/// The answers of one cycle: its words, and behind them the stop of an operation, where one stopped.
#[derive(Clone, Copy)]
pub struct CycleAnswers<'r> {
    /// The words, one for each operation in order.
    pub words: &'r [Word],
    /// Why the next operation stopped.
    pub stop: Option<StopKind>,
}

impl<'a> Reference<'a> {
    /// Carries the run without faults through a unit, over all rows or to its end; `Memory` where there is no
    /// room for a machine and for a word of each operation in each row, and then no call was made. For every
    /// unit a kept log grows by exactly the run's calls with the unit's answers, and its cycles and its end
    /// are those that these answers give. Where no answer was wrong in the call, each that is kept is right.
    pub fn new<U: Unit>(
        alloc: Global,
        graph: &'a Graph,
        table: &'a Table,
        rows: &'a RowList,
        unit: &mut U,
    ) -> Result<Reference<'a>, Memory>
        requires table { IsTableOf table.now graph.now }
        requires width { All (λ row. length row ≡ length graph.now.inputs) rows.now }
        requires few { length rows.now ≤ most_cycles }
        ensures graph { IfOk result (λ r. r.graph ≡ graph.now) }
        ensures table { IfOk result (λ r. r.table ≡ table.now) }
        ensures rows { IfOk result (λ r. r.rows ≡ rows.now) }
        ensures ran { IfOk result (λ r. RanOver graph.now table.now rows.now r.answers r.end
            (U.seen unit.old).log (U.seen unit.new).log (U.seen unit.old).wrong (U.seen unit.new).wrong) }
        ensures honest { StaysHonest (U.seen unit.old) (U.seen unit.new) → IfOk result (λ r. IsReference table.now graph.now rows.now r.answers) }
        ensures err { OnErr result (unit.new ≡ unit.old) }
    {
        // The rules of the graph and of the table are kept.
        let _operations = graph.len();
        let _step = table.step();
        match run_room(alloc, graph, rows) {
            Ok(
                RunRoom {
                    mut inputs,
                    mut outputs,
                    words,
                },
            ) => match Machine::new(alloc, graph, table) {
                Ok(mut machine) => {
                    let kept = keep_run(&mut machine, rows, &mut inputs, &mut outputs, words, unit);
                    Ok(Reference {
                        graph,
                        table,
                        rows,
                        kept,
                    })
                }
                Err(why) => Err(why),
            },
            Err(why) => Err(why),
        }
    }

    /// The graph.
    pub fn graph(&self) -> &'a Graph
        ensures { result.now ≡ self.now.graph }
    {
        self.graph
    }

    /// The table of its code.
    pub fn table(&self) -> &'a Table
        ensures { result.now ≡ self.now.table }
    {
        self.table
    }

    /// The rows.
    pub fn rows(&self) -> &'a RowList
        ensures { result.now ≡ self.now.rows }
    {
        self.rows
    }

    /// How many cycles were begun.
    pub fn cycles(&self) -> u32
        ensures count { result ≡ length self.now.answers }
        ensures few { result ≤ length self.now.rows }
        ensures sound { Sound self.now }
    {
        match self.kept.stop {
            Some(_) => self.kept.whole + 1,
            None => self.kept.whole,
        }
    }

    /// The answers of cycle `n`, counted from 0, where that was begun.
    pub fn cycle(&self, n: u32) -> CycleAnswers<'_>
        requires { n < length self.now.answers }
        ensures { slice_get self.now.answers n ≡ Some (words_answered result.words.now ++ stop_answer result.stop) }
    {
        let operations = self.graph.len() as usize;
        let start = n as usize * operations;
        if n < self.kept.whole {
            CycleAnswers {
                words: &self.kept.words[start..start + operations],
                stop: None,
            }
        } else {
            CycleAnswers {
                words: behind(&self.kept.words, start),
                stop: self.kept.stop,
            }
        }
    }

    /// How cycle `n`, counted from 0, ended, where it was begun: each but the last by a release.
    pub fn end(&self, n: u32) -> CycleEnd
        requires { n < length self.now.answers }
        ensures { result ≡ end_of self.now.graph self.now.table n (slice_index_or self.now.answers n []) }
    {
        let last = self.cycles() - 1;
        if n < last {
            CycleEnd::Released
        } else {
            self.kept.end
        }
    }
}

/// The words from a place on.
fn behind(words: &[Word], start: usize) -> &[Word]
    requires { start ≤ length words.now }
    ensures { result.now ≡ drop start words.now }
{
    &words[start..]
}
