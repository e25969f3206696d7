//! Where each word is read.

ghost use Rattle.std.specs.Option.{is_some};
ghost use Rattle.std.specs.Prelude.{◌≡◌, ◌<◌, ◌++◌, ◌∷◌, [], ℕ, true, length, set, IfOk, OnOk};
ghost use Rattle.op_graph.specs.Lists.{cells};
ghost use Rattle.op_graph.specs.Reads.{named as named_of};
ghost use Rattle.op_graph.specs.Rules.{IsGraph, reads_as};
ghost use Rattle.fault_sites.specs.Readings.{Adds, AreReadings, reading_as, readings_by, readings_from, readings_across, word};

use crate::reading::Reading;
use op_graph::{Graph, Op, entries_keep_their_rules, operands_are_there, reads_operation};
use std::alloc::Global;
use vcp_base::{CopyList, Memory, multiplier};

/// The readings of a word, in order, seen as a list.
pub type WordReadings = CopyList<Reading>;

/// One more reading of operation `n`'s word.
fn add(by_word: &mut [WordReadings], n: u32, reading: Reading) -> Result<(), Memory>
    requires { n < length by_word.old }
    ensures { OnOk result (by_word.new ≡ set by_word.old n (word by_word.old n ++ reading ∷ [])) }
{
    let readings = &mut by_word[n as usize];
    readings.push(reading)?;
    Ok(())
}

/// The reading of operand `j` by operation `q`, which names operation `n` there.
fn read(q: u32, op: &Op, j: u32, n: u32, by_word: &mut [WordReadings]) -> Result<(), Memory>
    requires names { named_of op.now j ≡ n }
    requires there { is_some (reads_as op.now.kind op.now.from j) ≡ true → n < length by_word.old }
    ensures { OnOk result (Adds (λ k. reading_as k q op.now j) by_word.old by_word.new) }
{
    let reads = reads_operation(op.kind, j);
    if !reads {
        return Ok(());
    }
    let reading = Reading {
        op: q,
        operand: j,
        borders: 0,
        multiplier: multiplier(op.kind, j),
    };
    add(by_word, n, reading)
}

/// The readings of operation `q`.
fn read_all(q: u32, op: &Op, by_word: &mut [WordReadings]) -> Result<(), Memory>
    requires { (j : ℕ) → is_some (reads_as op.now.kind op.now.from j) ≡ true → named_of op.now j < length by_word.old }
    ensures { OnOk result (Adds (λ k. readings_by k q op.now) by_word.old by_word.new) }
{
    read(q, op, 0, op.a, by_word)?;
    read(q, op, 1, op.b, by_word)?;
    read(q, op, 2, op.c, by_word)
}

/// The readings of each operation's word by the operations of its cycle.
fn read_in_cycle(graph: &Graph, by_word: &mut [WordReadings]) -> Result<(), Memory>
    requires graph { IsGraph graph.now }
    requires count { length by_word.old ≡ length graph.now.operations }
    ensures { OnOk result (Adds (λ k. readings_from k 0 graph.now.operations) by_word.old by_word.new) }
{
    // What an operation reads is an earlier one.
    operands_are_there();
    'operations: for q in 0..graph.len() {
        let op = graph.operation(q);
        read_all(q, &op, by_word)?;
    }
    Ok(())
}

/// The readings of the STOREs' words by the LOADs of their cells, in the next cycle.
fn read_across(graph: &Graph, by_word: &mut [WordReadings]) -> Result<(), Memory>
    requires graph { IsGraph graph.now }
    requires count { length by_word.old ≡ length graph.now.operations }
    ensures { OnOk result (Adds (λ k. readings_across k (cells graph.now)) by_word.old by_word.new) }
{
    // The STORE of each cell is an operation.
    entries_keep_their_rules();
    'cells: for i in 0..graph.cells() {
        let cell = graph.cell(i);
        let reading = Reading {
            op: cell.load,
            operand: 0,
            borders: 1,
            multiplier: 1,
        };
        add(by_word, cell.store, reading)?;
    }
    Ok(())
}

/// No readings of so many words.
fn no_readings(alloc: Global, count: u32) -> Result<Vec<WordReadings>, Memory>
    ensures many { IfOk result (λ by_word. length by_word.items ≡ count) }
    ensures none { IfOk result (λ by_word. (k : ℕ) → word by_word.items k ≡ []) }
{
    let mut by_word = Vec::with_capacity(alloc, count as usize)?;
    'words: for _n in 0..count {
        by_word.push(WordReadings::new(alloc))?;
    }
    Ok(by_word)
}

/// Makes lists without entries the readings of each operation's word.
fn gather(graph: &Graph, more: bool, by_word: &mut [WordReadings]) -> Result<(), Memory>
    requires graph { IsGraph graph.now }
    requires count { length by_word.old ≡ length graph.now.operations }
    requires none { (k : ℕ) → word by_word.old k ≡ [] }
    ensures { OnOk result (AreReadings graph.now more by_word.new) }
{
    read_in_cycle(graph, by_word)?;
    if more {
        read_across(graph, by_word)
    } else {
        Ok(())
    }
}

/// The readings of each operation's word, of a cycle behind which there is another one or none.
pub fn readings(alloc: Global, graph: &Graph, more: bool) -> Result<Vec<WordReadings>, Memory>
    ensures { IfOk result (λ by_word. AreReadings graph.now more by_word.items) }
{
    let count = graph.len();
    let mut by_word = no_readings(alloc, count)?;
    gather(graph, more, &mut by_word)?;
    Ok(by_word)
}
