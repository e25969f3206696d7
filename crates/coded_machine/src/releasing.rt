//! What a release sets: the row of outputs and the words of the cells.

ghost use Rattle.std.specs.Prelude.{◌≡◌, ◌<◌, ◌≤◌, ◌++◌, ◌∷◌, None, true, IfOk, length, slice_set, FitsSigned};
ghost use Rattle.std.specs.Int.{w64};
ghost use Rattle.coded_unit.specs.Words.{value_part, coded};
ghost use Rattle.op_graph.specs.Rules.{IsGraph};
ghost use Rattle.signature_table.specs.Signatures.{signature, IsTableOf};
ghost use Rattle.coded_machine.specs.CycleEnds.{outputs_of, stored_words, initial_words, first_outside as first_outside_of};

use crate::calling::word_at;
use coded_unit::{Answer, Word};
use op_graph::{Cell, Graph, entries_keep_their_rules};
use signature_table::Table;
use std::alloc::Global;
use vcp_base::{Memory, Profile, Row};

/// Sets the row to the values of the outputs, which are in their types.
pub(crate) fn set_outputs(graph: &Graph, answers: &[Answer], out: &mut Row)
    requires inside { first_outside_of graph.now.profile answers.now graph.now.outputs ≡ None }
    requires cells { length out.old ≡ length graph.now.outputs }
    ensures { out.new ≡ outputs_of graph.now answers.now }
{
    'outputs: for i in 0..graph.outputs() {
        let outlet = graph.output(i);
        set_output(graph, out, i, word_at(answers, outlet.op));
    }
}

/// Sets one place of the row to the value of a word.
fn set_output(graph: &Graph, out: &mut Row, i: u32, word: Word)
    requires place { i < length out.old }
    requires value { FitsSigned w64 (value_part graph.now.profile word) }
    ensures { out.new ≡ slice_set out.old i (value_part graph.now.profile word) }
{
    out.set(i, word.split(graph.profile()).0 as i64);
}

/// Whether a word has this value.
#[inline(always)]
fn has_value(profile: Profile, word: Word, value: i64) -> bool
    ensures { value ≡ value_part profile word → result ≡ true }
{
    word.split(profile).0 == value as i128
}

/// Whether the row has the values of the outputs' words, which are split anew.
pub(crate) fn has_outputs(graph: &Graph, answers: &[Answer], out: &Row) -> bool
    requires { out.now ≡ outputs_of graph.now answers.now }
    ensures { result ≡ true }
{
    'outputs: for i in 0..graph.outputs() {
        let outlet = graph.output(i);
        if !has_value(
            graph.profile(),
            word_at(answers, outlet.op),
            out.at(i as usize),
        ) {
            return false;
        }
    }
    true
}

/// Sets the words of the cells to those that their STOREs answered.
pub fn store_words(graph: &Graph, answers: &[Answer], held: &mut [Word])
    requires cells { length held.old ≡ length graph.now.stores }
    ensures { held.new ≡ stored_words graph.now answers.now }
{
    'cells: for i in 0..graph.cells() {
        held[i as usize] = word_at(answers, graph.cell(i).store);
    }
}

/// The word of a cell before the first cycle: that of its initial value, with the signature of its
/// STORE at stamp 0.
fn first_word(graph: &Graph, table: &Table, cell: &Cell) -> Word
    requires operation { cell.now.store < length table.now.corrections }
    requires table { IsTableOf table.now graph.now }
    ensures { result ≡ coded graph.now.profile cell.now.init (signature graph.now.profile table.now.seed cell.now.store) }
{
    Word::packed(
        graph.profile(),
        cell.init as i128,
        table.signature(cell.store),
    )
}

/// The words of the cells before the first cycle; `Memory` where there is no room for them.
pub fn first_words(alloc: Global, graph: &Graph, table: &Table) -> Result<Vec<Word>, Memory>
    requires graph { IsGraph graph.now }
    requires table { IsTableOf table.now graph.now }
    ensures words { IfOk result (λ held. held.items ≡ initial_words graph.now table.now.seed) }
    ensures count { IfOk result (λ held. length held.items ≡ length graph.now.stores) }
{
    // The STORE of each cell is an operation.
    entries_keep_their_rules();
    let mut held = Vec::new(alloc);
    'cells: for i in 0..graph.cells() {
        held.push(first_word(graph, table, &graph.cell(i)))?;
    }
    Ok(held)
}
